// Whole vector registers by their elements. A register is two words of 64 bits and no element of any format crosses
// them, so what is built element by element is built word by word.
#![tactic(auto)]

pub mod words;

ghost use Rattle.std.specs.Prelude.{◌≡◌, ℕ, ◌+◌, ◌*◌, ◌/◌, ◌^◌, ◌<◌};
ghost use Rattle.isa.specs.Widths.{bits};
ghost use Rattle.element.specs.Elements.{Element};
ghost use Rattle.memory.specs.Value.{value, register};
ghost use Rattle.vectors.specs.Register.{element, build, filled};

use element::{count, low};
use isa::Width;
use memory::Register;

// The elements in a word.
pub fn per_word(w: Width) -> u64
    ensures { result ≡ 64 / bits w }
{
    match w {
        Width::B => 8,
        Width::H => 4,
        Width::W => 2,
        Width::D => 1,
    }
}

// Element i of a word.
pub fn in_word(w: Width, x: u64, i: u64) -> u64
    requires { i < 64 / bits w }
    ensures { Element (bits w) result (element (bits w) x i) }
{
    low(w, x >> (count(w) * i))
}

// Element i of a register; past the last there are only zeros.
pub fn element_at(w: Width, v: Register, i: u64) -> u64
    ensures { Element (bits w) result (element (bits w) (value v) i) }
{
    let m = per_word(w);
    if i < m {
        return in_word(w, v.low, i);
    }
    if i - m < m {
        in_word(w, v.high, i - m)
    } else {
        0
    }
}

// x over one more element, which becomes the lowest.
pub fn joined(w: Width, x: u64, e: u64) -> u64
    requires { x * 2 ^ bits w + e < 2 ^ 64 }
    ensures { result ≡ x * 2 ^ bits w + e }
{
    match w {
        Width::B => x * 0x100 + e,
        Width::H => x * 0x1_0000 + e,
        Width::W => x * 0x1_0000_0000 + e,
        Width::D => e,
    }
}

// The word whose element i is f(w, i), made from the top element down.
fn in_turn<F: Fn(Width, u64) -> u64>(w: Width, f: F) -> u64
    requires calls { (i : ℕ) → i < 64 / bits w → F.pre f w i }
    requires fits { (i e : ℕ) → i < 64 / bits w → F.post f w i e → e < 2 ^ bits w }
    ensures { (i : ℕ) → i < 64 / bits w → F.post f w i (element (bits w) result i) }
{
    let mut out = 0;
    for i in (0..per_word(w)).rev() {
        out = joined(w, out, f(w, i));
    }
    out
}

// The same, with the width a literal at each loop, so that the compiler unrolls it.
pub fn built<F: Fn(Width, u64) -> u64>(w: Width, f: F) -> u64
    requires calls { (i : ℕ) → i < 64 / bits w → F.pre f w i }
    requires fits { (i e : ℕ) → i < 64 / bits w → F.post f w i e → e < 2 ^ bits w }
    ensures { (i : ℕ) → i < 64 / bits w → F.post f w i (element (bits w) result i) }
{
    match w {
        Width::B => in_turn(Width::B, f),
        Width::H => in_turn(Width::H, f),
        Width::W => in_turn(Width::W, f),
        Width::D => in_turn(Width::D, f),
    }
}

// The word with e for each of its elements.
fn spread_word(w: Width, e: u64) -> u64
    requires { e < 2 ^ bits w }
    ensures { result ≡ build (bits w) (λ _. e) (64 / bits w) }
{
    match w {
        Width::B => e * 0x0101_0101_0101_0101,
        Width::H => e * 0x0001_0001_0001_0001,
        Width::W => e * 0x0000_0001_0000_0001,
        Width::D => e,
    }
}

// The register with x, cut to the width, for each of its elements.
pub fn spread(w: Width, x: u64) -> Register
    ensures { result ≡ register (filled (bits w) x) }
{
    let word = spread_word(w, low(w, x));
    Register {
        low: word,
        high: word,
    }
}
