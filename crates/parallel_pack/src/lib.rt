// Elements that change their places, all of a word at once: PCKEV and PCKOD push every second element of a word
// together, the interleaves draw the elements of half a word apart, SHF exchanges the quarters of wider elements.
#![tactic(auto)]

ghost use Rattle.std.specs.Prelude.{◌≡◌, cond, ℕ, ◌+◌, ◌-◌, ◌*◌, ◌/◌, ◌%◌, ◌^◌, ◌<◌, ◌≤◌, eqb};
ghost use Rattle.isa.specs.Widths.{bits};
ghost use Rattle.memory.specs.Value.{value};
ghost use Rattle.vectors.specs.Register.{element, build};
ghost use Rattle.parallel.specs.Lanes.{Each1, Lanes};

use element::{count, pow2};
use isa::Width;
use memory::Register;
use parallel_bits::spread_word;

// A quarter of an element.
fn quarter(v: Width) -> u64
    ensures { result ≡ bits v / 4 }
{
    count(v) / 4
}

// Ones in the lowest quarter of every element.
fn lowest(v: Width) -> u64
    ensures { Lanes (bits v) result (λ _. 2 ^ (bits v / 4) - 1) }
{
    spread_word(v, pow2(quarter(v)) - 1)
}

// In every element the lowest quarter, and the quarter at `from` put at `to`.
fn moved(v: Width, from: u64, to: u64, x: u64) -> u64
    requires { (bits v / 4 + from ≤ bits v) × (bits v / 4 ≤ to) × (bits v / 4 + to ≤ bits v) }
    ensures { Each1 (bits v) result (λ a. a % 2 ^ (bits v / 4) + a / 2 ^ from % 2 ^ (bits v / 4) * 2 ^ to) x }
{
    let m = lowest(v);
    (x & m) + (((x >> from) & m) << to)
}

// Ones in the lower of every two elements.
fn lower(w: Width) -> u64
    requires { bits w < 64 }
    ensures { Lanes (bits w + bits w) result (λ _. 2 ^ bits w - 1) }
{
    match w {
        Width::B => 0x00FF_00FF_00FF_00FF,
        Width::H => 0x0000_FFFF_0000_FFFF,
        Width::W => 0x0000_0000_FFFF_FFFF,
        Width::D => 0,
    }
}

// The even elements, each where two were.
fn evens(w: Width, x: u64) -> u64
    requires { bits w < 64 }
    ensures { Lanes (bits w + bits w) result (λ j. element (bits w) x (j * 2)) }
{
    x & lower(w)
}

// The even elements side by side, in half a word.
fn gathered(w: Width, x: u64) -> u64
    requires { bits w < 64 }
    ensures { result ≡ build (bits w) (λ i. element (bits w) x (i * 2)) (32 / bits w) }
{
    let y = evens(w, x);
    match w {
        Width::B => moved(Width::D, 32, 16, moved(Width::W, 16, 8, y)),
        Width::H => moved(Width::D, 32, 16, y),
        Width::W => y,
        Width::D => 0,
    }
}

// The elements of half a word, each where two were.
fn scattered(w: Width, x: u64) -> u64
    requires { (bits w < 64) × (x < 2 ^ 32) }
    ensures { Lanes (bits w + bits w) result (λ j. element (bits w) x j) }
{
    match w {
        Width::B => moved(Width::W, 8, 16, moved(Width::D, 16, 32, x)),
        Width::H => moved(Width::D, 16, 32, x),
        Width::W => x,
        Width::D => 0,
    }
}

// Two lists of elements, each where two could be, in turns.
fn interleaved(w: Width, a: u64, b: u64) -> u64
    requires { (bits w < 64)
        × ((j : ℕ) → j < 64 / (bits w + bits w) → element (bits w + bits w) a j < 2 ^ bits w)
        × ((j : ℕ) → j < 64 / (bits w + bits w) → element (bits w + bits w) b j < 2 ^ bits w) }
    ensures { Lanes (bits w) result
        (λ i. cond (eqb (i % 2) 0) (element (bits w + bits w) a (i / 2)) (element (bits w + bits w) b (i / 2))) }
{
    a + (b << count(w))
}

// PCKEV (o is 0) and PCKOD (o is 1): every second element of a register.
pub fn every_second(w: Width, o: u64, v: Register) -> u64
    requires { (bits w < 64) × (o ≤ 1) }
    ensures { Lanes (bits w) result (λ i. element (bits w) (value v) (i * 2 + o)) }
{
    let k = count(w) * o;
    gathered(w, v.low >> k) + (gathered(w, v.high >> k) << 32)
}

// ILVEV (o is 0) and ILVOD (o is 1) on a word.
pub fn second_in_turns(w: Width, o: u64, s: u64, t: u64) -> u64
    requires { (bits w < 64) × (o ≤ 1) }
    ensures { Lanes (bits w) result
        (λ i. cond (eqb (i % 2) 0) (element (bits w) t (i / 2 * 2 + o)) (element (bits w) s (i / 2 * 2 + o))) }
{
    let k = count(w) * o;
    interleaved(w, evens(w, t >> k), evens(w, s >> k))
}

// ILVR and ILVL on half a word: h is 0 for the lower half.
pub fn half_in_turns(w: Width, h: u64, s: u64, t: u64) -> u64
    requires { (bits w < 64) × (h ≤ 1) }
    ensures { Lanes (bits w) result (λ i. cond (eqb (i % 2) 0)
        (element (bits w) t (i / 2 + 32 / bits w * h)) (element (bits w) s (i / 2 + 32 / bits w * h))) }
{
    let k = 32 * h;
    interleaved(
        w,
        scattered(w, (t >> k) % 0x1_0000_0000),
        scattered(w, (s >> k) % 0x1_0000_0000),
    )
}

// In every element the quarter c of x, put at quarter i.
fn quarter_at(v: Width, x: u64, c: u64, i: u64) -> u64
    requires { (c < 4) × (i < 4) }
    ensures { Lanes (bits v) result (λ j. element (bits v / 4) x (j * 4 + c) * 2 ^ (bits v / 4 * i)) }
{
    let q = quarter(v);
    ((x >> (q * c)) & lowest(v)) << (q * i)
}

// SHF on the quarters of every element: two bits of the immediate for each choose.
pub fn shuffled(v: Width, x: u64, imm: u64) -> u64
    ensures { Lanes (bits v / 4) result (λ i. element (bits v / 4) x (i / 4 * 4 + element 2 imm (i % 4))) }
{
    let a = quarter_at(v, x, imm % 4, 0);
    let b = quarter_at(v, x, imm / 4 % 4, 1);
    let c = quarter_at(v, x, imm / 16 % 4, 2);
    let d = quarter_at(v, x, imm / 64 % 4, 3);
    a + b + c + d
}
