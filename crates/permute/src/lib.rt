// Permutes, Table 4.10, on whole words: a module for each way in which elements change their places. Only VSHF, whose
// controls may all differ, goes element by element.
#![tactic(auto)]

pub mod filed;
mod inserts;
pub mod moves;
mod packs;
mod shuffle;
mod slides;

ghost use Rattle.std.specs.Prelude.{◌≡◌, ◌+◌, ◌*◌, ◌/◌, ◌%◌, ◌^◌};
ghost use Rattle.isa.specs.Widths.{bits};
ghost use Rattle.memory.specs.Value.{value, register};
ghost use Rattle.vectors.specs.Register.{build, element, whole};
ghost use Rattle.permute.specs.Permute.{packed, chosen_by_immediate, chosen_by_control, slid_byte, with_element};

use element::count;
use isa::{Pack, Width};
use memory::Register;
use parallel_pack::shuffled;
use vectors::{element_at, per_word};

// PCKEV, PCKOD, ILVEV, ILVOD, ILVL, ILVR.
pub fn pack(op: Pack, w: Width, s: Register, t: Register) -> Register
    ensures { result ≡ register (whole (bits w) (packed op (bits w) (value s) (value t))) }
{
    if count(w) < 64 {
        packs::narrow(op, w, s, t)
    } else {
        packs::wide(op, w, s, t)
    }
}

// Two elements of 32 bits as a word.
fn pair(s: Register, a: u64, b: u64) -> u64
    ensures { result ≡ element 32 (value s) a + element 32 (value s) b * 2 ^ 32 }
{
    element_at(Width::W, s, a) + (element_at(Width::W, s, b) << 32)
}

// SHF. Four elements of 8 or 16 bits are in one word, four of 32 bits are the register.
pub fn shf(w: Width, s: Register, imm: u8) -> Register
    ensures { result ≡ register (whole (bits w) (chosen_by_immediate imm (bits w) (value s))) }
{
    let k = imm as u64;
    match w {
        Width::B => Register {
            low: shuffled(Width::W, s.low, k),
            high: shuffled(Width::W, s.high, k),
        },
        Width::H => Register {
            low: shuffled(Width::D, s.low, k),
            high: shuffled(Width::D, s.high, k),
        },
        Width::W => Register {
            low: pair(s, k % 4, k / 4 % 4),
            high: pair(s, k / 16 % 4, k / 64 % 4),
        },
        Width::D => Register {
            low: element_at(Width::D, s, k % 4),
            high: element_at(Width::D, s, k / 4 % 4),
        },
    }
}

// The control is the old destination d.
pub fn vshf(w: Width, d: Register, s: Register, t: Register) -> Register
    ensures { result ≡ register (whole (bits w) (chosen_by_control (bits w) (value d) (value s) (value t))) }
{
    Register {
        low: shuffle::chosen(w, d.low, s, t),
        high: shuffle::chosen(w, d.high, s, t),
    }
}

// A word of VSHF from the words of ws and wt: a function with many callers takes words in machine registers, and
// registers through memory.
pub fn vshf_word(w: Width, d: u64, s_low: u64, s_high: u64, t_low: u64, t_high: u64) -> u64
    ensures { result ≡ build (bits w) (chosen_by_control (bits w) d (s_low + s_high * 2 ^ 64)
        (t_low + t_high * 2 ^ 64)) (64 / bits w) }
{
    let s = Register {
        low: s_low,
        high: s_high,
    };
    let t = Register {
        low: t_low,
        high: t_high,
    };
    shuffle::chosen(w, d, s, t)
}

// SLD and SLDI, by c columns, taken modulo their number.
pub fn slide(w: Width, d: Register, s: Register, c: u64) -> Register
    ensures { result ≡ register (whole 8 (slid_byte (128 / bits w) (c % (128 / bits w)) (value d) (value s))) }
{
    match w {
        Width::B => slides::one_row(d, s, c % 16),
        Width::H => slides::rows(Width::D, d, s, c % 8),
        Width::W => slides::rows(Width::W, d, s, c % 4),
        Width::D => slides::rows(Width::H, d, s, c % 2),
    }
}

// INSERT: element i becomes x, cut to the width.
pub fn insert(w: Width, d: Register, i: u64, x: u64) -> Register
    ensures { result ≡ register (whole (bits w) (with_element i x (bits w) (value d))) }
{
    let m = per_word(w);
    if i < m {
        return Register {
            low: inserts::put(w, d.low, i, x),
            high: d.high,
        };
    }
    if i - m < m {
        return Register {
            low: d.low,
            high: inserts::put(w, d.high, i - m, x),
        };
    }
    d
}
