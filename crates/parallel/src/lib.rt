// All elements of a word of 64 bits at once, with the operations of the machine on the whole word.
// No sum or difference carries from an element into the next: each is proved to stay inside its element.
#![tactic(auto)]

ghost use Rattle.std.specs.Prelude.{cond, ◌-◌, ◌/◌, ◌^◌, ltb};
ghost use Rattle.isa.specs.Widths.{bits};
ghost use Rattle.element.specs.Value.{top};
ghost use Rattle.element.specs.Views as views;
ghost use Rattle.parallel.specs.Lanes.{Each1, Each3, Lanes};

use element::{Reading, count, ones};
use isa::Width;

pub mod clipped;
pub mod compares;
pub mod dispatch;
pub mod means;
pub mod order;
pub mod wrapping;

// The top bit of every element. Tables by the width, here and in parallel_halves: as a product it would be multiplied.
pub fn tops(w: Width) -> u64
    ensures { Lanes (bits w) result (λ _. top (bits w)) }
{
    match w {
        Width::B => 0x8080_8080_8080_8080,
        Width::H => 0x8000_8000_8000_8000,
        Width::W => 0x8000_0000_8000_0000,
        Width::D => 0x8000_0000_0000_0000,
    }
}

// 1 in every element.
pub fn units(w: Width) -> u64
    ensures { Lanes (bits w) result (λ _. 1) }
{
    match w {
        Width::B => 0x0101_0101_0101_0101,
        Width::H => 0x0001_0001_0001_0001,
        Width::W => 0x0000_0001_0000_0001,
        Width::D => 1,
    }
}

// Every element's bits the other way round.
pub fn inverse(w: Width, x: u64) -> u64
    ensures { Each1 (bits w) result (λ a. 2 ^ bits w - 1 - a) x }
{
    0xFFFF_FFFF_FFFF_FFFF - x
}

// The bits below the top bit of every element.
fn lows(w: Width) -> u64
    ensures { Lanes (bits w) result (λ _. top (bits w) - 1) }
{
    inverse(w, tops(w))
}

// Every element with its top bit the other way round.
pub fn flipped(w: Width, x: u64) -> u64
    ensures { Each1 (bits w) result (views.flip (bits w)) x }
{
    x ^ tops(w)
}

// Every element as an unsigned number in the order of its readings, and back.
pub fn viewed(w: Width, g: Reading, x: u64) -> u64
    ensures { Each1 (bits w) result (views.view g (bits w)) x }
{
    match g {
        Reading::Unsigned => x,
        Reading::Signed => flipped(w, x),
    }
}

// Every element's top bit, as 0 or 1.
fn signs(w: Width, x: u64) -> u64
    ensures { Each1 (bits w) result (λ a. a / top (bits w)) x }
{
    (x >> (count(w) - 1)) & units(w)
}

// Every element all zeros or all ones, as its top bit.
pub fn filled(w: Width, z: u64) -> u64
    ensures { Each1 (bits w) result (λ a. cond (ltb a (top (bits w))) 0 (2 ^ bits w - 1)) z }
{
    signs(w, z) * ones(w)
}

// The elements of yes where the top bit of z is clear, and those of no where it is set.
fn picked(w: Width, z: u64, yes: u64, no: u64) -> u64
    ensures { Each3 (bits w) result (λ a y n. cond (ltb a (top (bits w))) y n) z yes no }
{
    let m = filled(w, z);
    (no & m) | (yes & inverse(w, m))
}
