// Shifts, single bits, fields and narrower ranges on all elements of a word at once, with no loop over the elements.
// The shifts of this file have one amount for all elements.
#![tactic(auto)]

ghost use Rattle.std.specs.Prelude.{◌≡◌, ◌-◌, ◌/◌, ◌%◌, ◌^◌, ◌<◌};
ghost use Rattle.isa.specs.Widths.{bits};
ghost use Rattle.bits.specs.Shifts as shifts;
ghost use Rattle.parallel.specs.Lanes.{Each1, Lanes};

use element::{count, ones};
use isa::Width;
use parallel::units;

pub mod dispatch;
pub mod places;
pub mod shifting;
mod steps;

// e in every element.
pub fn spread_word(w: Width, e: u64) -> u64
    requires { e < 2 ^ bits w }
    ensures { Lanes (bits w) result (λ _. e) }
{
    units(w) * e
}

// The amount that y asks for: it counts modulo the width.
fn amount(w: Width, y: u64) -> u64
    ensures is { result ≡ y % bits w }
    ensures below { result < bits w }
    ensures few { result < 64 }
{
    y & (count(w) - 1)
}

// In every element ones but for the k top bits.
fn kept(w: Width, k: u64) -> u64
    requires { k < bits w }
    ensures { Lanes (bits w) result (λ _. 2 ^ (bits w - k) - 1) }
{
    spread_word(w, ones(w) >> k)
}

pub fn sll(w: Width, s: u64, k: u64) -> u64
    requires { k < bits w }
    ensures { Each1 (bits w) result (λ a. shifts.sll (bits w) a k) s }
{
    (s & kept(w, k)) << k
}

pub fn shr(w: Width, s: u64, k: u64) -> u64
    requires { k < bits w }
    ensures { Each1 (bits w) result (λ a. a / 2 ^ k) s }
{
    (s >> k) & kept(w, k)
}
