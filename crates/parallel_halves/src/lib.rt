// HADD and HSUB on all elements of a word at once. A half has room for the carry above it; the halves of signed
// elements are taken as unsigned numbers in their order, and the sum or difference is turned at the full width after.
#![tactic(auto)]

ghost use Rattle.std.specs.Prelude.{◌≡◌, ℕ, ◌+◌, ◌-◌, ◌/◌, ◌^◌, ◌<◌};
ghost use Rattle.isa.specs.Widths.{bits};
ghost use Rattle.element.specs.Elements.{Elements};
ghost use Rattle.element.specs.Value.{top};
ghost use Rattle.element.specs.Views as views;
ghost use Rattle.products.specs.Halves as halves;
ghost use Rattle.products.specs.Operations.{across_of};
ghost use Rattle.vectors.specs.Register.{element};
ghost use Rattle.parallel.specs.Lanes.{Each1, Each2, Lanes};

use element::{Reading, count};
use isa::{Across, Width};
use parallel::{flipped, tops};

// The bits of half an element.
fn part(w: Width) -> u64
    ensures { result ≡ bits w / 2 }
{
    count(w) / 2
}

// Ones in the low half of every element.
fn lower(w: Width) -> u64
    ensures { Lanes (bits w) result (λ _. 2 ^ (bits w / 2) - 1) }
{
    match w {
        Width::B => 0x0F0F_0F0F_0F0F_0F0F,
        Width::H => 0x00FF_00FF_00FF_00FF,
        Width::W => 0x0000_FFFF_0000_FFFF,
        Width::D => 0x0000_0000_FFFF_FFFF,
    }
}

fn high_half(w: Width, x: u64) -> u64
    ensures { Each1 (bits w) result (halves.odd (bits w)) x }
{
    (x >> part(w)) & lower(w)
}

fn low_half(w: Width, x: u64) -> u64
    ensures { Each1 (bits w) result (halves.even (bits w)) x }
{
    x & lower(w)
}

// The top bit of the low half of every element.
fn middle(w: Width) -> u64
    ensures { Lanes (bits w) result (λ _. top (bits w / 2)) }
{
    match w {
        Width::B => 0x0808_0808_0808_0808,
        Width::H => 0x0080_0080_0080_0080,
        Width::W => 0x0000_8000_0000_8000,
        Width::D => 0x0000_0000_8000_0000,
    }
}

// Every half with its top bit the other way round: as an unsigned number in signed order.
fn turned(w: Width, x: u64) -> u64
    requires { (i : ℕ) → i < 64 / bits w → element (bits w) x i < 2 ^ (bits w / 2) }
    ensures { Each1 (bits w) result (views.flip (bits w / 2)) x }
{
    x ^ middle(w)
}

// What a sum of two halves so turned is short of the sum of the halves, turned at the full width.
fn short(w: Width) -> u64
    ensures { Lanes (bits w) result (λ _. top (bits w) - 2 ^ (bits w / 2)) }
{
    match w {
        Width::B => 0x7070_7070_7070_7070,
        Width::H => 0x7F00_7F00_7F00_7F00,
        Width::W => 0x7FFF_0000_7FFF_0000,
        Width::D => 0x7FFF_FFFF_0000_0000,
    }
}

// The sum and the difference go by different turns of the halves, so neither is the other with a sign.
pub fn hadd(w: Width, g: Reading, s: u64, t: u64) -> u64
    ensures { Each2 (bits w) result (halves.hadd g (bits w)) s t }
{
    match g {
        Reading::Unsigned => high_half(w, s) + low_half(w, t),
        Reading::Signed => flipped(
            w,
            turned(w, high_half(w, s)) + turned(w, low_half(w, t)) + short(w),
        ),
    }
}

// The difference of halves.
fn apart(w: Width, x: u64, y: u64) -> u64
    requires { (i : ℕ) → i < 64 / bits w → Elements (bits w / 2) (element (bits w) x i) (element (bits w) y i) }
    ensures { Each2 (bits w) result (λ a b. views.flip (bits w) (a + top (bits w) - b)) x y }
{
    flipped(w, x + tops(w) - y)
}

pub fn hsub(w: Width, g: Reading, s: u64, t: u64) -> u64
    ensures { Each2 (bits w) result (halves.hsub g (bits w)) s t }
{
    match g {
        Reading::Unsigned => apart(w, high_half(w, s), low_half(w, t)),
        Reading::Signed => apart(w, turned(w, high_half(w, s)), turned(w, low_half(w, t))),
    }
}

pub fn across(op: Across, w: Width, s: u64, t: u64) -> u64
    ensures { Each2 (bits w) result (across_of op (bits w)) s t }
{
    match op {
        Across::HaddS => hadd(w, Reading::Signed, s, t),
        Across::HaddU => hadd(w, Reading::Unsigned, s, t),
        Across::HsubS => hsub(w, Reading::Signed, s, t),
        Across::HsubU => hsub(w, Reading::Unsigned, s, t),
    }
}
