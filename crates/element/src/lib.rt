// One element of a vector register, a number below 2^bits: the numbers of its width, and the readings that the
// operations share. All of it, and every operation but ADDV and SUBV (crate `linear`), is over the width: written and
// proved once for the four formats.
#![tactic(auto)]

ghost use Rattle.std.specs.Prelude.{◌≡◌, ◌-◌, ◌%◌, ◌^◌, ◌<◌};
ghost use Rattle.isa.specs.Widths.{bits};
ghost use Rattle.element.specs.Value as value;
ghost use Rattle.element.specs.Value.{top};
ghost use Rattle.element.specs.Views as views;
ghost use Rattle.element.specs.Elements.{Element};

use isa::Width;

// How an element is read: as a number from 0 on, or with its top bit for the sign.
#[derive(Clone, Copy, Debug, PartialEq, Eq)]
pub enum Reading {
    Unsigned,
    Signed,
}

// The bits of an element.
pub fn count(w: Width) -> u64
    ensures { result ≡ bits w }
{
    match w {
        Width::B => 8,
        Width::H => 16,
        Width::W => 32,
        Width::D => 64,
    }
}

// The weight of bit k.
pub fn pow2(k: u64) -> u64
    requires { k < 64 }
    ensures { result ≡ 2 ^ k }
{
    1 << k
}

// The weight of the top bit.
pub fn half(w: Width) -> u64
    ensures { result ≡ top (bits w) }
{
    pow2(count(w) - 1)
}

// The largest element.
pub fn ones(w: Width) -> u64
    ensures { result ≡ 2 ^ bits w - 1 }
{
    let h = half(w);
    h - 1 + h
}

// The low bits of x.
pub fn low(w: Width, x: u64) -> u64
    ensures { result ≡ x % 2 ^ bits w }
{
    x & ones(w)
}

// x with its top bit the other way round: signed order becomes unsigned order.
pub fn flip(w: Width, x: u64) -> u64
    requires { x < 2 ^ bits w }
    ensures { Element (bits w) result (views.flip (bits w) x) }
{
    let h = half(w);
    if x < h { x + h } else { x - h }
}

// The absolute value of x taken as signed.
pub fn magnitude(w: Width, x: u64) -> u64
    requires { x < 2 ^ bits w }
    ensures { Element (bits w) result (value.magnitude (bits w) x) }
{
    if x < half(w) { x } else { ones(w) - x + 1 }
}
