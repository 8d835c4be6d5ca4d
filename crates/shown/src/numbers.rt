// The numbers that operands show: fields with their sign, offsets in bytes.
ghost use Rattle.std.specs.Prelude.{◌≡◌, ◌<◌, ◌≤◌};
ghost use Rattle.shown.specs.Shown as shows;

use crate::{Number, Operand};
use isa::Width;

pub fn number(minus: bool, size: u16) -> Number
    ensures { result ≡ shows.number minus size }
{
    Number { minus, size }
}

pub fn plain(x: u16) -> Operand
    ensures { result ≡ shows.plain x }
{
    Operand::Number(Number {
        minus: false,
        size: x,
    })
}

pub fn signed(full: u32, x: u16) -> Number
    requires { (1 < full) × (full ≤ 65536) }
    ensures { (result ≡ shows.signed full x) × (result.size < full) }
{
    let low = u32::from(x) % full;
    if low < full / 2 {
        return number(false, low as u16);
    }
    number(true, (full - low) as u16)
}

pub fn scaled(df: Width, n: Number) -> Number
    requires { n.size < 1024 }
    ensures { result ≡ shows.scaled df n }
{
    match df {
        Width::B => number(n.minus, n.size),
        Width::H => number(n.minus, n.size * 2),
        Width::W => number(n.minus, n.size * 4),
        Width::D => number(n.minus, n.size * 8),
    }
}
