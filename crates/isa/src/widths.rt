// The data formats as the two bits of Table 3.10, and H and W as the one bit of Table 3.11. Functions, and no From: one
// type has two codings.
ghost use Rattle.std.specs.Prelude.{◌≡◌, ◌<◌};
ghost use Rattle.isa.specs.Widths as format;

use crate::Width;

pub fn width_code(df: Width) -> u32
    ensures { (result ≡ format.width_code df) × (result < 4) }
{
    match df {
        Width::B => 0,
        Width::H => 1,
        Width::W => 2,
        Width::D => 3,
    }
}

pub fn width_at(k: u32) -> Width
    ensures { result ≡ format.width_at k }
{
    match k {
        0 => Width::B,
        1 => Width::H,
        2 => Width::W,
        _ => Width::D,
    }
}

pub fn hw_code(df: Width) -> u32
    ensures { result ≡ format.hw_code df }
{
    match df {
        Width::B => 2,
        Width::H => 0,
        Width::W => 1,
        Width::D => 2,
    }
}

pub fn hw_at(k: u32) -> Width
    ensures { result ≡ format.hw_at k }
{
    match k {
        0 => Width::H,
        _ => Width::W,
    }
}
