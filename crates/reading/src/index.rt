// A format with an index in it, Tables 3.13 and 3.14; none for a pattern that is assigned to nothing.
ghost use Rattle.std.specs.Prelude.{◌≡◌};
ghost use Rattle.reading.specs.Index as index;

use isa::Width;

#[derive(Clone, Copy, Debug, PartialEq, Eq)]
pub struct Index {
    pub df: Width,
    pub n: u8,
}

// The size patterns from base on are those of df; rest says what the others are.
fn range(df: Width, base: u8, size: u8, x: u8, rest: Option<Index>) -> Option<Index>
    ensures { (r : index.Index) → rest ≡ index.told r → result ≡ index.told (index.range df base size x r) }
{
    if x < base {
        return rest;
    }
    let n = x - base;
    if n < size {
        return Some(Index { df, n });
    }
    rest
}

pub fn bit_index(x: u8) -> Option<Index>
    ensures { result ≡ index.told (index.bit_index x) }
{
    let b = range(Width::B, 112, 8, x, None);
    let h = range(Width::H, 96, 16, x, b);
    let w = range(Width::W, 64, 32, x, h);
    range(Width::D, 0, 64, x, w)
}

pub fn element_index(x: u8) -> Option<Index>
    ensures { result ≡ index.told (index.element_index x) }
{
    let d = range(Width::D, 56, 2, x, None);
    let w = range(Width::W, 48, 4, x, d);
    let h = range(Width::H, 32, 8, x, w);
    range(Width::B, 0, 16, x, h)
}
