// Signed fields of a word as an entry keeps them: the numbers that they stand for, modulo 2^32.
ghost use Rattle.std.specs.Prelude.{◌≡◌, ◌^◌, ◌<◌, ◌≤◌, pos, ◌*ℤ◌};
ghost use Rattle.isa.specs.Widths.{bytes};
ghost use Rattle.element.specs.Value.{signed, wrap};

use isa::Width;
use permute::moves::extend;

// The low m bits of x, the top one of them the sign.
pub fn signed(m: u64, x: u64) -> u64
    requires { (0 < m) × (m ≤ 64) × (x < 2 ^ m) }
    ensures { (result ≡ wrap 32 (signed m x)) × (result < 2 ^ 32) }
{
    extend(m, x) % 4294967296
}

// The same, b times.
pub fn times(m: u64, x: u64, b: u64) -> u64
    requires { (0 < m) × (m ≤ 64) × (x < 2 ^ m) × (b < 2 ^ 32) }
    ensures { result ≡ wrap 32 (signed m x *ℤ pos b) }
{
    signed(m, x) * b % 4294967296
}

pub fn bytes_of(df: Width) -> u64
    ensures { (result ≡ bytes df) × (result < 9) }
{
    match df {
        Width::B => 1,
        Width::H => 2,
        Width::W => 4,
        Width::D => 8,
    }
}
