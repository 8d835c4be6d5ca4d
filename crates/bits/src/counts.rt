// Counts of bits.
ghost use Rattle.std.specs.Prelude.{◌≡◌, ◌^◌, ◌<◌};
ghost use Rattle.std.specs.Int.Count as count;
ghost use Rattle.std.specs.Int.Count.{count_leading_zeros};
ghost use Rattle.isa.specs.Widths.{bits};

use element::count;
use isa::Width;

pub fn pcnt(s: u64) -> u64
    ensures { result ≡ count.ones s }
{
    s.count_ones() as u64
}

// The zeros above the highest set bit of an element.
pub fn nlzc(w: Width, s: u64) -> u64
    requires { s < 2 ^ bits w }
    ensures { result ≡ count_leading_zeros (bits w) s }
{
    s.leading_zeros() as u64 + count(w) - 64
}
