// The order of elements as numbers from 0 on.
ghost use Rattle.std.specs.Prelude.{min, max, ltb};
ghost use Rattle.isa.specs.Widths.{bits};
ghost use Rattle.vectors.specs.Register.{element};
ghost use Rattle.parallel.specs.Lanes.{Each2, Tests};

use super::{inverse, lows, picked, tops};
use isa::Width;

// Is x below y? The top bit of each element is the carry of x + (2^n - 1 - y) + 1.
pub fn compared(w: Width, x: u64, y: u64) -> u64
    ensures { Tests (bits w) result (λ i. ltb (element (bits w) x i) (element (bits w) y i)) }
{
    let n = inverse(w, y);
    let gap = (x | tops(w)) - (y & lows(w));
    (x & n) | ((x | n) & gap)
}

pub fn least(w: Width, s: u64, t: u64) -> u64
    ensures { Each2 (bits w) result min s t }
{
    picked(w, compared(w, s, t), s, t)
}

pub fn most(w: Width, s: u64, t: u64) -> u64
    ensures { Each2 (bits w) result max s t }
{
    picked(w, compared(w, s, t), t, s)
}
