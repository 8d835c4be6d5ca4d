// Averages: the sum of the halves, and a carry of the lowest bits. The two means differ in how the lowest bits meet,
// which is the whole of each.
ghost use Rattle.std.specs.Prelude.{◌+◌, ◌/◌};
ghost use Rattle.isa.specs.Widths.{bits};
ghost use Rattle.linear.specs.Sums as sums;
ghost use Rattle.parallel.specs.Lanes.{Each1, Each2};

use super::{lows, units, viewed};
use element::Reading;
use isa::Width;

fn halved(w: Width, x: u64) -> u64
    ensures { Each1 (bits w) result (λ a. a / 2) x }
{
    (x >> 1) & lows(w)
}

fn mean(w: Width, s: u64, t: u64) -> u64
    ensures { Each2 (bits w) result (λ a b. (a + b + 0) / 2) s t }
{
    halved(w, s) + halved(w, t) + ((s & t) & units(w))
}

fn mean_up(w: Width, s: u64, t: u64) -> u64
    ensures { Each2 (bits w) result (λ a b. (a + b + 1) / 2) s t }
{
    halved(w, s) + halved(w, t) + ((s | t) & units(w))
}

pub fn average(w: Width, g: Reading, s: u64, t: u64) -> u64
    ensures { Each2 (bits w) result (sums.average g (bits w) 0) s t }
{
    viewed(w, g, mean(w, viewed(w, g, s), viewed(w, g, t)))
}

pub fn average_up(w: Width, g: Reading, s: u64, t: u64) -> u64
    ensures { Each2 (bits w) result (sums.average g (bits w) 1) s t }
{
    viewed(w, g, mean_up(w, viewed(w, g, s), viewed(w, g, t)))
}
