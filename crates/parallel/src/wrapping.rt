// Sums and differences that wrap at the element's width. In formats of several elements a word the bits below the top
// bits have room for their carry, and the top bits are turned after; a word of one element is the lane of `linear`.
ghost use Rattle.isa.specs.Widths.{bits};
ghost use Rattle.linear.specs.Sums as sums;
ghost use Rattle.parallel.specs.Lanes.{Each2};

use super::{inverse, lows, tops};
use isa::Width;
use linear::wrapping;

pub fn sum(w: Width, s: u64, t: u64) -> u64
    ensures { Each2 (bits w) result (sums.addv (bits w)) s t }
{
    let m = lows(w);
    ((s & m) + (t & m)) ^ ((s ^ t) & tops(w))
}

pub fn difference(w: Width, s: u64, t: u64) -> u64
    ensures { Each2 (bits w) result (sums.subv (bits w)) s t }
{
    let h = tops(w);
    ((s | h) - (t & lows(w))) ^ ((s ^ inverse(w, t)) & h)
}

pub fn addv(w: Width, s: u64, t: u64) -> u64
    ensures { Each2 (bits w) result (sums.addv (bits w)) s t }
{
    match w {
        Width::D => wrapping::addv(w, s, t),
        _ => sum(w, s, t),
    }
}

pub fn subv(w: Width, s: u64, t: u64) -> u64
    ensures { Each2 (bits w) result (sums.subv (bits w)) s t }
{
    match w {
        Width::D => wrapping::subv(w, s, t),
        _ => difference(w, s, t),
    }
}
