// MAX and MIN, and the compares: the order of elements in a reading.
ghost use Rattle.std.specs.Prelude.{eqb};
ghost use Rattle.std.specs.Int.Signed.{lt_z, le_z};
ghost use Rattle.isa.specs.Widths.{bits};
ghost use Rattle.element.specs.Value.{value};
ghost use Rattle.linear.specs.Order as order;
ghost use Rattle.vectors.specs.Register.{element};
ghost use Rattle.parallel.specs.Lanes.{Each2, Tests};

use super::order::compared;
use super::{filled, inverse, picked, viewed};
use element::Reading;
use isa::Width;

// Is s below t in a reading?
pub fn below(w: Width, g: Reading, s: u64, t: u64) -> u64
    ensures { Tests (bits w) result
        (λ i. lt_z (value g (bits w) (element (bits w) s i)) (value g (bits w) (element (bits w) t i))) }
{
    compared(w, viewed(w, g, s), viewed(w, g, t))
}

pub fn larger(w: Width, g: Reading, s: u64, t: u64) -> u64
    ensures { Each2 (bits w) result (order.larger (value g (bits w))) s t }
{
    picked(w, below(w, g, t, s), s, t)
}

pub fn smaller(w: Width, g: Reading, s: u64, t: u64) -> u64
    ensures { Each2 (bits w) result (order.smaller (value g (bits w))) s t }
{
    picked(w, below(w, g, s, t), s, t)
}

pub fn less(w: Width, g: Reading, s: u64, t: u64) -> u64
    ensures { Each2 (bits w) result
        (λ a b. order.mask (bits w) (lt_z (value g (bits w) a) (value g (bits w) b))) s t }
{
    inverse(w, filled(w, below(w, g, s, t)))
}

pub fn not_more(w: Width, g: Reading, s: u64, t: u64) -> u64
    ensures { Each2 (bits w) result
        (λ a b. order.mask (bits w) (le_z (value g (bits w) a) (value g (bits w) b))) s t }
{
    filled(w, below(w, g, t, s))
}

pub fn equal(w: Width, s: u64, t: u64) -> u64
    ensures { Each2 (bits w) result (λ a b. order.mask (bits w) (eqb a b)) s t }
{
    filled(w, compared(w, 0, s ^ t))
}
