// The fixed-point multiplies, element by element: what tells the six apart is worked out before the loop.
ghost use Rattle.std.specs.Prelude.{◌≤◌};
ghost use Rattle.isa.specs.Widths.{bits};
ghost use Rattle.fixed.specs.Fixed as fixeds;
ghost use Rattle.fixed.specs.Fixed.{fixed_of};
ghost use Rattle.parallel.specs.Lanes.{Each3};

use fixed::{old, rounds, subtracts, summed};
use isa::{Fixed, Width};
use vectors::{built, in_word};

fn sums(w: Width, rounded: bool, minus: bool, d: u64, s: u64, t: u64) -> u64
    requires { bits w ≤ 32 }
    ensures { Each3 (bits w) result
        (λ a b c. fixeds.cut rounded (bits w) (fixeds.summed minus (bits w) a b c)) d s t }
{
    built(
        w,
        |w, i| summed(
            w,
            rounded,
            minus,
            in_word(w, d, i),
            in_word(w, s, i),
            in_word(w, t, i),
        ),
    )
}

// In formats of which 64 bits hold the products.
pub fn fixed(op: Fixed, w: Width, d: u64, s: u64, t: u64) -> u64
    requires { bits w ≤ 32 }
    ensures { Each3 (bits w) result (fixed_of op (bits w)) d s t }
{
    sums(w, rounds(op), subtracts(op), old(op, d), s, t)
}
