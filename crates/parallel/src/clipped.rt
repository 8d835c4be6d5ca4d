// Sums and differences that are held to a range, distances, and what goes by absolute values.
ghost use Rattle.std.specs.Prelude.{◌+◌, ◌-◌, ◌/◌};
ghost use Rattle.isa.specs.Widths.{bits};
ghost use Rattle.element.specs.declared.Reading.TheVariants.{Unsigned, Signed};
ghost use Rattle.element.specs.Value as value;
ghost use Rattle.element.specs.Value.{top};
ghost use Rattle.linear.specs.Sums as sums;
ghost use Rattle.linear.specs.Order as order;
ghost use Rattle.parallel.specs.Lanes.{Each1, Each2};

use super::order::{compared, least};
use super::wrapping::{addv, subv};
use super::{filled, flipped, inverse, lows, picked, signs, tops, viewed};
use element::Reading;
use isa::Width;
use linear::wrapping;

pub fn adds_u(w: Width, s: u64, t: u64) -> u64
    ensures { Each2 (bits w) result (sums.adds Unsigned (bits w)) s t }
{
    s + least(w, t, inverse(w, s))
}

pub fn subs_u(w: Width, s: u64, t: u64) -> u64
    ensures { Each2 (bits w) result (sums.subs Unsigned (bits w)) s t }
{
    s - least(w, s, t)
}

// The end of the signed range that s has the sign of.
fn limit(w: Width, s: u64) -> u64
    ensures { Each1 (bits w) result (λ a. a / top (bits w) + (top (bits w) - 1)) s }
{
    signs(w, s) + lows(w)
}

// A sum has left the range where its sign is neither operand's.
pub fn adds_s(w: Width, s: u64, t: u64) -> u64
    ensures { Each2 (bits w) result (sums.adds Signed (bits w)) s t }
{
    let r = addv(w, s, t);
    picked(w, (s ^ r) & (t ^ r), r, limit(w, s))
}

// A difference has left the range where the operands' signs differ and its own is not the first one's.
pub fn subs_s(w: Width, s: u64, t: u64) -> u64
    ensures { Each2 (bits w) result (sums.subs Signed (bits w)) s t }
{
    let r = subv(w, s, t);
    picked(w, (s ^ t) & (s ^ r), r, limit(w, s))
}

pub fn asub(w: Width, g: Reading, s: u64, t: u64) -> u64
    ensures { Each2 (bits w) result (sums.asub g (bits w)) s t }
{
    let u = viewed(w, g, s);
    let v = viewed(w, g, t);
    let m = least(w, u, v);
    (u - m) + (v - m)
}

// The absolute value of every element taken as signed.
pub fn magnitude(w: Width, x: u64) -> u64
    ensures { Each1 (bits w) result (value.magnitude (bits w)) x }
{
    (x ^ filled(w, x)) + signs(w, x)
}

fn sum_a(w: Width, s: u64, t: u64) -> u64
    ensures { Each2 (bits w) result (sums.add_a (bits w)) s t }
{
    addv(w, magnitude(w, s), magnitude(w, t))
}

pub fn add_a(w: Width, s: u64, t: u64) -> u64
    ensures { Each2 (bits w) result (sums.add_a (bits w)) s t }
{
    match w {
        Width::D => wrapping::add_a(w, s, t),
        _ => sum_a(w, s, t),
    }
}

pub fn max_a(w: Width, s: u64, t: u64) -> u64
    ensures { Each2 (bits w) result (order.larger (order.absolute (bits w))) s t }
{
    picked(w, compared(w, magnitude(w, t), magnitude(w, s)), s, t)
}

pub fn min_a(w: Width, s: u64, t: u64) -> u64
    ensures { Each2 (bits w) result (order.smaller (order.absolute (bits w))) s t }
{
    picked(w, compared(w, magnitude(w, s), magnitude(w, t)), s, t)
}

// The absolute values, and their sum, held to the largest signed number.
pub fn adds_a(w: Width, s: u64, t: u64) -> u64
    ensures { Each2 (bits w) result (sums.adds_a (bits w)) s t }
{
    let m = lows(w);
    let a = least(w, magnitude(w, s), m);
    let room = m - a;
    a + least(w, magnitude(w, t), room)
}

// A positive t is taken off, the size of a negative one is added.
pub fn subsus_u(w: Width, s: u64, t: u64) -> u64
    ensures { Each2 (bits w) result (sums.subsus_u (bits w)) s t }
{
    picked(w, t, subs_u(w, s, t), adds_u(w, s, magnitude(w, t)))
}

// s + 2^(n - 1) - t, held to the elements, with its top bit turned.
pub fn subsuu_s(w: Width, s: u64, t: u64) -> u64
    ensures { Each2 (bits w) result (sums.subsuu_s (bits w)) s t }
{
    let h = tops(w);
    let m = least(w, t, h);
    let down = t - m;
    let up = h - m;
    flipped(w, adds_u(w, subs_u(w, s, down), up))
}
