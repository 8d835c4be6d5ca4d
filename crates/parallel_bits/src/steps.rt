// Shifts of each element by an amount of its own. Bytes go in steps: step j shifts by 2^j the elements whose amount has
// bit j, and the amounts count modulo 8. Of wider elements a word has few, which go one by one.
ghost use Rattle.std.specs.Prelude.{cond, ℕ, ◌*◌, ◌/◌, ◌%◌, ◌^◌, ◌<◌, eqb};
ghost use Rattle.isa.specs.Widths.{bits};
ghost use Rattle.bits.specs.Places.{bit_at};
ghost use Rattle.bits.specs.Shifts as shifts;
ghost use Rattle.parallel_bits.specs.Shift.{Shift};
ghost use Rattle.parallel.specs.Lanes.{Each1, Each2, Each3};

use super::{amount, shr, sll};
use element::{low, ones};
use isa::Width;
use parallel::{inverse, units};
use vectors::{built, in_word};

// The elements of clear where bit j of t's element is clear, and those of set where it is set.
fn by_bit(w: Width, j: u64, t: u64, clear: u64, set: u64) -> u64
    requires { j < bits w }
    ensures { Each3 (bits w) result (λ b x y. cond (eqb (bit_at b j) 0) x y) t clear set }
{
    let m = ((t >> j) & units(w)) * ones(w);
    (set & m) | (clear & inverse(w, m))
}

// Every element by its amount modulo 8, in steps of a shift of all elements by one amount.
fn mod_8<F: Fn(u64, u64) -> u64>(w: Width, s: u64, t: u64, shift: F) -> u64
    requires { (x k : ℕ) → k < bits w → F.pre shift x k }
    ensures { (act : ℕ → ℕ → ℕ) → Shift w act
        → ((x k r : ℕ) → k < bits w → F.post shift x k r → Each1 (bits w) r (λ a. act a k) x)
        → Each2 (bits w) result (λ a b. act a (b % 8)) s t }
{
    let one = by_bit(w, 0, t, s, shift(s, 1));
    let two = by_bit(w, 1, t, one, shift(one, 2));
    by_bit(w, 2, t, two, shift(two, 4))
}

pub fn left_each(w: Width, s: u64, t: u64) -> u64
    ensures { Each2 (bits w) result (λ a b. shifts.sll (bits w) a (b % bits w)) s t }
{
    match w {
        Width::B => mod_8(w, s, t, |x, k| sll(w, x, k)),
        _ => built(
            w,
            |w, i| low(w, in_word(w, s, i) << amount(w, in_word(w, t, i))),
        ),
    }
}

pub fn right_each(w: Width, s: u64, t: u64) -> u64
    ensures { Each2 (bits w) result (λ a b. a / 2 ^ (b % bits w)) s t }
{
    match w {
        Width::B => mod_8(w, s, t, |x, k| shr(w, x, k)),
        _ => built(w, |w, i| in_word(w, s, i) >> amount(w, in_word(w, t, i))),
    }
}
