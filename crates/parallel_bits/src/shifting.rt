// Shifts by the amounts in the elements of t, which count modulo the width. Where the elements of t are all the same,
// as those of an immediate are, one shift of the word does it; where they differ, it goes by `steps`.
ghost use Rattle.std.specs.Prelude.{◌≡◌, ℕ, ◌/◌, ◌%◌, ◌^◌, ◌<◌, IfSome};
ghost use Rattle.isa.specs.Widths.{bits};
ghost use Rattle.bits.specs.Shifts as shifts;
ghost use Rattle.vectors.specs.Register.{element};
ghost use Rattle.parallel.specs.Lanes.{Each1, Each2, Lanes};

use super::steps::{left_each, right_each};
use super::{amount, shr, sll, spread_word};
use element::{Reading, low, pow2};
use isa::Width;
use parallel::{filled, units, viewed};

// The amount that every element of t asks for, where they all ask for one.
fn common(w: Width, t: u64) -> Option<u64>
    ensures { IfSome result
        (λ k. (k < bits w) × ((i : ℕ) → i < 64 / bits w → element (bits w) t i % bits w ≡ k)) }
{
    let e = low(w, t);
    // Before the test: behind it, the width is asked for once more.
    let k = amount(w, e);
    if spread_word(w, e) == t {
        Some(k)
    } else {
        None
    }
}

pub fn left(w: Width, s: u64, t: u64) -> u64
    ensures { Each2 (bits w) result (λ a b. shifts.sll (bits w) a (b % bits w)) s t }
{
    match common(w, t) {
        Some(k) => sll(w, s, k),
        None => left_each(w, s, t),
    }
}

fn right(w: Width, s: u64, t: u64) -> u64
    ensures { Each2 (bits w) result (λ a b. a / 2 ^ (b % bits w)) s t }
{
    match common(w, t) {
        Some(k) => shr(w, s, k),
        None => right_each(w, s, t),
    }
}

// The weight of the bit that each amount counts to.
pub fn powers(w: Width, t: u64) -> u64
    ensures { Each1 (bits w) result (λ b. 2 ^ (b % bits w)) t }
{
    match common(w, t) {
        Some(k) => spread_word(w, pow2(k)),
        None => left_each(w, units(w), t),
    }
}

// A shift to the right in a reading. A negative element is shifted with its bits the other way round, so that ones come
// in at its top.
fn in_reading<F: Fn(u64) -> u64>(w: Width, g: Reading, s: u64, shift: F) -> u64
    requires { (x : ℕ) → F.pre shift x }
    ensures { (k : ℕ → ℕ) → ((i : ℕ) → k i < bits w)
        → ((x r : ℕ) → F.post shift x r → Lanes (bits w) r (λ i. element (bits w) x i / 2 ^ k i))
        → Lanes (bits w) result (λ i. shifts.shift_right g (bits w) (element (bits w) s i) (k i)) }
{
    match g {
        Reading::Unsigned => shift(s),
        Reading::Signed => {
            let m = filled(w, s);
            shift(s ^ m) ^ m
        }
    }
}

// SRL and SRA.
pub fn shift_right(w: Width, g: Reading, s: u64, t: u64) -> u64
    ensures { Each2 (bits w) result (λ a b. shifts.shift_right g (bits w) a (b % bits w)) s t }
{
    in_reading(w, g, s, |x| right(w, x, t))
}

// The last bit of every element that the shift moves out: bit k of s moved up by one, which is 0 for k = 0.
fn last_out(w: Width, s: u64, t: u64) -> u64
    ensures { Each2 (bits w) result (λ a b. shifts.last_out a (b % bits w)) s t }
{
    right(w, sll(w, s, 1), t) & units(w)
}

// SRLR and SRAR, each element by its own amount. The sum is one of views, which do not overflow.
fn rounded_each(w: Width, g: Reading, s: u64, t: u64) -> u64
    ensures { Each2 (bits w) result (λ a b. shifts.shift_rounded g (bits w) a (b % bits w)) s t }
{
    viewed(
        w,
        g,
        viewed(w, g, shift_right(w, g, s, t)) + last_out(w, s, t),
    )
}

// The same by one amount: the floor, the last bit that is moved out, and both.
fn floor(w: Width, g: Reading, s: u64, k: u64) -> u64
    requires { k < bits w }
    ensures { Each1 (bits w) result (λ a. shifts.shift_right g (bits w) a k) s }
{
    in_reading(w, g, s, |x| shr(w, x, k))
}

fn last_of(w: Width, s: u64, k: u64) -> u64
    requires { k < bits w }
    ensures { Each1 (bits w) result (λ a. shifts.last_out a k) s }
{
    (sll(w, s, 1) >> k) & units(w)
}

// `last_out` and `rounded_each` by one amount: the amount of each is what they ask for, so one of them would be less plain.
fn rounded_by(w: Width, g: Reading, s: u64, k: u64) -> u64
    requires { k < bits w }
    ensures { Each1 (bits w) result (λ a. shifts.shift_rounded g (bits w) a k) s }
{
    viewed(w, g, viewed(w, g, floor(w, g, s, k)) + last_of(w, s, k))
}

// The two readings are told apart so that the rare case is no part of this function: a function that is called in one
// place only becomes part of its caller.
pub fn shift_rounded(w: Width, g: Reading, s: u64, t: u64) -> u64
    ensures { Each2 (bits w) result (λ a b. shifts.shift_rounded g (bits w) a (b % bits w)) s t }
{
    if let Some(k) = common(w, t) {
        return rounded_by(w, g, s, k);
    }
    match g {
        Reading::Unsigned => rounded_each(w, Reading::Unsigned, s, t),
        Reading::Signed => rounded_each(w, Reading::Signed, s, t),
    }
}
