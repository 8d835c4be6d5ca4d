// Every element of a register by one operation. All operations with a data format stand behind the one contract of
// `each`, and a register goes word by word, since no element of any format crosses its two words.
#![tactic(auto)]

ghost use Rattle.std.specs.Prelude.{◌≡◌};
ghost use Rattle.isa.specs.Widths.{bits};
ghost use Rattle.lanes.specs.declared.Lane.TheVariants as lane;
ghost use Rattle.lanes.specs.Lane.{Fits};
ghost use Rattle.memory.specs.Value.{value, register};
ghost use Rattle.each.specs.Lanes.{each_lane};

use isa::{Arith, Width};
use lanes::Lane;
use lanes::dispatch::lane;
use memory::Register;
use parallel::dispatch::{absolute, addition, basic, compare, subtraction};
use parallel_halves::across;
use parallel_products::dispatch::{dot, product};
use vectors::words::{by_three_words, by_words};

// d is the old destination; an immediate form has the immediate in every element of t.
pub fn each(op: Lane, w: Width, d: Register, s: Register, t: Register) -> Register
    requires { Fits op (bits w) }
    ensures { result ≡ register (each_lane op (bits w) (value d) (value s) (value t)) }
{
    by_three_words(d, s, t, |d, s, t| lane(op, w, d, s, t))
}

// The operations of 3R by Table 4.1 and 4.8, which kernels use most: the row of the operation is found once for both
// words. `each` finds it for each, and has the same answer.
pub fn each_arith(op: Arith, w: Width, d: Register, s: Register, t: Register) -> Register
    ensures { result ≡ register (each_lane (lane.Arith op) (bits w) (value d) (value s) (value t)) }
{
    match op {
        Arith::Basic(o) => by_words(s, t, |s, t| basic(o, w, s, t)),
        Arith::Absolute(o) => by_words(s, t, |s, t| absolute(o, w, s, t)),
        Arith::Compare(o) => by_words(s, t, |s, t| compare(o, w, s, t)),
        Arith::Addition(o) => by_words(s, t, |s, t| addition(o, w, s, t)),
        Arith::Subtraction(o) => by_words(s, t, |s, t| subtraction(o, w, s, t)),
        Arith::Product(o) => by_three_words(d, s, t, |d, s, t| product(o, w, d, s, t)),
        Arith::Dot(o) => by_three_words(d, s, t, |d, s, t| dot(o, w, d, s, t)),
        Arith::Across(o) => by_words(s, t, |s, t| across(o, w, s, t)),
    }
}
