// Table 4.1 but SAT, and the compares of Table 4.8, on all elements of a word.
#![tactic(auto)]

ghost use Rattle.isa.specs.Widths.{bits};
ghost use Rattle.parallel.specs.Lanes.{Each3};
ghost use Rattle.arith.specs.Arith.{arith_of};

use isa::{Arith, Width};
use parallel::dispatch::{absolute, addition, basic, compare, subtraction};
use parallel_halves::across;
use parallel_products::dispatch::{dot, product};

// What op makes of the old word d of wd and the words s and t.
pub fn arith(op: Arith, w: Width, d: u64, s: u64, t: u64) -> u64
    ensures { Each3 (bits w) result (arith_of op (bits w)) d s t }
{
    match op {
        Arith::Basic(o) => basic(o, w, s, t),
        Arith::Absolute(o) => absolute(o, w, s, t),
        Arith::Compare(o) => compare(o, w, s, t),
        Arith::Addition(o) => addition(o, w, s, t),
        Arith::Subtraction(o) => subtraction(o, w, s, t),
        Arith::Product(o) => product(o, w, d, s, t),
        Arith::Dot(o) => dot(o, w, d, s, t),
        Arith::Across(o) => across(o, w, s, t),
    }
}
