// The operation by its name.
ghost use Rattle.isa.specs.Widths.{bits};
ghost use Rattle.parallel.specs.Lanes.{Each3};
ghost use Rattle.lanes.specs.Lane.{lane_of, Fits};

use super::Lane;
use arith::arith;
use isa::Width;
use parallel_bits::dispatch::bit_word;
use parallel_counts::count_word;
use parallel_products::fixed_point::fixed;

// What op makes of the old word d of wd and the words s and t.
pub fn lane(op: Lane, w: Width, d: u64, s: u64, t: u64) -> u64
    requires { Fits op (bits w) }
    ensures { Each3 (bits w) result (lane_of op (bits w)) d s t }
{
    match op {
        Lane::Arith(o) => arith(o, w, d, s, t),
        Lane::Bit(o) => bit_word(o, w, d, s, t),
        Lane::Count(o) => count_word(o, w, s),
        Lane::Fixed(o) => fixed(o, w, d, s, t),
    }
}
