// INSERT and INSVE: one element of a word anew.
ghost use Rattle.std.specs.Prelude.{◌/◌, ◌<◌};
ghost use Rattle.isa.specs.Widths.{bits};
ghost use Rattle.parallel.specs.Lanes.{Lanes};
ghost use Rattle.permute.specs.Permute.{with_element};

use element::{count, low};
use isa::Width;
use vectors::in_word;

// A word with x, cut to the width, for element i.
pub fn put(w: Width, d: u64, i: u64, x: u64) -> u64
    requires { i < 64 / bits w }
    ensures { Lanes (bits w) result (with_element i x (bits w) d) }
{
    let p = count(w) * i;
    let old = in_word(w, d, i) << p;
    (d - old) + (low(w, x) << p)
}
