// DIV and MOD, element by element.
ghost use Rattle.isa.specs.Widths.{bits};
ghost use Rattle.products.specs.Products as products;
ghost use Rattle.parallel.specs.Lanes.{Each2};

use element::Reading;
use isa::Width;
use products::division;
use vectors::{built, in_word};

pub fn quotients(w: Width, g: Reading, s: u64, t: u64) -> u64
    ensures { Each2 (bits w) result (products.quotient g (bits w)) s t }
{
    built(
        w,
        |w, i| division::quotient(w, g, in_word(w, s, i), in_word(w, t, i)),
    )
}

pub fn remainders(w: Width, g: Reading, s: u64, t: u64) -> u64
    ensures { Each2 (bits w) result (products.remainder g (bits w)) s t }
{
    built(
        w,
        |w, i| division::remainder(w, g, in_word(w, s, i), in_word(w, t, i)),
    )
}
