// MULV, MADDV and MSUBV. A lane of the last two is the product and the wrapping sum or difference at its width.
ghost use Rattle.isa.specs.Widths.{bits};
ghost use Rattle.products.specs.Products as products;
ghost use Rattle.parallel.specs.Lanes.{Each2, Each3};

use isa::Width;
use products::product;
use vectors::{built, in_word};

pub fn mulv(w: Width, s: u64, t: u64) -> u64
    ensures { Each2 (bits w) result (products.mulv (bits w)) s t }
{
    built(
        w,
        |w, i| product::mulv(w, in_word(w, s, i), in_word(w, t, i)),
    )
}

pub fn maddv(w: Width, d: u64, s: u64, t: u64) -> u64
    ensures { Each3 (bits w) result (products.maddv (bits w)) d s t }
{
    built(
        w,
        |w, i| product::maddv(w, in_word(w, d, i), in_word(w, s, i), in_word(w, t, i)),
    )
}

pub fn msubv(w: Width, d: u64, s: u64, t: u64) -> u64
    ensures { Each3 (bits w) result (products.msubv (bits w)) d s t }
{
    built(
        w,
        |w, i| product::msubv(w, in_word(w, d, i), in_word(w, s, i), in_word(w, t, i)),
    )
}
