// Every operation by its name, on all elements of a word.
ghost use Rattle.isa.specs.Widths.{bits};
ghost use Rattle.products.specs.Operations.{product_of, dot_of};
ghost use Rattle.parallel.specs.Lanes.{Each3};

use super::{division, dot, product};
use element::Reading;
use isa::{Dot, Product, Width};

pub fn product(op: Product, w: Width, d: u64, s: u64, t: u64) -> u64
    ensures { Each3 (bits w) result (product_of op (bits w)) d s t }
{
    match op {
        Product::Mulv => product::mulv(w, s, t),
        Product::Maddv => product::maddv(w, d, s, t),
        Product::Msubv => product::msubv(w, d, s, t),
        Product::DivS => division::quotients(w, Reading::Signed, s, t),
        Product::DivU => division::quotients(w, Reading::Unsigned, s, t),
        Product::ModS => division::remainders(w, Reading::Signed, s, t),
        Product::ModU => division::remainders(w, Reading::Unsigned, s, t),
    }
}

pub fn dot(op: Dot, w: Width, d: u64, s: u64, t: u64) -> u64
    ensures { Each3 (bits w) result (dot_of op (bits w)) d s t }
{
    match op {
        Dot::DotpS => dot::dotp(w, Reading::Signed, s, t),
        Dot::DotpU => dot::dotp(w, Reading::Unsigned, s, t),
        Dot::DpaddS => dot::dpadd(w, Reading::Signed, d, s, t),
        Dot::DpaddU => dot::dpadd(w, Reading::Unsigned, d, s, t),
        Dot::DpsubS => dot::dpsub(w, Reading::Signed, d, s, t),
        Dot::DpsubU => dot::dpsub(w, Reading::Unsigned, d, s, t),
    }
}
