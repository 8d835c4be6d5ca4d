// One element at a width: the fixed-point multiplies of Table 4.7. All six are one product and one sum of views, over
// the width, the rounding, the sign of the product and the old element. In formats up to W these have at most 64 bits.
// The sum has one caller, and what tells the six apart is worked out before it: so the compiler keeps it in one piece.
#![tactic(auto)]

ghost use Rattle.std.specs.Prelude.{◌≡◌, ◌^◌, ◌<◌, ◌≤◌};
ghost use Rattle.isa.specs.Widths.{bits};
ghost use Rattle.element.specs.Elements.{Elements};
ghost use Rattle.fixed.specs.Fixed as fixeds;
ghost use Rattle.fixed.specs.Parts as parts;

use element::{flip, half, ones};
use isa::{Fixed, Width};
use linear::clip::clip;

// The view of t, or of -t: 2^(n - 1) more than the number.
fn factor(w: Width, minus: bool, t: u64) -> u64
    requires { (t < 2 ^ bits w) × (bits w ≤ 32) }
    ensures { result ≡ parts.factor minus (bits w) t }
{
    let v = flip(w, t);
    if minus { ones(w) - v + 1 } else { v }
}

// What rounding adds.
fn rounding(w: Width, rounded: bool) -> u64
    ensures { result ≡ fixeds.rounding rounded (bits w) }
{
    if rounded { half(w) / 2 } else { 0 }
}

// d with the product of s and t added, or subtracted. With one for 2^(n - 1), the product of the views s + one and
// t + one is that of s and t, and one times s + t + one more: this is taken off after the cut. At the product's scale d
// is a multiple of one, so it is added after the cut too.
pub fn summed(w: Width, rounded: bool, minus: bool, d: u64, s: u64, t: u64) -> u64
    requires { (d < 2 ^ bits w) × Elements (bits w) s t × (bits w ≤ 32) }
    ensures { result ≡ fixeds.cut rounded (bits w) (fixeds.summed minus (bits w) d s t) }
{
    let a = flip(w, s);
    let b = factor(w, minus, t);
    let one = half(w);
    let q = (a * b + rounding(w, rounded)) / one;
    flip(w, clip(w, flip(w, d), q + one, a + b))
}

// Whether op rounds.
pub fn rounds(op: Fixed) -> bool
    ensures { result ≡ parts.rounds op }
{
    matches!(op, Fixed::MulrQ | Fixed::MaddrQ | Fixed::MsubrQ)
}

// Whether op subtracts the product.
pub fn subtracts(op: Fixed) -> bool
    ensures { result ≡ parts.subtracts op }
{
    matches!(op, Fixed::MsubQ | Fixed::MsubrQ)
}

// The old element: none for a product alone.
pub fn old(op: Fixed, d: u64) -> u64
    ensures { result ≡ parts.old op d }
{
    match op {
        Fixed::MulQ | Fixed::MulrQ => 0,
        _ => d,
    }
}
