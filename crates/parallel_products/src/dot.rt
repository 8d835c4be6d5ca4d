// DOTP, DPADD and DPSUB.
ghost use Rattle.std.specs.Prelude.{◌≡◌, ◌/◌, ◌%◌, ◌^◌, ◌<◌};
ghost use Rattle.isa.specs.Widths.{bits};
ghost use Rattle.element.specs.Elements.{Elements};
ghost use Rattle.element.specs.Value.{value, wrap};
ghost use Rattle.element.specs.Views.{bias};
ghost use Rattle.products.specs.Halves as halves;
ghost use Rattle.products.specs.Products as products;
ghost use Rattle.parallel.specs.Lanes.{Each2, Each3};

use element::{Reading, count, low, pow2};
use isa::Width;
use parallel::wrapping::{addv, subv};
use vectors::{built, in_word};

// The weight of the sign bit of a half, or 0.
fn sign(w: Width, g: Reading) -> u64
    ensures { result ≡ bias g (bits w / 2) }
{
    match g {
        Reading::Unsigned => 0,
        Reading::Signed => pow2(count(w) / 2 - 1),
    }
}

// A half as a number, modulo 2^64.
fn extended(w: Width, g: Reading, x: u64) -> u64
    requires { x < 2 ^ (bits w / 2) }
    ensures { result % 2 ^ bits w ≡ wrap (bits w) (value g (bits w / 2) x) }
{
    let h = sign(w, g);
    (x ^ h).wrapping_sub(h)
}

// The product of two halves, modulo 2^64.
fn times(w: Width, g: Reading, x: u64, y: u64) -> u64
    requires { (x < 2 ^ (bits w / 2)) × (y < 2 ^ (bits w / 2)) }
    ensures { result % 2 ^ bits w ≡ products.mulv (bits w) (wrap (bits w) (value g (bits w / 2) x))
        (wrap (bits w) (value g (bits w / 2) y)) }
{
    extended(w, g, x).wrapping_mul(extended(w, g, y))
}

// The sum of the products of the two halves of an element.
fn both(w: Width, g: Reading, x: u64, y: u64) -> u64
    requires { Elements (bits w) x y }
    ensures { result ≡ halves.dotp g (bits w) x y }
{
    let k = count(w) / 2;
    let half = pow2(k) - 1;
    low(
        w,
        times(w, g, x >> k, y >> k).wrapping_add(times(w, g, x & half, y & half)),
    )
}

fn sums(w: Width, g: Reading, s: u64, t: u64) -> u64
    ensures { Each2 (bits w) result (halves.dotp g (bits w)) s t }
{
    built(w, |w, i| both(w, g, in_word(w, s, i), in_word(w, t, i)))
}

// The reading is a literal at each call, as the width is at each loop.
pub fn dotp(w: Width, g: Reading, s: u64, t: u64) -> u64
    ensures { Each2 (bits w) result (halves.dotp g (bits w)) s t }
{
    match g {
        Reading::Unsigned => sums(w, Reading::Unsigned, s, t),
        Reading::Signed => sums(w, Reading::Signed, s, t),
    }
}

pub fn dpadd(w: Width, g: Reading, d: u64, s: u64, t: u64) -> u64
    ensures { Each3 (bits w) result (halves.dpadd g (bits w)) d s t }
{
    addv(w, d, dotp(w, g, s, t))
}

pub fn dpsub(w: Width, g: Reading, d: u64, s: u64, t: u64) -> u64
    ensures { Each3 (bits w) result (halves.dpsub g (bits w)) d s t }
{
    subv(w, d, dotp(w, g, s, t))
}
