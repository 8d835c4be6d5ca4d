// Single bits, fields and narrower ranges, by the word of the powers of two that the amounts in t stand for.
ghost use Rattle.std.specs.Prelude.{◌+◌, ◌-◌, ◌%◌, ◌^◌};
ghost use Rattle.std.specs.Int.Bits.{bit_and};
ghost use Rattle.isa.specs.Widths.{bits};
ghost use Rattle.element.specs.declared.Reading.TheVariants.{Signed, Unsigned};
ghost use Rattle.bits.specs.Places as places;
ghost use Rattle.parallel.specs.Lanes.{Each1, Each2, Each3};

use super::shifting::powers;
use isa::Width;
use parallel::order::{least, most};
use parallel::{flipped, inverse, tops, units};

pub fn bclr(w: Width, s: u64, t: u64) -> u64
    ensures { Each2 (bits w) result (λ a b. places.with_bit a (b % bits w) 0) s t }
{
    s - (s & powers(w, t))
}

pub fn bset(w: Width, s: u64, t: u64) -> u64
    ensures { Each2 (bits w) result (λ a b. places.with_bit a (b % bits w) 1) s t }
{
    s | powers(w, t)
}

pub fn bneg(w: Width, s: u64, t: u64) -> u64
    ensures { Each2 (bits w) result
        (λ a b. places.with_bit a (b % bits w) (1 - places.bit_at a (b % bits w))) s t }
{
    s ^ powers(w, t)
}

// The bits of d where m has ones, and those of s where it has zeros.
fn over(w: Width, d: u64, s: u64, m: u64) -> u64
    ensures { Each3 (bits w) result (λ a b c. b - bit_and b c + bit_and a c) d s m }
{
    (s - (s & m)) + (d & m)
}

// Ones in the low k + 1 bits.
fn up_to(w: Width, t: u64) -> u64
    ensures { Each1 (bits w) result (λ b. 2 ^ (b % bits w) - 1 + 2 ^ (b % bits w)) t }
{
    let p = powers(w, t);
    let below = p - units(w);
    below + p
}

pub fn binsl(w: Width, d: u64, s: u64, t: u64) -> u64
    ensures { Each3 (bits w) result (λ a b c. places.binsl (bits w) a b (c % bits w)) d s t }
{
    let p = powers(w, inverse(w, t));
    let below = p - units(w);
    over(w, d, s, below)
}

pub fn binsr(w: Width, d: u64, s: u64, t: u64) -> u64
    ensures { Each3 (bits w) result (λ a b c. places.binsr (bits w) a b (c % bits w)) d s t }
{
    over(w, s, d, up_to(w, t))
}

pub fn sat_u(w: Width, s: u64, t: u64) -> u64
    ensures { Each2 (bits w) result (λ a b. places.sat_to Unsigned (bits w) a (b % bits w)) s t }
{
    least(w, s, up_to(w, t))
}

pub fn sat_s(w: Width, s: u64, t: u64) -> u64
    ensures { Each2 (bits w) result (λ a b. places.sat_to Signed (bits w) a (b % bits w)) s t }
{
    let h = tops(w);
    let p = powers(w, t);
    let low = h - p;
    let below = p - units(w);
    let high = h + below;
    flipped(w, most(w, low, least(w, flipped(w, s), high)))
}
