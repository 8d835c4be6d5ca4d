// Every operation by its name. The amounts are the elements of t modulo the width.
ghost use Rattle.std.specs.Prelude.{◌%◌};
ghost use Rattle.isa.specs.Widths.{bits};
ghost use Rattle.bits.specs.Bits.{bitwise_of, rounding_of, saturate_of, bit_op_of};
ghost use Rattle.parallel.specs.Lanes.{Each2, Each3};

use super::places::{bclr, binsl, binsr, bneg, bset, sat_s, sat_u};
use super::shifting::{left, shift_right, shift_rounded};
use element::Reading;
use isa::{BitOp, Bitwise, Rounding, Saturate, Width};

fn bitwise(op: Bitwise, w: Width, d: u64, s: u64, t: u64) -> u64
    ensures { Each3 (bits w) result (λ a b c. bitwise_of op (bits w) a b (c % bits w)) d s t }
{
    match op {
        Bitwise::Sll => left(w, s, t),
        Bitwise::Sra => shift_right(w, Reading::Signed, s, t),
        Bitwise::Srl => shift_right(w, Reading::Unsigned, s, t),
        Bitwise::Bclr => bclr(w, s, t),
        Bitwise::Bset => bset(w, s, t),
        Bitwise::Bneg => bneg(w, s, t),
        Bitwise::Binsl => binsl(w, d, s, t),
        Bitwise::Binsr => binsr(w, d, s, t),
    }
}

fn rounding(op: Rounding, w: Width, s: u64, t: u64) -> u64
    ensures { Each2 (bits w) result (λ a b. rounding_of op (bits w) a (b % bits w)) s t }
{
    match op {
        Rounding::Srar => shift_rounded(w, Reading::Signed, s, t),
        Rounding::Srlr => shift_rounded(w, Reading::Unsigned, s, t),
    }
}

fn saturate(op: Saturate, w: Width, s: u64, t: u64) -> u64
    ensures { Each2 (bits w) result (λ a b. saturate_of op (bits w) a (b % bits w)) s t }
{
    match op {
        Saturate::SatS => sat_s(w, s, t),
        Saturate::SatU => sat_u(w, s, t),
    }
}

// d is the old destination, of which BINSL and BINSR keep a part.
pub fn bit_word(op: BitOp, w: Width, d: u64, s: u64, t: u64) -> u64
    ensures { Each3 (bits w) result (bit_op_of op (bits w)) d s t }
{
    match op {
        BitOp::Bitwise(o) => bitwise(o, w, d, s, t),
        BitOp::Saturate(o) => saturate(o, w, s, t),
        BitOp::Rounding(o) => rounding(o, w, s, t),
    }
}
