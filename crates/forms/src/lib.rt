// What the operation of each encoding class makes of vector registers: the operations on registers behind the enums.
// d, s and t are the old wd, ws and wt; an immediate stands in every element of t.
#![tactic(auto)]

ghost use Rattle.std.specs.Prelude.{◌≡◌, ◌+◌, ◌*◌, ◌^◌, ◌≤◌};
ghost use Rattle.isa.specs.Widths.{bits};
ghost use Rattle.memory.specs.Value.{value, register};
ghost use Rattle.forms.specs.Forms.{three_of, fixed_of, indexed_of, imm5_of, bit_of, imm8_of, count_of};
ghost use Rattle.forms.specs.Forms as forms;

use each::{each, each_arith};
use isa::{Arith, BitOp, Count, Fixed, Indexed, Logic, Three, Width};
use lanes::Lane;
use logic::logic;
use memory::Register;
use parallel_products::fixed_point::fixed as multiplied;
use permute::moves::{extend, splat};
use permute::{pack, slide, vshf};
use vectors::spread;
use vectors::words::by_three_words;

// 3R with three vector registers.
pub fn three(op: Three, w: Width, d: Register, s: Register, t: Register) -> Register
    ensures { result ≡ register (three_of op (bits w) (value d) (value s) (value t)) }
{
    match op {
        Three::Arith(o) => each_arith(o, w, d, s, t),
        Three::Bitwise(o) => each(Lane::Bit(BitOp::Bitwise(o)), w, d, s, t),
        Three::Rounding(o) => each(Lane::Bit(BitOp::Rounding(o)), w, d, s, t),
        Three::Pack(o) => pack(o, w, s, t),
        Three::Vshf => vshf(w, d, s, t),
    }
}

// 3RF, the fixed-point multiplies, in formats of which 64 bits hold the products. Word by word from here: `lane` would
// have to save machine registers for their loop, and so for every operation that it serves.
pub fn fixed(op: Fixed, w: Width, d: Register, s: Register, t: Register) -> Register
    requires { bits w ≤ 32 }
    ensures { result ≡ register (fixed_of op (bits w) (value d) (value s) (value t)) }
{
    by_three_words(d, s, t, |d, s, t| multiplied(op, w, d, s, t))
}

// `indexed` by the words of d and s. Two classes of instructions share it, so it is a function of its own in the end:
// registers would go to it through memory, words go in machine registers.
fn indexed_words(
    op: Indexed,
    w: Width,
    d_low: u64,
    d_high: u64,
    s_low: u64,
    s_high: u64,
    x: u64,
) -> Register
    ensures { result ≡ register
        (indexed_of op (bits w) (d_low + d_high * 2 ^ 64) (s_low + s_high * 2 ^ 64) x) }
{
    let d = Register {
        low: d_low,
        high: d_high,
    };
    let s = Register {
        low: s_low,
        high: s_high,
    };
    match op {
        Indexed::Sld => slide(w, d, s, x),
        Indexed::Splat => splat(w, s, x),
    }
}

// 3R with the general register x in the place of wt, and ELM with the index x there.
pub fn indexed(op: Indexed, w: Width, d: Register, s: Register, x: u64) -> Register
    ensures { result ≡ register (indexed_of op (bits w) (value d) (value s) x) }
{
    indexed_words(op, w, d.low, d.high, s.low, s.high, x)
}

// The immediate of I5, carried to 64 bits with or without its sign.
// signed is a truth value: the definitions (immediate, imm5_of) and the promise of plan::vector::imm5 take one.
fn immediate(signed: bool, imm: u8) -> u64
    ensures { result ≡ forms.immediate signed imm }
{
    let bits = (imm as u64) % 32;
    if signed {
        return extend(5, bits);
    }
    bits
}

// I5, but for LDI.
pub fn imm5(op: Arith, signed: bool, w: Width, s: Register, imm: u8) -> Register
    ensures { result ≡ register (imm5_of op signed (bits w) (value s) imm) }
{
    let t = spread(w, immediate(signed, imm));
    each(Lane::Arith(op), w, s, s, t)
}

pub fn bit(op: BitOp, w: Width, d: Register, s: Register, m: u8) -> Register
    ensures { result ≡ register (bit_of op (bits w) (value d) (value s) m) }
{
    each(Lane::Bit(op), w, d, s, spread(w, m as u64))
}

// I8, but for SHF.
pub fn imm8(op: Logic, d: Register, s: Register, imm: u8) -> Register
    ensures { result ≡ register (imm8_of op (value d) (value s) imm) }
{
    logic(op, d, s, spread(Width::B, imm as u64))
}

// 2R, but for FILL.
pub fn count(op: Count, w: Width, s: Register) -> Register
    ensures { result ≡ register (count_of op (bits w) (value s)) }
{
    each(Lane::Count(op), w, s, s, s)
}
