// The entry of a word, made from the word itself: a class's operands go straight to their places in the entry, and no
// instruction is made on the way.
ghost use Rattle.std.specs.Prelude.{◌≡◌};
ghost use Rattle.ops.specs.Packed.{formats_of};
ghost use Rattle.reading.specs.Reading.{read_of};
ghost use Rattle.reading.specs.Reading as reading;
ghost use Rattle.entries.specs.Entry.{entry_of};

use crate::classes::*;
use crate::codes::*;
use crate::forms::*;
use crate::immediates::signed;
use isa::widths::width_at;
use isa::{Op, Unread, Width};
use meaning::*;
use ops::{Class, byte_at, class_of};
use reading::index::bit_index;
use reading::operands::{df, hw, imm5, imm8};
use reading::place::place_of;

// By the class and by the number of the formats at the place k, as `read_class` of crate `reading`.
fn class_entry(c: Class, f: u64, k: u16, w: u32) -> u64
    ensures { result ≡ entry_of (reading.read_class c (formats_of f) k w) }
{
    match c {
        Class::Three => three_of(f, w, df(w), three_code(k)),
        Class::Indexed => three_of(f, w, df(w), indexed_code(indexed_at(Op(k)))),
        Class::Imm5U => two_of(f, w, df(w), arith_code(imm5_at(Op(k))), 1, imm5(w) as u64),
        Class::Imm5S => two_of(
            f,
            w,
            df(w),
            arith_code(imm5_at(Op(k))),
            1,
            signed(5, imm5(w) as u64),
        ),
        Class::Ldi => ldi(f, k, w),
        Class::Bit => indexed(
            f,
            w,
            bit_index((w / 65536 % 128) as u8),
            bit_code(bit_at(Op(k))),
            1,
        ),
        Class::Imm8 => two(w, Width::B, logic_code(logic_at(Op(k))), 1, imm8(w) as u64),
        Class::Shf => two_of(f, w, width_at(w / 16777216 % 4), SHF, 1, imm8(w) as u64),
        Class::Element => element(f, w, indexed_code(indexed_at(Op(k))), 1),
        Class::Insve => element(f, w, INSERT, 1),
        Class::Copy => element(f, w, copied_code(copied_at(Op(k))), 1),
        Class::Insert => element(f, w, INSERT, 0),
        Class::Move => two(w, Width::B, MOVE, 0, 0),
        Class::Cfcmsa => two(w, Width::B, CFCMSA, 0, 0),
        Class::Ctcmsa => two(w, Width::B, CTCMSA, 0, 0),
        Class::Vec => three(w, Width::B, logic_code(logic_at(Op(k)))),
        Class::Fill => two_of(f, w, width_at(w / 65536 % 4), FILL, 0, 0),
        Class::Count => two_of(
            f,
            w,
            width_at(w / 65536 % 4),
            count_code(count_at(Op(k))),
            0,
            0,
        ),
        Class::Memory => memory(f, k, w),
        Class::Branch => branch(f, k, w),
        Class::BranchV => branch_v(f, k, w),
        Class::Scaled => scaled(f, k, w),
        Class::LeftOut => unread(Unread::LeftOut),
        Class::Fixed => three_of(f, w, hw(w), fixed_code(fixed_at(Op(k)))),
        Class::Reserved => vacant(w),
    }
}

pub fn entry_of(w: u32) -> u64
    ensures { result ≡ entry_of (read_of w) }
{
    let k = place_of(w);
    // A word of no table, answered here as in `read_word`: the look-up then is one load.
    if k == 512 {
        return vacant(w);
    }
    let byte = byte_at(k as u32);
    class_entry(class_of(byte % 32), byte / 32, k, w)
}
