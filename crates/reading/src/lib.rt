// Reading a 32-bit word as one instruction, or as 12, 13 or 14: the place of its operation in the table, and the
// operands that the class there has. `ahead` says of a word only what may stop it.
#![tactic(auto)]

pub mod ahead;
pub mod classes;
pub mod index;
pub mod operands;
pub mod place;

ghost use Rattle.std.specs.Prelude.{◌≡◌};
ghost use Rattle.ops.specs.Packed.{formats_of};
ghost use Rattle.reading.specs.Reading as reading;

use crate::classes::*;
use crate::place::place_of;
use isa::{Instr, Unread};
use ops::{Class, byte_at, class_of};

// By the class and by the number of the formats at the place k (ops/specs/Packed.antt).
fn read_class(c: Class, f: u64, k: u16, w: u32) -> Result<Instr, Unread>
    ensures { result ≡ reading.read_class c (formats_of f) k w }
{
    match c {
        Class::Three => three(f, k, w),
        Class::Indexed => indexed(f, k, w),
        Class::Imm5U => imm5_u(f, k, w),
        Class::Imm5S => imm5_s(f, k, w),
        Class::Ldi => ldi(f, k, w),
        Class::Bit => bit(f, k, w),
        Class::Imm8 => imm_8(k, w),
        Class::Shf => shf(f, k, w),
        Class::Element => element(f, k, w),
        Class::Insve => insve(f, k, w),
        Class::Copy => copied(f, k, w),
        Class::Insert => insert(f, k, w),
        Class::Move => move_v(w),
        Class::Cfcmsa => cfcmsa(w),
        Class::Ctcmsa => ctcmsa(w),
        Class::Vec => vec(k, w),
        Class::Fill => fill(f, k, w),
        Class::Count => count(f, k, w),
        Class::Memory => memory(f, k, w),
        Class::Branch => branch(f, k, w),
        Class::BranchV => branch_v(k, w),
        Class::Scaled => scaled(k, w),
        Class::LeftOut => Err(Unread::LeftOut),
        Class::Fixed => fixed(f, k, w),
        Class::Reserved => vacant(w),
    }
}

pub fn read_word(w: u32) -> Result<Instr, Unread>
    ensures { reading.Reads w result }
{
    let k = place_of(w);
    // A word of no table. Answered here, it leaves no constant place for the look-up, which then is one load.
    if k == 512 {
        return vacant(w);
    }
    let byte = byte_at(k as u32);
    read_class(class_of(byte % 32), byte / 32, k, w)
}
