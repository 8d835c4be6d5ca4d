// What a word says of stops, for the call that tells how the next step would end. `read_word` says more; it is large,
// and has one caller, the step, which it is compiled into.
ghost use Rattle.std.specs.Prelude.{◌≡◌, cond, ◌<◌};
ghost use Rattle.fields.specs.Fields.{bits, both};
ghost use Rattle.ops.specs.declared.Class.TheVariants as class;
ghost use Rattle.ops.specs.Formats as formats;
ghost use Rattle.ops.specs.Packed.{formats_of};
ghost use Rattle.reading.specs.Ahead.{ahead_of};
ghost use Rattle.reading.specs.Index as index;
ghost use Rattle.reading.specs.Index.{element_index};
ghost use Rattle.reading.specs.Reading as reading;

use crate::classes::no_instr;
use crate::index::*;
use crate::operands::*;
use crate::place::{msa_place, other_place};
use isa::widths::width_at;
use isa::{Creg, Greg, Op, Unread, Width};
use ops::{Class, byte_beside, class_of, has};

#[derive(Clone, Copy)]
pub enum Ahead {
    // 12, 13 or 14
    Not(Unread),
    // LSA, DLSA: nothing stops them
    Free,
    // 15 or 16 may
    Branch,
    // 16 may
    Vector,
    // CTCMSA: 16 or 19 may
    Control(Creg, Greg),
    // LD, ST: 16, 17 or 18 may
    Memory(Op, Width, u16, Greg),
}

// a of a word that reads; else that it is no instruction.
fn told(w: u32, ok: bool, a: Ahead) -> Ahead
    ensures { result ≡ cond ok a (ahead_of (reading.vacant w)) }
{
    if ok { a } else { Ahead::Not(no_instr(w)) }
}

// Whether the word's format is one of the class's, f.
fn has_df(f: u64, w: u32) -> bool
    ensures { result ≡ formats.has (formats_of f) (reading.df w) }
{
    has(f, df(w))
}

// The same of a format with an index in it.
fn has_index(f: u64, x: Option<Index>) -> bool
    ensures { (r : index.Index) → x ≡ index.told r → result ≡ both r.ok (formats.has (formats_of f) r.df) }
{
    match x {
        Some(x) => has(f, x.df),
        None => false,
    }
}

fn has_element(f: u64, w: u32) -> bool
    ensures { let x = element_index (bits w 21 16) in result ≡ both x.ok (formats.has (formats_of f) x.df) }
{
    has_index(f, element_index((w / 65536 % 64) as u8))
}

fn memory_ahead(f: u64, k: u16, w: u32) -> Ahead
    ensures { result ≡ ahead_of (reading.read_class class.Memory (formats_of f) k w) }
{
    let df = width_at(w % 4);
    told(
        w,
        has(f, df),
        Ahead::Memory(Op(k), df, (w / 65536 % 1024) as u16, gs(w)),
    )
}

// By the class and by the number of the formats at the place k, as `read_class`.
fn class_ahead(c: Class, f: u64, k: u16, w: u32) -> Ahead
    ensures { result ≡ ahead_of (reading.read_class c (formats_of f) k w) }
{
    match c {
        Class::Three | Class::Indexed | Class::Imm5U | Class::Imm5S | Class::Ldi => told(
            w,
            has_df(f, w),
            Ahead::Vector,
        ),
        Class::Bit => told(
            w,
            has_index(f, bit_index((w / 65536 % 128) as u8)),
            Ahead::Vector,
        ),
        Class::Shf => told(w, has(f, width_at(w / 16777216 % 4)), Ahead::Vector),
        Class::Element | Class::Insve | Class::Copy | Class::Insert => told(
            w,
            has_element(f, w),
            Ahead::Vector,
        ),
        Class::Imm8 | Class::Move | Class::Cfcmsa | Class::Vec => Ahead::Vector,
        Class::Ctcmsa => Ahead::Control(cd(w), gs(w)),
        Class::Fill | Class::Count => told(w, has(f, width_at(w / 65536 % 4)), Ahead::Vector),
        Class::Memory => memory_ahead(f, k, w),
        Class::Branch => told(w, has_df(f, w), Ahead::Branch),
        Class::BranchV => told(w, w / 2097152 % 4 == 3, Ahead::Branch),
        Class::Scaled => told(w, w / 256 % 8 == 0, Ahead::Free),
        Class::Fixed => told(w, has(f, hw(w)), Ahead::Vector),
        Class::LeftOut => Ahead::Not(Unread::LeftOut),
        Class::Reserved => Ahead::Not(no_instr(w)),
    }
}

// `place_of` for a second caller, by its two parts: it is compiled into its own.
fn place(w: u32) -> u32
    ensures { (result ≡ reading.place_of w) × (result < 513) }
{
    if w / 67108864 % 64 == 30 {
        msa_place(w)
    } else {
        other_place(w)
    }
}

pub fn ahead_of(w: u32) -> Ahead
    ensures { result ≡ ahead_of (reading.read_of w) }
{
    let k = place(w);
    let byte = byte_beside(k);
    class_ahead(class_of(byte % 32), byte / 32, k as u16, w)
}
