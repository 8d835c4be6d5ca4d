// What the listing shows of an instruction: which mnemonic and format, and which operands in which order.
#![tactic(auto)]

mod classes;
mod numbers;

ghost use Rattle.std.specs.Prelude.{◌≡◌};
ghost use Rattle.shown.specs.Shown as shows;

use crate::classes::{
    cfcmsa, copy, ctcmsa, element, fill, imm5_s, indexed, insert, insve, memory, numbered,
    scaled_add, three_vectors, two_vectors, with_sign,
};
use isa::{Creg, Greg, Instr, Vreg, Width};

// A number with its sign, and no i16: the definition shows a sign and digits, and -32768 has its own digits.
#[derive(Clone, Copy, Debug, PartialEq, Eq)]
pub struct Number {
    pub minus: bool,
    pub size: u16,
}

// What stands behind the mnemonic: nothing, a data format, or .V.
#[derive(Clone, Copy, Debug, PartialEq, Eq)]
pub enum Form {
    Bare,
    Each(Width),
    Whole,
}

// One operand: $w1, $1, $1, -1, $w1[2], $w1[$2], -8($1).
// Nothing is one of them, and not an Option around them: the definitions of specs/Shown name four operands by it.
#[derive(Clone, Copy, Debug, PartialEq, Eq)]
pub enum Operand {
    Nothing,
    Vector(Vreg),
    General(Greg),
    Control(Creg),
    Number(Number),
    Element(Vreg, u8),
    Chosen(Vreg, Greg),
    Offset(Number, Greg),
}

// The place of the operation in the table, the format, and up to four operands.
#[derive(Clone, Copy, Debug, PartialEq, Eq)]
pub struct Shown {
    pub name: u16,
    pub form: Form,
    pub a: Operand,
    pub b: Operand,
    pub c: Operand,
    pub d: Operand,
}

pub fn shown_of(i: Instr) -> Shown
    ensures { result ≡ shows.shown_of i }
{
    match i {
        Instr::Three { op, df, wd, ws, wt } => three_vectors(op.0, Form::Each(df), wd, ws, wt),
        Instr::Indexed { op, df, wd, ws, rt } => indexed(op, df, wd, ws, rt),
        Instr::Imm5U {
            op,
            df,
            wd,
            ws,
            imm,
        } => numbered(op.0, Form::Each(df), wd, ws, imm as u16),
        Instr::Imm5S {
            op,
            df,
            wd,
            ws,
            imm,
        } => imm5_s(op, df, wd, ws, imm),
        Instr::Ldi { df, wd, imm } => with_sign(62, Form::Each(df), wd, 1024, imm),
        Instr::Bit { op, df, wd, ws, m } => numbered(op.0, Form::Each(df), wd, ws, m as u16),
        Instr::Imm8 { op, wd, ws, imm } => numbered(op.0, Form::Each(Width::B), wd, ws, imm as u16),
        Instr::Shf { df, wd, ws, imm } => numbered(16, Form::Each(df), wd, ws, imm as u16),
        Instr::Element { op, df, wd, ws, n } => element(op, df, wd, ws, n),
        Instr::Insve { df, wd, n, ws } => insve(df, wd, n, ws),
        Instr::Copy { op, df, rd, ws, n } => copy(op, df, rd, ws, n),
        Instr::Insert { df, wd, n, rs } => insert(df, wd, n, rs),
        Instr::Move { wd, ws } => two_vectors(338, Form::Whole, wd, ws),
        Instr::Cfcmsa { rd, cs } => cfcmsa(rd, cs),
        Instr::Ctcmsa { cd, rs } => ctcmsa(cd, rs),
        Instr::Vec { op, wd, ws, wt } => three_vectors(op.0, Form::Whole, wd, ws, wt),
        Instr::Fill { df, wd, rs } => fill(df, wd, rs),
        Instr::Count { op, df, wd, ws } => two_vectors(op.0, Form::Each(df), wd, ws),
        Instr::Memory {
            op,
            df,
            wd,
            offset,
            rs,
        } => memory(op, df, wd, offset, rs),
        Instr::Branch { op, df, wt, offset } => with_sign(op.0, Form::Each(df), wt, 65536, offset),
        Instr::BranchV { op, wt, offset } => with_sign(op.0, Form::Whole, wt, 65536, offset),
        Instr::Scaled { op, rd, rs, rt, sa } => scaled_add(op, rd, rs, rt, sa),
        Instr::Fixed { op, df, wd, ws, wt } => three_vectors(op.0, Form::Each(df), wd, ws, wt),
    }
}
