// Writing an instruction as its 32-bit word, or refusal 6.
#![tactic(auto)]

mod layouts;
mod places;

ghost use Rattle.std.specs.Prelude.{◌≡◌, ◌≤◌, ◌^◌};
ghost use Rattle.writing.specs.Writing.{Shaped};
ghost use Rattle.writing.specs.Writing as writing;

use crate::layouts::*;
use isa::Instr;

// An instruction's fields, the highest first, by width and value; ok where it has its format and index. The widths are
// those of a figure, one constant for all its layouts, so they stand apart from the values. ok stands beside both: so
// each layout is one expression, and as an Option each would return early.
#[derive(Clone, Copy)]
pub struct Layout {
    pub ok: bool,
    pub widths: [u32; 7],
    pub values: [u32; 7],
}

fn layout_of(i: Instr) -> Layout
    ensures { result ≡ writing.layout_of i }
{
    match i {
        Instr::Three { op, df, wd, ws, wt } => three(op, df, wd, ws, wt),
        Instr::Indexed { op, df, wd, ws, rt } => indexed(op, df, wd, ws, rt),
        Instr::Imm5U {
            op,
            df,
            wd,
            ws,
            imm,
        } => imm5_u(op, df, wd, ws, imm),
        Instr::Imm5S {
            op,
            df,
            wd,
            ws,
            imm,
        } => imm5_s(op, df, wd, ws, imm),
        Instr::Ldi { df, wd, imm } => ldi(df, wd, imm),
        Instr::Bit { op, df, wd, ws, m } => bit(op, df, wd, ws, m),
        Instr::Imm8 { op, wd, ws, imm } => imm8(op, wd, ws, imm),
        Instr::Shf { df, wd, ws, imm } => shf(df, wd, ws, imm),
        Instr::Element { op, df, wd, ws, n } => element(op, df, wd, ws, n),
        Instr::Insve { df, wd, n, ws } => insve(df, wd, n, ws),
        Instr::Copy { op, df, rd, ws, n } => copied(op, df, rd, ws, n),
        Instr::Insert { df, wd, n, rs } => insert(df, wd, n, rs),
        Instr::Move { wd, ws } => move_v(wd, ws),
        Instr::Cfcmsa { rd, cs } => cfcmsa(rd, cs),
        Instr::Ctcmsa { cd, rs } => ctcmsa(cd, rs),
        Instr::Vec { op, wd, ws, wt } => vec(op, wd, ws, wt),
        Instr::Fill { df, wd, rs } => fill(df, wd, rs),
        Instr::Count { op, df, wd, ws } => count(op, df, wd, ws),
        Instr::Memory {
            op,
            df,
            wd,
            offset,
            rs,
        } => memory(op, df, wd, offset, rs),
        Instr::Branch { op, df, wt, offset } => branch(op, df, wt, offset),
        Instr::BranchV { op, wt, offset } => branch_v(op, wt, offset),
        Instr::Scaled { op, rd, rs, rt, sa } => scaled(op, rd, rs, rt, sa),
        Instr::Fixed { op, df, wd, ws, wt } => fixed(op, df, wd, ws, wt),
    }
}

// 2 to the n.
fn power(n: u32) -> u64
    requires { n ≤ 32 }
    ensures { result ≡ 2 ^ n }
{
    1 << n
}

// The fields put together from the lowest up.
fn packed(widths: &[u32], values: &[u32]) -> Option<u32>
    requires { Shaped widths.now values.now }
    ensures { result ≡ writing.packed widths.now values.now }
{
    let mut word: u64 = 0;
    let mut scale: u64 = 1;
    for i in (0..7).rev() {
        let size = power(widths[i]);
        let value = values[i] as u64;
        if size <= value {
            return None;
        }
        word += value * scale;
        scale *= size;
    }
    Some(word as u32)
}

fn seal(l: Layout) -> Option<u32>
    requires { Shaped l.widths l.values }
    ensures { result ≡ writing.sealed l }
{
    if l.ok {
        packed(&l.widths, &l.values)
    } else {
        None
    }
}

pub fn write_word(i: Instr) -> Option<u32>
    ensures { writing.Writes i result }
{
    seal(layout_of(i))
}
