// The layout of each class, Figures 3-36 to 3-47, and the page of LSA. The operation's place goes into the word as it
// is.
ghost use Rattle.std.specs.Prelude.{◌≡◌, eqb};
ghost use Rattle.fields.specs.Fields.{both};
ghost use Rattle.ops.specs.Packed.{class_code};
ghost use Rattle.ops.specs.Table.{class_at, has_form};
ghost use Rattle.writing.specs.Writing as writing;

use crate::Layout;
use crate::places::{bit_code, bit_size, element_code, element_count};
use isa::widths::{hw_code, width_code};
use isa::*;
use ops::{Class, has_form, stands};

// The widths of the fields.
const I8: [u32; 7] = [6, 2, 8, 5, 5, 6, 0];

const I5: [u32; 7] = [6, 3, 2, 5, 5, 5, 6];

const I10: [u32; 7] = [6, 3, 2, 10, 5, 6, 0];

const BIT: [u32; 7] = [6, 3, 7, 5, 5, 6, 0];

const ELM: [u32; 7] = [6, 4, 6, 5, 5, 6, 0];

const VEC: [u32; 7] = [6, 5, 5, 5, 5, 6, 0];

const FLOAT: [u32; 7] = [6, 4, 1, 5, 5, 5, 6];

const TWO: [u32; 7] = [6, 5, 3, 2, 5, 5, 6];

const MI10: [u32; 7] = [6, 10, 5, 5, 4, 2, 0];

const BRANCH: [u32; 7] = [6, 3, 2, 5, 16, 0, 0];

const SPECIAL: [u32; 7] = [6, 5, 5, 5, 3, 2, 6];

// Whether an operation is one of a class, and has a format.
fn of_class(op: Op, class: Class) -> bool
    ensures { result ≡ eqb (class_code (class_at op.0)) (class_code class) }
{
    stands(op.0 as u32, class.into())
}

fn formed(op: Op, class: Class, df: Width) -> bool
    ensures { result ≡ both (eqb (class_code (class_at op.0)) (class_code class)) (has_form op.0 df) }
{
    of_class(op, class) & has_form(op.0 as u32, df)
}

fn five(ok: bool, op: Op, df: Width, t: u8, s: u8, d: u8) -> Layout
    ensures { result ≡ writing.five_layout ok op df t s d }
{
    let k = op.0 as u32;
    Layout {
        ok,
        widths: I5,
        values: [
            30,
            k % 8,
            width_code(df),
            t as u32,
            s as u32,
            d as u32,
            k / 8,
        ],
    }
}

fn eight(ok: bool, column: u32, imm: u8, s: u8, d: u8, m: u32) -> Layout
    ensures { result ≡ writing.eight_layout ok column imm s d m }
{
    Layout {
        ok,
        widths: I8,
        values: [30, column, imm as u32, s as u32, d as u32, m, 0],
    }
}

fn elm(ok: bool, n: u32, index: u32, s: u8, d: u8) -> Layout
    ensures { result ≡ writing.elm_layout ok n index s d }
{
    Layout {
        ok,
        widths: ELM,
        values: [30, n, index, s as u32, d as u32, 25, 0],
    }
}

fn two(ok: bool, n: u32, df: Width, s: u8, d: u8) -> Layout
    ensures { result ≡ writing.two_layout ok n df s d }
{
    Layout {
        ok,
        widths: TWO,
        values: [30, 24, n, width_code(df), s as u32, d as u32, 30],
    }
}

fn jump(ok: bool, op: Op, df: u32, t: u8, offset: u16) -> Layout
    ensures { result ≡ writing.branch_layout ok op df t offset }
{
    let k = op.0 as u32;
    Layout {
        ok,
        widths: BRANCH,
        values: [17, k % 8, df, t as u32, offset as u32, 0, 0],
    }
}

pub fn three(op: Op, df: Width, wd: Vreg, ws: Vreg, wt: Vreg) -> Layout
    ensures { result ≡ writing.layout_of (Instr.Three op df wd ws wt) }
{
    five(formed(op, Class::Three, df), op, df, wt.0, ws.0, wd.0)
}

pub fn indexed(op: Op, df: Width, wd: Vreg, ws: Vreg, rt: Greg) -> Layout
    ensures { result ≡ writing.layout_of (Instr.Indexed op df wd ws rt) }
{
    five(formed(op, Class::Indexed, df), op, df, rt.0, ws.0, wd.0)
}

pub fn imm5_u(op: Op, df: Width, wd: Vreg, ws: Vreg, imm: u8) -> Layout
    ensures { result ≡ writing.layout_of (Instr.Imm5U op df wd ws imm) }
{
    five(formed(op, Class::Imm5U, df), op, df, imm, ws.0, wd.0)
}

pub fn imm5_s(op: Op, df: Width, wd: Vreg, ws: Vreg, imm: u8) -> Layout
    ensures { result ≡ writing.layout_of (Instr.Imm5S op df wd ws imm) }
{
    five(formed(op, Class::Imm5S, df), op, df, imm, ws.0, wd.0)
}

pub fn ldi(df: Width, wd: Vreg, imm: u16) -> Layout
    ensures { result ≡ writing.layout_of (Instr.Ldi df wd imm) }
{
    Layout {
        ok: has_form(62, df),
        widths: I10,
        values: [30, 6, width_code(df), imm as u32, wd.0 as u32, 7, 0],
    }
}

pub fn bit(op: Op, df: Width, wd: Vreg, ws: Vreg, m: u8) -> Layout
    ensures { result ≡ writing.layout_of (Instr.Bit op df wd ws m) }
{
    let k = op.0 as u32;
    Layout {
        ok: formed(op, Class::Bit, df) & (m < bit_size(df)),
        widths: BIT,
        values: [
            30,
            k % 8,
            bit_code(df, m),
            ws.0 as u32,
            wd.0 as u32,
            k / 8,
            0,
        ],
    }
}

pub fn imm8(op: Op, wd: Vreg, ws: Vreg, imm: u8) -> Layout
    ensures { result ≡ writing.layout_of (Instr.Imm8 op wd ws imm) }
{
    let k = op.0 as u32;
    eight(of_class(op, Class::Imm8), k % 8, imm, ws.0, wd.0, k / 8)
}

pub fn shf(df: Width, wd: Vreg, ws: Vreg, imm: u8) -> Layout
    ensures { result ≡ writing.layout_of (Instr.Shf df wd ws imm) }
{
    eight(has_form(16, df), width_code(df), imm, ws.0, wd.0, 2)
}

pub fn element(op: Op, df: Width, wd: Vreg, ws: Vreg, n: u8) -> Layout
    ensures { result ≡ writing.layout_of (Instr.Element op df wd ws n) }
{
    let ok = formed(op, Class::Element, df) & (n < element_count(df));
    elm(ok, op.0 as u32 % 16, element_code(df, n), ws.0, wd.0)
}

pub fn insve(df: Width, wd: Vreg, n: u8, ws: Vreg) -> Layout
    ensures { result ≡ writing.layout_of (Instr.Insve df wd n ws) }
{
    let ok = has_form(325, df) & (n < element_count(df));
    elm(ok, 5, element_code(df, n), ws.0, wd.0)
}

pub fn copied(op: Op, df: Width, rd: Greg, ws: Vreg, n: u8) -> Layout
    ensures { result ≡ writing.layout_of (Instr.Copy op df rd ws n) }
{
    let ok = formed(op, Class::Copy, df) & (n < element_count(df));
    elm(ok, op.0 as u32 % 16, element_code(df, n), ws.0, rd.0)
}

pub fn insert(df: Width, wd: Vreg, n: u8, rs: Greg) -> Layout
    ensures { result ≡ writing.layout_of (Instr.Insert df wd n rs) }
{
    let ok = has_form(324, df) & (n < element_count(df));
    elm(ok, 4, element_code(df, n), rs.0, wd.0)
}

pub fn move_v(wd: Vreg, ws: Vreg) -> Layout
    ensures { result ≡ writing.layout_of (Instr.Move wd ws) }
{
    elm(true, 2, 62, ws.0, wd.0)
}

pub fn cfcmsa(rd: Greg, cs: Creg) -> Layout
    ensures { result ≡ writing.layout_of (Instr.Cfcmsa rd cs) }
{
    elm(true, 1, 62, cs.0, rd.0)
}

pub fn ctcmsa(cd: Creg, rs: Greg) -> Layout
    ensures { result ≡ writing.layout_of (Instr.Ctcmsa cd rs) }
{
    elm(true, 0, 62, rs.0, cd.0)
}

pub fn vec(op: Op, wd: Vreg, ws: Vreg, wt: Vreg) -> Layout
    ensures { result ≡ writing.layout_of (Instr.Vec op wd ws wt) }
{
    let k = op.0 as u32;
    Layout {
        ok: of_class(op, Class::Vec),
        widths: VEC,
        values: [30, k % 32, wt.0 as u32, ws.0 as u32, wd.0 as u32, 30, 0],
    }
}

pub fn fill(df: Width, wd: Vreg, rs: Greg) -> Layout
    ensures { result ≡ writing.layout_of (Instr.Fill df wd rs) }
{
    two(has_form(432, df), 0, df, rs.0, wd.0)
}

pub fn count(op: Op, df: Width, wd: Vreg, ws: Vreg) -> Layout
    ensures { result ≡ writing.layout_of (Instr.Count op df wd ws) }
{
    two(
        formed(op, Class::Count, df),
        op.0 as u32 % 8,
        df,
        ws.0,
        wd.0,
    )
}

pub fn memory(op: Op, df: Width, wd: Vreg, offset: u16, rs: Greg) -> Layout
    ensures { result ≡ writing.layout_of (Instr.Memory op df wd offset rs) }
{
    let k = op.0 as u32;
    Layout {
        ok: formed(op, Class::Memory, df),
        widths: MI10,
        values: [
            30,
            offset as u32,
            rs.0 as u32,
            wd.0 as u32,
            k / 32,
            width_code(df),
            0,
        ],
    }
}

pub fn branch(op: Op, df: Width, wt: Vreg, offset: u16) -> Layout
    ensures { result ≡ writing.layout_of (Instr.Branch op df wt offset) }
{
    jump(
        formed(op, Class::Branch, df),
        op,
        width_code(df),
        wt.0,
        offset,
    )
}

pub fn branch_v(op: Op, wt: Vreg, offset: u16) -> Layout
    ensures { result ≡ writing.layout_of (Instr.BranchV op wt offset) }
{
    jump(of_class(op, Class::BranchV), op, 3, wt.0, offset)
}

pub fn scaled(op: Op, rd: Greg, rs: Greg, rt: Greg, sa: u8) -> Layout
    ensures { result ≡ writing.layout_of (Instr.Scaled op rd rs rt sa) }
{
    let k = op.0 as u32;
    Layout {
        ok: of_class(op, Class::Scaled),
        widths: SPECIAL,
        values: [
            0,
            rs.0 as u32,
            rt.0 as u32,
            rd.0 as u32,
            0,
            sa as u32,
            k % 64,
        ],
    }
}

pub fn fixed(op: Op, df: Width, wd: Vreg, ws: Vreg, wt: Vreg) -> Layout
    ensures { result ≡ writing.layout_of (Instr.Fixed op df wd ws wt) }
{
    let k = op.0 as u32;
    Layout {
        ok: formed(op, Class::Fixed, df),
        widths: FLOAT,
        values: [
            30,
            k % 16,
            hw_code(df),
            wt.0 as u32,
            ws.0 as u32,
            wd.0 as u32,
            28,
        ],
    }
}
