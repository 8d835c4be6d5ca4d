// Each class of words, once the place of its operation is known; f is the number of its formats (`ops::has`).
ghost use Rattle.std.specs.Prelude.{◌≡◌};
ghost use Rattle.ops.specs.declared.Class.TheVariants as class;
ghost use Rattle.ops.specs.Packed.{formats_of};
ghost use Rattle.reading.specs.Ahead.{no_instr};
ghost use Rattle.reading.specs.Reading as reading;

use crate::index::{Index, bit_index, element_index};
use crate::operands::*;
use isa::widths::width_at;
use isa::*;
use ops::has;

// A word that is no instruction: 12 or 14.
pub fn no_instr(w: u32) -> Unread
    ensures { result ≡ no_instr w }
{
    if w / 67108864 % 64 == 30 {
        return Unread::Unassigned;
    }
    Unread::Other
}

pub fn vacant(w: u32) -> Result<Instr, Unread>
    ensures { result ≡ reading.vacant w }
{
    Err(no_instr(w))
}

fn given(w: u32, ok: bool, i: Instr) -> Result<Instr, Unread>
    ensures { result ≡ reading.given w ok i }
{
    if ok { Ok(i) } else { vacant(w) }
}

pub fn three(f: u64, k: u16, w: u32) -> Result<Instr, Unread>
    ensures { result ≡ reading.read_class class.Three (formats_of f) k w }
{
    let df = df(w);
    let i = Instr::Three {
        op: Op(k),
        df,
        wd: vd(w),
        ws: vs(w),
        wt: vt(w),
    };
    given(w, has(f, df), i)
}

pub fn indexed(f: u64, k: u16, w: u32) -> Result<Instr, Unread>
    ensures { result ≡ reading.read_class class.Indexed (formats_of f) k w }
{
    let df = df(w);
    let i = Instr::Indexed {
        op: Op(k),
        df,
        wd: vd(w),
        ws: vs(w),
        rt: gt(w),
    };
    given(w, has(f, df), i)
}

pub fn imm5_u(f: u64, k: u16, w: u32) -> Result<Instr, Unread>
    ensures { result ≡ reading.read_class class.Imm5U (formats_of f) k w }
{
    let df = df(w);
    let i = Instr::Imm5U {
        op: Op(k),
        df,
        wd: vd(w),
        ws: vs(w),
        imm: imm5(w),
    };
    given(w, has(f, df), i)
}

pub fn imm5_s(f: u64, k: u16, w: u32) -> Result<Instr, Unread>
    ensures { result ≡ reading.read_class class.Imm5S (formats_of f) k w }
{
    let df = df(w);
    let i = Instr::Imm5S {
        op: Op(k),
        df,
        wd: vd(w),
        ws: vs(w),
        imm: imm5(w),
    };
    given(w, has(f, df), i)
}

pub fn ldi(f: u64, k: u16, w: u32) -> Result<Instr, Unread>
    ensures { result ≡ reading.read_class class.Ldi (formats_of f) k w }
{
    let df = df(w);
    let i = Instr::Ldi {
        df,
        wd: vd(w),
        imm: (w / 2048 % 1024) as u16,
    };
    given(w, has(f, df), i)
}

pub fn bit(f: u64, k: u16, w: u32) -> Result<Instr, Unread>
    ensures { result ≡ reading.read_class class.Bit (formats_of f) k w }
{
    let Some(Index { df, n }) = bit_index((w / 65536 % 128) as u8) else {
        return vacant(w);
    };
    let i = Instr::Bit {
        op: Op(k),
        df,
        wd: vd(w),
        ws: vs(w),
        m: n,
    };
    given(w, has(f, df), i)
}

pub fn imm_8(k: u16, w: u32) -> Result<Instr, Unread>
    ensures { result ≡ reading.read_class class.Imm8 (formats_of 0) k w }
{
    Ok(Instr::Imm8 {
        op: Op(k),
        wd: vd(w),
        ws: vs(w),
        imm: imm8(w),
    })
}

pub fn shf(f: u64, k: u16, w: u32) -> Result<Instr, Unread>
    ensures { result ≡ reading.read_class class.Shf (formats_of f) k w }
{
    let df = width_at(w / 16777216 % 4);
    let i = Instr::Shf {
        df,
        wd: vd(w),
        ws: vs(w),
        imm: imm8(w),
    };
    given(w, has(f, df), i)
}

pub fn element(f: u64, k: u16, w: u32) -> Result<Instr, Unread>
    ensures { result ≡ reading.read_class class.Element (formats_of f) k w }
{
    let Some(Index { df, n }) = element_index((w / 65536 % 64) as u8) else {
        return vacant(w);
    };
    let i = Instr::Element {
        op: Op(k),
        df,
        wd: vd(w),
        ws: vs(w),
        n,
    };
    given(w, has(f, df), i)
}

pub fn insve(f: u64, k: u16, w: u32) -> Result<Instr, Unread>
    ensures { result ≡ reading.read_class class.Insve (formats_of f) k w }
{
    let Some(Index { df, n }) = element_index((w / 65536 % 64) as u8) else {
        return vacant(w);
    };
    let i = Instr::Insve {
        df,
        wd: vd(w),
        n,
        ws: vs(w),
    };
    given(w, has(f, df), i)
}

pub fn copied(f: u64, k: u16, w: u32) -> Result<Instr, Unread>
    ensures { result ≡ reading.read_class class.Copy (formats_of f) k w }
{
    let Some(Index { df, n }) = element_index((w / 65536 % 64) as u8) else {
        return vacant(w);
    };
    let i = Instr::Copy {
        op: Op(k),
        df,
        rd: gd(w),
        ws: vs(w),
        n,
    };
    given(w, has(f, df), i)
}

pub fn insert(f: u64, k: u16, w: u32) -> Result<Instr, Unread>
    ensures { result ≡ reading.read_class class.Insert (formats_of f) k w }
{
    let Some(Index { df, n }) = element_index((w / 65536 % 64) as u8) else {
        return vacant(w);
    };
    let i = Instr::Insert {
        df,
        wd: vd(w),
        n,
        rs: gs(w),
    };
    given(w, has(f, df), i)
}

pub fn move_v(w: u32) -> Result<Instr, Unread>
    ensures { result ≡ reading.read_class class.Move (formats_of 0) 0 w }
{
    Ok(Instr::Move {
        wd: vd(w),
        ws: vs(w),
    })
}

pub fn cfcmsa(w: u32) -> Result<Instr, Unread>
    ensures { result ≡ reading.read_class class.Cfcmsa (formats_of 0) 0 w }
{
    Ok(Instr::Cfcmsa {
        rd: gd(w),
        cs: cs(w),
    })
}

pub fn ctcmsa(w: u32) -> Result<Instr, Unread>
    ensures { result ≡ reading.read_class class.Ctcmsa (formats_of 0) 0 w }
{
    Ok(Instr::Ctcmsa {
        cd: cd(w),
        rs: gs(w),
    })
}

pub fn vec(k: u16, w: u32) -> Result<Instr, Unread>
    ensures { result ≡ reading.read_class class.Vec (formats_of 0) k w }
{
    Ok(Instr::Vec {
        op: Op(k),
        wd: vd(w),
        ws: vs(w),
        wt: vt(w),
    })
}

pub fn fill(f: u64, k: u16, w: u32) -> Result<Instr, Unread>
    ensures { result ≡ reading.read_class class.Fill (formats_of f) k w }
{
    let df = width_at(w / 65536 % 4);
    let i = Instr::Fill {
        df,
        wd: vd(w),
        rs: gs(w),
    };
    given(w, has(f, df), i)
}

pub fn count(f: u64, k: u16, w: u32) -> Result<Instr, Unread>
    ensures { result ≡ reading.read_class class.Count (formats_of f) k w }
{
    let df = width_at(w / 65536 % 4);
    let i = Instr::Count {
        op: Op(k),
        df,
        wd: vd(w),
        ws: vs(w),
    };
    given(w, has(f, df), i)
}

pub fn memory(f: u64, k: u16, w: u32) -> Result<Instr, Unread>
    ensures { result ≡ reading.read_class class.Memory (formats_of f) k w }
{
    let df = width_at(w % 4);
    let i = Instr::Memory {
        op: Op(k),
        df,
        wd: vd(w),
        offset: (w / 65536 % 1024) as u16,
        rs: gs(w),
    };
    given(w, has(f, df), i)
}

pub fn branch(f: u64, k: u16, w: u32) -> Result<Instr, Unread>
    ensures { result ≡ reading.read_class class.Branch (formats_of f) k w }
{
    let df = df(w);
    let i = Instr::Branch {
        op: Op(k),
        df,
        wt: vt(w),
        offset: offset(w),
    };
    given(w, has(f, df), i)
}

pub fn branch_v(k: u16, w: u32) -> Result<Instr, Unread>
    ensures { result ≡ reading.read_class class.BranchV (formats_of 0) k w }
{
    let i = Instr::BranchV {
        op: Op(k),
        wt: vt(w),
        offset: offset(w),
    };
    given(w, w / 2097152 % 4 == 3, i)
}

pub fn scaled(k: u16, w: u32) -> Result<Instr, Unread>
    ensures { result ≡ reading.read_class class.Scaled (formats_of 0) k w }
{
    let i = Instr::Scaled {
        op: Op(k),
        rd: gs(w),
        rs: ga(w),
        rt: gt(w),
        sa: (w / 64 % 4) as u8,
    };
    given(w, w / 256 % 8 == 0, i)
}

pub fn fixed(f: u64, k: u16, w: u32) -> Result<Instr, Unread>
    ensures { result ≡ reading.read_class class.Fixed (formats_of f) k w }
{
    let df = hw(w);
    let i = Instr::Fixed {
        op: Op(k),
        df,
        wd: vd(w),
        ws: vs(w),
        wt: vt(w),
    };
    given(w, has(f, df), i)
}
