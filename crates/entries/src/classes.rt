// The classes whose entries have an offset or a form of their own: LDI, the loads and stores, the branches, LSA and
// DLSA.
ghost use Rattle.std.specs.Prelude.{◌≡◌};
ghost use Rattle.ops.specs.declared.Class.TheVariants as class;
ghost use Rattle.ops.specs.Packed.{formats_of};
ghost use Rattle.reading.specs.Reading as reading;
ghost use Rattle.entries.specs.Entry.{entry_of};

use crate::codes::*;
use crate::forms::*;
use crate::immediates::*;
use crate::packing::packed;
use isa::Op;
use isa::widths::{width_at, width_code};
use meaning::*;
use reading::operands::df;

pub fn ldi(f: u64, k: u16, w: u32) -> u64
    ensures { result ≡ entry_of (reading.read_class class.Ldi (formats_of f) k w) }
{
    let df = df(w);
    let d = (w / 64 % 32) as u64;
    let imm = signed(10, (w / 2048 % 1024) as u64);
    formed(
        f,
        w,
        df,
        packed(FILL, width_code(df) as u64, 1, d, 0, 0, imm),
    )
}

pub fn memory(f: u64, k: u16, w: u32) -> u64
    ensures { result ≡ entry_of (reading.read_class class.Memory (formats_of f) k w) }
{
    let df = width_at(w % 4);
    let imm = times(10, (w / 65536 % 1024) as u64, bytes_of(df));
    two_of(f, w, df, memory_code(memory_at(Op(k))), 0, imm)
}

pub fn branch(f: u64, k: u16, w: u32) -> u64
    ensures { result ≡ entry_of (reading.read_class class.Branch (formats_of f) k w) }
{
    let df = df(w);
    let t = (w / 65536 % 32) as u64;
    let imm = times(16, (w % 65536) as u64, 4);
    let code = zero_code(zero_at(Op(k)));
    formed(
        f,
        w,
        df,
        packed(code, width_code(df) as u64, 0, 0, 0, t, imm),
    )
}

pub fn branch_v(f: u64, k: u16, w: u32) -> u64
    ensures { result ≡ entry_of (reading.read_class class.BranchV (formats_of f) k w) }
{
    let t = (w / 65536 % 32) as u64;
    let imm = times(16, (w % 65536) as u64, 4);
    let code = 2 + zero_code(zero_at(Op(k)));
    given(w, w / 2097152 % 4 == 3, packed(code, 0, 0, 0, 0, t, imm))
}

pub fn scaled(f: u64, k: u16, w: u32) -> u64
    ensures { result ≡ entry_of (reading.read_class class.Scaled (formats_of f) k w) }
{
    let d = (w / 2048 % 32) as u64;
    let s = (w / 2097152 % 32) as u64;
    let t = (w / 65536 % 32) as u64;
    let sa = (w / 64 % 4) as u64;
    let code = scaled_code(scaled_at(Op(k)));
    given(w, w / 256 % 8 == 0, packed(code, 0, 0, d, s, t, sa))
}
