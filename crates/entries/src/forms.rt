// The forms that the entries of several classes have: which registers of the word stand in them, and what is 0. A class
// that has no format gives B, whose code is 0. f is the number of its formats (`ops::has`).
ghost use Rattle.std.specs.Prelude.{◌≡◌, cond, if◌then◌else◌, Err};
ghost use Rattle.fields.specs.Fields.{bits, both};
ghost use Rattle.isa.specs.Widths.{width_code};
ghost use Rattle.ops.specs.Formats as formats;
ghost use Rattle.ops.specs.Packed.{formats_of};
ghost use Rattle.reading.specs.Index as index;
ghost use Rattle.reading.specs.Index.{element_index};
ghost use Rattle.reading.specs.Reading as reading;
ghost use Rattle.entries.specs.Entry.{entry_of};
ghost use Rattle.entries.specs.Entry as entry;

use crate::codes::unread_code;
use crate::packing::packed;
use isa::widths::width_code;
use isa::{Unread, Width};
use ops::has;
use reading::classes::no_instr;
use reading::index::{Index, element_index};

// A word that is not read.
pub fn unread(u: Unread) -> u64
    ensures { result ≡ entry_of (Err u) }
{
    packed(unread_code(u), 0, 0, 0, 0, 0, 0)
}

pub fn vacant(w: u32) -> u64
    ensures { result ≡ entry_of (reading.vacant w) }
{
    unread(no_instr(w))
}

// e of a word that reads; else that it is no instruction.
pub fn given(w: u32, ok: bool, e: u64) -> u64
    ensures { result ≡ (if ok then e else entry_of (reading.vacant w)) }
{
    if ok { e } else { vacant(w) }
}

// The same by whether the format df is one of the class's, f.
pub fn formed(f: u64, w: u32, df: Width, e: u64) -> u64
    ensures { result ≡ (if formats.has (formats_of f) df then e else entry_of (reading.vacant w)) }
{
    given(w, has(f, df), e)
}

// The registers in bits 10..6, 15..11 and 20..16.
pub fn three(w: u32, df: Width, code: u64) -> u64
    ensures { result ≡ entry.packed code (width_code df) 0 (bits w 10 6) (bits w 15 11) (bits w 20 16) 0 }
{
    let d = (w / 64 % 32) as u64;
    let s = (w / 2048 % 32) as u64;
    let t = (w / 65536 % 32) as u64;
    packed(code, width_code(df) as u64, 0, d, s, t, 0)
}

// The registers in bits 10..6 and 15..11, with an immediate; the flag is 1 where it is the last operand.
pub fn two(w: u32, df: Width, code: u64, flag: u64, imm: u64) -> u64
    ensures { result ≡ entry.packed code (width_code df) flag (bits w 10 6) (bits w 15 11) 0 imm }
{
    let d = (w / 64 % 32) as u64;
    let s = (w / 2048 % 32) as u64;
    packed(code, width_code(df) as u64, flag, d, s, 0, imm)
}

// The same two, where the format is one of the class's.
pub fn three_of(f: u64, w: u32, df: Width, code: u64) -> u64
    ensures { result ≡ cond (formats.has (formats_of f) df)
        (entry.packed code (width_code df) 0 (bits w 10 6) (bits w 15 11) (bits w 20 16) 0)
        (entry_of (reading.vacant w)) }
{
    formed(f, w, df, three(w, df, code))
}

pub fn two_of(f: u64, w: u32, df: Width, code: u64, flag: u64, imm: u64) -> u64
    ensures { result ≡ cond (formats.has (formats_of f) df)
        (entry.packed code (width_code df) flag (bits w 10 6) (bits w 15 11) 0 imm)
        (entry_of (reading.vacant w)) }
{
    formed(f, w, df, two(w, df, code, flag, imm))
}

// Two registers, and the index that stands with the format: any, and that of ELM.
pub fn indexed(f: u64, w: u32, x: Option<Index>, code: u64, flag: u64) -> u64
    ensures { (r : index.Index) → x ≡ index.told r
        → result ≡ cond (both r.ok (formats.has (formats_of f) r.df))
        (entry.packed code (width_code r.df) flag (bits w 10 6) (bits w 15 11) 0 r.n)
        (entry_of (reading.vacant w)) }
{
    let Some(Index { df, n }) = x else {
        return vacant(w);
    };
    two_of(f, w, df, code, flag, n as u64)
}

pub fn element(f: u64, w: u32, code: u64, flag: u64) -> u64
    ensures { let x = element_index (bits w 21 16) in
        result ≡ cond (both x.ok (formats.has (formats_of f) x.df))
        (entry.packed code (width_code x.df) flag (bits w 10 6) (bits w 15 11) 0 x.n)
        (entry_of (reading.vacant w)) }
{
    indexed(f, w, element_index((w / 65536 % 64) as u8), code, flag)
}
