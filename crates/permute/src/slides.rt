// SLD: rows of bytes go down, and bytes of other rows come after them. A row is an element of 16, 32 or 64 bits, or two
// words.
ghost use Rattle.std.specs.Prelude.{◌≡◌, ◌/◌, ◌<◌};
ghost use Rattle.isa.specs.Widths.{bits};
ghost use Rattle.memory.specs.Value.{value, register};
ghost use Rattle.vectors.specs.Register.{whole};
ghost use Rattle.parallel.specs.Lanes.{Lanes};
ghost use Rattle.permute.specs.Permute.{slid_byte};

use crate::shuffle::word_of;
use element::count;
use isa::Width;
use memory::Register;
use parallel_bits::{shr, sll};

// In every element the bytes of s from k on, and those of d after them.
fn funnel(v: Width, d: u64, s: u64, k: u64) -> u64
    requires { k < bits v / 8 }
    ensures { Lanes 8 result (slid_byte (bits v / 8) k d s) }
{
    if k == 0 {
        return s;
    }
    let p = 8 * k;
    shr(v, s, p) + sll(v, d, count(v) - p)
}

// Rows of as many bytes as an element has.
pub fn rows(v: Width, d: Register, s: Register, by: u64) -> Register
    requires { by < bits v / 8 }
    ensures { result ≡ register (whole 8 (slid_byte (bits v / 8) by (value d) (value s))) }
{
    Register {
        low: funnel(v, d.low, s.low, by),
        high: funnel(v, d.high, s.high, by),
    }
}

// One row of sixteen bytes.
pub fn one_row(d: Register, s: Register, by: u64) -> Register
    requires { by < 16 }
    ensures { result ≡ register (whole 8 (slid_byte 16 by (value d) (value s))) }
{
    let q = by / 8;
    let k = by % 8;
    let middle = word_of(d, s, q + 1);
    Register {
        low: funnel(Width::D, middle, word_of(d, s, q), k),
        high: funnel(Width::D, word_of(d, s, q + 2), middle, k),
    }
}
