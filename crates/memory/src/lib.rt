// Bytes at a place of lent memory, and the little-endian numbers that they spell: four bytes a program word, eight a
// general register,
// sixteen a vector register. A register of 128 bits goes by value, in two words.
#![tactic(auto)]

pub mod file;

ghost use Rattle.std.specs.Prelude.{◌≡◌, ◌+◌, ◌<◌, ◌≤◌, length};
ghost use Rattle.memory.specs.Bytes.{part, replaced, number, bytes_of};
ghost use Rattle.memory.specs.Value.{value, Holds};

// Bits 0 to 63, and 64 to 127.
#[derive(Clone, Copy)]
pub struct Register {
    pub low: u64,
    pub high: u64,
}

// The N bytes from at.
fn bytes_at<const N: usize>(s: &[u8], at: usize) -> [u8; N]
    requires { at + N ≤ length s.now }
    ensures { result ≡ part s.now at N }
{
    s[at..at + N].try_into().unwrap()
}

// The number of the two bytes from at.
pub fn two(s: &[u8], at: usize) -> u16
    requires { at + 2 ≤ length s.now }
    ensures { result ≡ number (part s.now at 2) }
{
    u16::from_le_bytes(bytes_at(s, at))
}

// The number of the four bytes from at.
pub fn four(s: &[u8], at: usize) -> u32
    requires { at + 4 ≤ length s.now }
    ensures { result ≡ number (part s.now at 4) }
{
    u32::from_le_bytes(bytes_at(s, at))
}

// The number of the eight bytes from at.
pub fn eight(s: &[u8], at: usize) -> u64
    requires { at + 8 ≤ length s.now }
    ensures { result ≡ number (part s.now at 8) }
{
    u64::from_le_bytes(bytes_at(s, at))
}

// The sixteen bytes from at, as a register.
pub fn sixteen(s: &[u8], at: usize) -> Register
    requires { at + 16 ≤ length s.now }
    ensures { Holds result (number (part s.now at 16)) }
{
    Register {
        low: eight(s, at),
        high: eight(s, at + 8),
    }
}

// Replaces the eight bytes from at by those of x.
pub fn put_eight(d: &mut [u8], at: usize, x: u64)
    requires { at + 8 ≤ length d.old }
    ensures { d.new ≡ replaced d.old at (bytes_of 8 x) }
{
    d[at..at + 8].copy_from_slice(&x.to_le_bytes());
}

// Replaces the sixteen bytes from at by those of v.
pub fn put_sixteen(d: &mut [u8], at: usize, v: Register)
    requires { at + 16 ≤ length d.old }
    ensures { d.new ≡ replaced d.old at (bytes_of 16 (value v)) }
{
    put_eight(d, at, v.low);
    put_eight(d, at + 8, v.high);
}
