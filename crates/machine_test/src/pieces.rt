// Bytes of lent memory: read in pieces from an input, copied, compared.
ghost use Rattle.std.specs.Prelude.{◌<◌, IfOk};

use std::io;
use std::io::Read;
use streams::{count, read_full};

fn half<R: Read>(input: &mut R) -> io::Result<usize>
    ensures { IfOk result (λ n. n < 65536) }
{
    let mut b = [0; 2];
    read_full(input, &mut b)?;
    Ok(usize::from(u16::from_le_bytes(b)))
}

fn byte<R: Read>(input: &mut R) -> io::Result<usize>
    ensures { IfOk result (λ n. n < 256) }
{
    let mut b = [0; 1];
    read_full(input, &mut b)?;
    Ok(usize::from(b[0]))
}

// Reads one piece into its place; one that ends past the end is left out, and then the case will differ.
fn piece<R: Read>(input: &mut R, s: &mut [u8]) -> io::Result<()> {
    let at = half(input)?;
    let n = byte(input)?;
    let end = at + n;
    if end <= s.len() {
        read_full(input, &mut s[at..end])?;
    }
    Ok(())
}

pub fn patch<R: Read>(input: &mut R, s: &mut [u8]) -> io::Result<()> {
    for _ in 0..byte(input)? {
        piece(input, s)?;
    }
    Ok(())
}

// The pattern over and over.
fn fill(s: &mut [u8], pattern: [u8; 4]) {
    for (i, b) in s.iter_mut().enumerate() {
        *b = pattern[i % 4];
    }
}

// Reads a window of n bytes to the start of s.
pub fn load<R: Read>(input: &mut R, s: &mut [u8], n: isize, pattern: [u8; 4]) -> io::Result<()> {
    let k = count(n, s);
    fill(&mut s[..k], pattern);
    patch(input, s)
}

// Copies the first n bytes, where both have as many of them.
pub fn copy(to: &mut [u8], from: &[u8], n: isize) {
    let k = count(n, to);
    if k == count(n, from) {
        to[..k].copy_from_slice(&from[..k]);
    }
}

// Whether the first n bytes are the same.
pub fn same_start(s: &[u8], t: &[u8], n: isize) -> bool {
    &s[..count(n, s)] == &t[..count(n, t)]
}
