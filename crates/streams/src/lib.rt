// How the programs read: to the start of a buffer, and how much of a buffer a number stands for.
#![tactic(auto)]

ghost use Rattle.std.specs.Prelude.{◌≡◌, ◌<◌, length, take, IfOk};
ghost use Rattle.std.specs.Io.KnownBytes.{Consumes, IsAtEnd};
ghost use Rattle.streams.specs.Counts.{IsPrefixLen, clamp_len};

use std::io;
use std::io::Read;

// n as a number of buf's bytes: 0 where n is negative, and never more than buf's length. It takes buf and not its
// length, so that the contract can speak of buf.
pub fn count(n: isize, buf: &[u8]) -> usize
    ensures in_bounds { IsPrefixLen result buf.now }
    ensures value { result ≡ clamp_len n (length buf.now) }
{
    usize::try_from(n).unwrap_or(0).min(buf.len())
}

// Reads until buf is full or the input ends, and answers how many bytes it put at the start of buf. On an empty buf it
// makes no call. A read that fails ends it, also one that a signal interrupts.
pub fn read_full<R: Read>(from: &mut R, buf: &mut [u8]) -> io::Result<usize>
    ensures in_bounds { IfOk result (λ n. IsPrefixLen n buf.new) }
    ensures bytes { IfOk result (λ n. Consumes (R.remaining from.old) (R.remaining from.new) (take n buf.new)) }
    ensures end { IfOk result (λ n. n < length buf.new → IsAtEnd (R.remaining from.new)) }
{
    // A while loop: std's read_exact fails where the input ends, and does not say how many bytes it read.
    let mut done = 0;
    while done < buf.len() {
        let n = from.read(&mut buf[done..])?;
        if n == 0 {
            return Ok(done);
        }
        done += n;
    }
    Ok(done)
}
