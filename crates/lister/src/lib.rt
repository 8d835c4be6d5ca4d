// Lists the little-endian words of an input, base 0: one line a word, then what is left over. A library, so that the
// gate can run it on
// more than one input: the programs `list` and `list_long` do nothing else.
#![tactic(auto)]

use line_writer::write_line;
use std::io;
use std::io::{Read, Write};
use streams::read_full;

fn print_line<W: Write>(output: &mut W, address: u32, word: u32) -> io::Result<()> {
    let mut line = [0u8; 64];
    match write_line(&mut line, address, word) {
        None => Ok(()),
        Some(n) => {
            output.write_all(&line[..n])?;
            output.write_all(b"\n")
        }
    }
}

fn print_over<W: Write>(output: &mut W, n: usize) -> io::Result<()> {
    if 0 < n {
        return writeln!(output, "; {n} bytes over");
    }
    Ok(())
}

// After 4,096 words.
fn print_more<R: Read, W: Write>(input: &mut R, output: &mut W) -> io::Result<()> {
    let mut byte = [0u8; 1];
    if 0 < read_full(input, &mut byte)? {
        return output.write_all(b"; more\n");
    }
    Ok(())
}

// What it promises is that it is safe and ends.
pub fn list_input<R: Read, W: Write>(input: &mut R, output: &mut W) -> io::Result<()> {
    for k in 0..4096 {
        let mut bytes = [0; 4];
        let n = read_full(input, &mut bytes)?;
        if n < 4 {
            return print_over(output, n);
        }
        print_line(output, 4 * k, u32::from_le_bytes(bytes))?;
    }
    print_more(input, output)
}
