// Runs the lines of standard input through write_line, and counts how many agree, blanks and length too.
// tools/list_vectors.py says what stands in a record of 73 bytes.
#![tactic(auto)]

use line_writer::write_line;
use std::io;
use streams::read_full;

// The line is refused where it is lent a byte short, and is then as it was.
fn refuses(address: u32, word: u32) -> bool {
    let mut short = [7u8; 63];
    match write_line(&mut short, address, word) {
        None => short == [7u8; 63],
        Some(_) => false,
    }
}

fn agrees(r: [u8; 73]) -> bool {
    let address = u32::from_le_bytes([r[0], r[1], r[2], r[3]]);
    let word = u32::from_le_bytes([r[4], r[5], r[6], r[7]]);
    let mut line = [0u8; 64];
    match write_line(&mut line, address, word) {
        None => false,
        Some(n) => { n == r[8] as usize && line.as_slice() == &r[9..] && refuses(address, word) }
    }
}

fn main(rt: HostRuntime) -> io::Result<()> {
    let mut input = rt.reader();
    let mut agree: u64 = 0;
    let mut cases: u64 = 0;
    for _ in 0..100000 {
        let mut r = [0; 73];
        if read_full(&mut input, &mut r)? < 73 {
            break;
        }
        agree = agree.wrapping_add(u64::from(agrees(r)));
        cases = cases.wrapping_add(1);
    }
    println!(rt; "lines: {agree} of {cases} agree")
}
