// Runs the cases of standard input, and counts how many agree: the line of a word, and the word of an instruction.
// tools/words_vectors.py says what stands in a record of 32 bytes.
#![tactic(auto)]

mod built;

use crate::built::instr_of;
use line_writer::write_line;
use std::io;
use streams::read_full;
use writing::write_word;

#[derive(Clone, Copy)]
struct Count {
    agree: u64,
    cases: u64,
}

fn word_of(r: [u8; 32]) -> u32 {
    u32::from_le_bytes([r[1], r[2], r[3], r[4]])
}

// The line's text stands behind its address and its word.
fn decodes(r: [u8; 32]) -> bool {
    let mut line = [0u8; 64];
    match write_line(&mut line, 0, word_of(r)) {
        None => false,
        Some(n) => n == r[5] as usize && &line[19..45] == &r[6..],
    }
}

fn encodes(r: [u8; 32]) -> bool {
    match write_word(instr_of(r)) {
        None => r[5] == 6,
        Some(w) => r[5] == 0 && w == word_of(r),
    }
}

// Of decode, encode and skipped cases, first of the random files and then of the corners; the last are encode cases of
// our own.
fn tally(counts: &mut [Count; 8], r: [u8; 32]) {
    let k = usize::from(r[0] % 8);
    let agrees = match k % 3 {
        0 => decodes(r),
        1 => encodes(r),
        _ => false,
    };
    let count = &mut counts[k];
    count.cases = count.cases.wrapping_add(1);
    count.agree = count.agree.wrapping_add(u64::from(agrees));
}

fn line(rt: &impl Print, name: &str, count: Count) -> io::Result<()> {
    let Count { agree, cases } = count;
    println!(rt; "{name}: {agree} of {cases} agree")
}

fn skipped(rt: &impl Print, cases: u64) -> io::Result<()> {
    println!(rt; "{cases} encode cases have a format or a number that no Instr holds")
}

fn report(rt: &impl Print, counts: [Count; 8]) -> io::Result<()> {
    line(rt, "decode", counts[0])?;
    line(rt, "encode", counts[1])?;
    skipped(rt, counts[2].cases)?;
    line(rt, "corners, decode", counts[3])?;
    line(rt, "corners, encode", counts[4])?;
    skipped(rt, counts[5].cases)?;
    line(rt, "refused of our own", counts[7])
}

fn main(rt: HostRuntime) -> io::Result<()> {
    let mut input = rt.reader();
    let mut counts = [Count { agree: 0, cases: 0 }; 8];
    for _ in 0..1000000 {
        let mut r = [0; 32];
        if read_full(&mut input, &mut r)? < 32 {
            break;
        }
        tally(&mut counts, r);
    }
    report(&rt, counts)
}
