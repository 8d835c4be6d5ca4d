// Counts the words of major opcode 011110 by what they read as. No class is told by bits 15..6, so one word stands for
// the 1,024 that differ from it there: 65,536 words are read, one for each value of bits 25..16 and 5..0.
#![tactic(auto)]

use isa::{Instr, Unread};
use reading::read_word;
use std::io;

#[derive(Clone, Copy)]
struct Counts {
    read: u64,
    left_out: u64,
    unassigned: u64,
    other: u64,
}

fn word_at(k: u32) -> u32 {
    30 * 67108864 + k / 64 % 1024 * 65536 + k % 64
}

fn more(n: u64) -> u64 {
    n.wrapping_add(1024)
}

fn refused(c: Counts, u: Unread) -> Counts {
    match u {
        Unread::Unassigned => Counts {
            unassigned: more(c.unassigned),
            ..c
        },
        Unread::LeftOut => Counts {
            left_out: more(c.left_out),
            ..c
        },
        Unread::Other => Counts {
            other: more(c.other),
            ..c
        },
    }
}

fn counted(c: Counts, r: Result<Instr, Unread>) -> Counts {
    match r {
        Err(u) => refused(c, u),
        Ok(_) => Counts {
            read: more(c.read),
            ..c
        },
    }
}

fn line(rt: &impl Print, name: &str, n: u64) -> io::Result<()> {
    println!(rt; "{name} {n}")
}

fn count_all() -> Counts {
    let mut c = Counts {
        read: 0,
        left_out: 0,
        unassigned: 0,
        other: 0,
    };
    for k in 0..65536 {
        c = counted(c, read_word(word_at(k)));
    }
    c
}

fn main(rt: HostRuntime) -> io::Result<()> {
    let c = count_all();
    line(&rt, "read", c.read)?;
    line(&rt, "13", c.left_out)?;
    line(&rt, "12", c.unassigned)?;
    line(&rt, "14", c.other)
}
