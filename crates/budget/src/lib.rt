// How large a budget is enough (request 10/12). A run of a program whose branches all go forward stops by itself: from
// word i of n, with a clear slot mark, it finishes at most n - i instructions, and budget n - i + 1 never answers 20.
// That is a theorem over the definition's steps (crate demands, Forward); here the program's words are looked at and
// the number is worked out. Nothing is run.
#![tactic(auto)]

ghost use Rattle.std.specs.Prelude.{◌≡◌, ◌+◌, ◌/◌, ◌≤◌, length};
ghost use Rattle.reading.specs.Reading.{read_of};
ghost use Rattle.budget.specs.Budget.{ahead, forward, forward_to, words, from_word, budget_of};

use state::{fetch, setup};

// Whether an offset, a signed number, is at least 1.
fn is_ahead(offset: u16) -> bool
    ensures { result ≡ ahead offset }
{
    (offset < 32768) & (0 < offset)
}

// Whether a word goes only forward: it reads as no branch, or as one whose offset is at least 1. Bits 31..21 tell a
// branch: 010001 01011 is BZ.V, 010001 01111 BNZ.V, and 010001 11 and a format BZ or BNZ. (`read_word` tells more than
// is asked here. It is large, and has one caller, the step, which it is compiled into.)
fn word_forward(w: u32) -> bool
    ensures { result ≡ forward (read_of w) }
{
    let top = w / 2097152;
    if (top == 555) | (top == 559) | (top / 8 == 71) {
        is_ahead((w % 65536) as u16)
    } else {
        true
    }
}

// The same of every word of the program.
fn all_forward(program: &[u8]) -> bool
    ensures { result ≡ forward_to program.now (words program.now) }
{
    for i in 0..program.len() / 4 {
        if !word_forward(memory::four(program, 4 * i)) {
            return false;
        }
    }
    true
}

// n - i + 1 where every branch goes forward, else 0; word i of n stands at this byte of the program.
fn from_word(program: &[u8], at: u64) -> u32
    requires { (at + 4 ≤ length program.now) × (length program.now ≤ 262144) }
    ensures { result ≡ from_word program.now (at / 4) }
{
    if all_forward(program) {
        let n = (program.len() / 4) as u64;
        (n - at / 4 + 1) as u32
    } else {
        0
    }
}

// From the word at the counter; 1 where it is at no word; and 0, which C gets and no None, of a program that set-up
// refuses, and where no budget is known.
pub fn forward_budget(program: &[u8], base: u64, counter: u64) -> u32
    ensures { result ≡ budget_of program.now base counter }
{
    if setup::program_bad(base, program.len()) {
        return 0;
    }
    let Some(_) = fetch::word_at(program, base, counter) else {
        return 1;
    };
    from_word(program, counter - base)
}
