// Why the next step would stop, or that it would not: on the lent memory of a step, all of it lent for reading, so that
// nothing can change. `ahead` says how it would end, and here the word at the counter and the fact are put beside that.
ghost use Rattle.std.specs.Prelude.{◌≡◌, length};
ghost use Rattle.state.specs.Machine.{env, machine};
ghost use Rattle.machine.specs.Why.{stop_word, stop_fact, cause_of, next_of, why_of, WhyIs};

use crate::ahead::end_of;
use state::board::Board;
use state::control::Control;
use state::setup::Refusal;
use state::stops::Stop;
use state::{fetch, setup};

// How the step would end, and the word and the fact behind a stop: 0 where there is none.
#[derive(Clone, Copy, Debug, PartialEq, Eq)]
pub struct Cause {
    pub answer: Result<Result<(), Stop>, Refusal>,
    pub word: u32,
    pub fact: u64,
}

// The word behind a stop, where the word w stands at the counter.
fn word_of(s: Stop, w: u32) -> u32
    ensures { result ≡ stop_word w s }
{
    match s {
        Stop::NoWord => 0,
        _ => w,
    }
}

// The fact behind a stop at the counter pc, where the word w stands.
fn fact_of(s: Stop, pc: u64, w: u32) -> u64
    ensures { result ≡ stop_fact pc w s }
{
    match s {
        Stop::NoWord => pc,
        Stop::Unread(_) | Stop::BranchInSlot => w as u64,
        Stop::SwitchedOff => 0,
        Stop::NoWindow(x) | Stop::ReadOnly(x) => x,
        Stop::Trap(bits) => bits as u64,
    }
}

// What is told of a step that ends so, at the counter pc, where the word w stands.
fn cause_of(o: Result<(), Stop>, pc: u64, w: u32) -> Cause
    ensures { result ≡ cause_of pc w o }
{
    match o {
        Ok(()) => Cause {
            answer: Ok(Ok(())),
            word: 0,
            fact: 0,
        },
        Err(s) => Cause {
            answer: Ok(Err(s)),
            word: word_of(s, w),
            fact: fact_of(s, pc, w),
        },
    }
}

// The next step's, for a set-up that was accepted.
fn next(
    board: Board,
    program: &[u8],
    table: &[u8],
    vectors: &[u8],
    generals: &[u8; 256],
    work: &[u8],
    c: Control,
) -> Cause
    ensures { result ≡ next_of program.now (env board table.now)
        (machine vectors.now generals.now work.now c) }
{
    // 0 where no word stands there
    let word = fetch::word_at(program, board.program, c.pc).unwrap_or(0);
    cause_of(end_of(board, program, table, generals, work, c), c.pc, word)
}

// Refused by the first broken limit, or what the next step would do.
pub fn why(
    board: Board,
    program: &[u8],
    table: &[u8],
    vectors: &[u8],
    generals: &[u8],
    work: &[u8],
    c: Control,
) -> Cause
    ensures { WhyIs (why_of program.now (env board table.now)
        (machine vectors.now generals.now work.now c)) result }
{
    if let Err(r) = setup::check(board, program, table, vectors, generals, work, c) {
        return Cause {
            answer: Err(r),
            word: 0,
            fact: 0,
        };
    }
    let Some(generals) = generals.as_array() else {
        unreachable!()
    };
    next(board, program, table, vectors, generals, work, c)
}
