// One step of a set-up that was accepted: fetch, read, act. A word that reads as no instruction goes no further than 12
// to 14.
ghost use Rattle.std.specs.Prelude.{◌≡◌, length};
ghost use Rattle.state.specs.Machine.{env, machine};
ghost use Rattle.machine.specs.Step.{unread_stop, stopped_with, step_of, StepIs};

use crate::act::act;
use crate::step::Stepped;
use isa::{Instr, Unread};
use reading::read_word;
use state::board::Board;
use state::control::Control;
use state::fetch;
use state::stops::Stop;

// A stop of an accepted step: nothing is changed.
pub fn stopped(s: Stop, c: Control) -> Stepped
    ensures { result ≡ stopped_with s c }
{
    Stepped {
        outcome: Err(s),
        control: c,
    }
}

// 12, 13 or 14 of a word that reads as no instruction.
fn unread_stop(r: Result<Instr, Unread>) -> Stop
    ensures { result ≡ unread_stop r }
{
    match r {
        Err(u) => Stop::Unread(u),
        Ok(_) => Stop::NoWord,
    }
}

// One step of a set-up that was accepted.
pub fn advance(
    board: Board,
    program: &[u8],
    table: &[u8],
    vectors: &mut [u8; 512],
    generals: &mut [u8; 256],
    work: &mut [u8],
    c: Control,
) -> Stepped
    ensures { StepIs (step_of program.now (env board table.now) (machine vectors.old generals.old work.old c)) result vectors.new generals.new work.new }
{
    let Some(w) = fetch::word_at(program, board.program, c.pc) else {
        return stopped(Stop::NoWord, c);
    };
    let reading = read_word(w);
    let Ok(i) = reading else {
        return stopped(unread_stop(reading), c);
    };
    act(i, board, table, vectors, generals, work, c)
}
