// One step on lent memory, with its set-up limits.
ghost use Rattle.std.specs.Prelude.{◌≡◌};
ghost use Rattle.state.specs.Machine.{env, machine};
ghost use Rattle.machine.specs.Step.{ran_as, whole_step, WholeIs};

use crate::turns::{as_step, turns};
use state::board::Board;
use state::control::Control;
use state::setup;
use state::setup::Refusal;
use state::stops::Stop;

// How a step of an accepted set-up ends, finished or stopped, with the control block after it.
#[derive(Clone, Copy, Debug, PartialEq, Eq)]
pub struct Stepped {
    pub outcome: Result<(), Stop>,
    pub control: Control,
}

// How a step ends: refused at set-up, or as its outcome says; with the control block after it.
#[derive(Clone, Copy, Debug, PartialEq, Eq)]
pub struct Answered {
    pub answer: Result<Result<(), Stop>, Refusal>,
    pub control: Control,
}

// The answer of a step that ran.
fn ran(s: Stepped) -> Answered
    ensures { result ≡ ran_as s }
{
    Answered {
        answer: Ok(s.outcome),
        control: s.control,
    }
}

// One step: refused by the first broken limit, stopped by the first reason, or finished.
pub fn step(
    board: Board,
    program: &[u8],
    table: &[u8],
    vectors: &mut [u8],
    generals: &mut [u8],
    work: &mut [u8],
    c: Control,
) -> Answered
    ensures { WholeIs (whole_step program.now (env board table.now) (machine vectors.old generals.old work.old c)) result vectors.new generals.new work.new }
{
    if let Err(r) = setup::check(board, program, table, vectors, generals, work, c) {
        return Answered {
            answer: Err(r),
            control: c,
        };
    }
    let Some(vectors) = vectors.as_mut_array() else {
        unreachable!()
    };
    let Some(generals) = generals.as_mut_array() else {
        unreachable!()
    };
    let e = turns(board, program, table, vectors, generals, work, c, 1);
    ran(as_step(e))
}
