// A run on lent memory: steps, counted, until one stops or the budget is spent.
ghost use Rattle.std.specs.Prelude.{◌≡◌};
ghost use Rattle.state.specs.Machine.{env, machine};
ghost use Rattle.machine.specs.Numbers.{reason_number};
ghost use Rattle.machine.specs.Run.{whole_run, RunIs};

use crate::turns::turns;
use state::board::Board;
use state::control::Control;
use state::setup;
use state::setup::Refusal;
use state::stops::Stop;

// Why a run ended.
#[derive(Clone, Copy, Debug, PartialEq, Eq)]
pub enum Reason {
    Refused(Refusal),
    Stopped(Stop),
    Spent,
}

impl From<Reason> for u8 {
    ghost from_gives = { λ e n. n ≡ reason_number e };

    fn from(e: Reason) -> u8 {
        match e {
            Reason::Refused(r) => u8::from(r),
            Reason::Stopped(s) => u8::from(s),
            Reason::Spent => 20,
        }
    }
}

// The reason, the count of finished instructions, and the control block after the last of them.
#[derive(Clone, Copy, Debug, PartialEq, Eq)]
pub struct Ended {
    pub reason: Reason,
    pub count: u32,
    pub control: Control,
}

// A run of at most budget instructions: refused by the first broken limit, stopped by the first reason, or spent.
pub fn run(
    board: Board,
    program: &[u8],
    table: &[u8],
    vectors: &mut [u8],
    generals: &mut [u8],
    work: &mut [u8],
    c: Control,
    budget: u32,
) -> Ended
    ensures { RunIs (whole_run program.now (env board table.now) budget (machine vectors.old generals.old work.old c)) result vectors.new generals.new work.new }
{
    if let Err(r) = setup::check(board, program, table, vectors, generals, work, c) {
        return Ended {
            reason: Reason::Refused(r),
            count: 0,
            control: c,
        };
    }
    let Some(vectors) = vectors.as_mut_array() else {
        unreachable!()
    };
    let Some(generals) = generals.as_mut_array() else {
        unreachable!()
    };
    turns(board, program, table, vectors, generals, work, c, budget)
}
