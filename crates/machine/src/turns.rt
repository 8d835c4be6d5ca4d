// Steps, counted, until one stops or the budget is spent, and one step as a run of one. A step and a run both go this
// way: so `advance` has one caller, and the compiler puts all of it into this loop.
ghost use Rattle.std.specs.Prelude.{◌≡◌, length};
ghost use Rattle.state.specs.Machine.{env, machine};
ghost use Rattle.machine.specs.Run.{runs, RunIs, outcome_in, stepped_as};

use crate::advance::advance;
use crate::run::{Ended, Reason};
use crate::step::Stepped;
use state::board::Board;
use state::control::Control;
use state::stops::Stop;

// Steps until one stops or the budget is spent, for a set-up that was accepted.
pub fn turns(
    board: Board,
    program: &[u8],
    table: &[u8],
    vectors: &mut [u8; 512],
    generals: &mut [u8; 256],
    work: &mut [u8],
    c: Control,
    budget: u32,
) -> Ended
    ensures { RunIs (runs program.now (env board table.now) budget
        (machine vectors.old generals.old work.old c))
        result vectors.new generals.new work.new }
{
    let mut control = c;
    for count in 0..budget {
        let s = advance(board, program, table, vectors, generals, work, control);
        if let Err(stop) = s.outcome {
            return Ended {
                reason: Reason::Stopped(stop),
                count,
                control,
            };
        }
        // By its fields: copied whole, the bytes between them go too, and kernels lose a tenth of their speed.
        let next = s.control;
        control = Control {
            pc: next.pc,
            mark: next.mark,
            csr: next.csr,
            on: next.on,
        };
    }
    Ended {
        reason: Reason::Spent,
        count: budget,
        control,
    }
}

// How a step ends that is made as a run of one instruction.
fn outcome_in(e: Reason) -> Result<(), Stop>
    ensures { result ≡ outcome_in e }
{
    match e {
        Reason::Stopped(s) => Err(s),
        Reason::Refused(_) | Reason::Spent => Ok(()),
    }
}

// A run of one instruction as a step.
pub fn as_step(e: Ended) -> Stepped
    ensures { result ≡ stepped_as e }
{
    Stepped {
        outcome: outcome_in(e.reason),
        control: e.control,
    }
}
