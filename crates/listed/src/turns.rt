// Steps from the list, counted, until one stops or the budget is spent, with the vector unit on. The program is not
// lent to this loop.
ghost use Rattle.std.specs.Prelude.{◌≡◌, ℕ, ◌≤◌, true, List, length};
ghost use Rattle.machine.specs.Run.{runs, RunIs};
ghost use Rattle.state.specs.Machine.{env, machine};
ghost use Rattle.listed.specs.Turn.{Reads};

use crate::common::common;
use crate::place::place;
use crate::steps::{quick, slow};
use entries::parts::code_of;
use machine::run::{Ended, Reason};
use state::board::Board;
use state::control::Control;
use state::stops::Stop;

// The loop stands here, in `off` and in the plain engine: one loop that is given the step as a closure would promise no
// less, and its callers would state what each step leaves.
// For a set-up that was accepted, and a list that begins with the entries of the program's words.
pub fn turns(
    board: Board,
    list: &[u64],
    words: u64,
    table: &[u8],
    vectors: &mut [u8; 512],
    generals: &mut [u8; 256],
    work: &mut [u8],
    c: Control,
    budget: u32,
) -> Ended
    requires { (words ≤ length list.now)
        × (c.on ≡ true) }
    ensures { (program : List ℕ) → Reads board.program words program list.now
        → RunIs (runs program (env board table.now) budget
        (machine vectors.old generals.old work.old c))
        result vectors.new generals.new work.new }
{
    let mut control = c;
    for count in 0..budget {
        let at = place(board.program, control.pc);
        if words <= at {
            return Ended {
                reason: Reason::Stopped(Stop::NoWord),
                count,
                control,
            };
        }
        let e = list[at as usize];
        let k = code_of(e);
        let s = if k < 56 {
            if k < 8 {
                common(e, board, table, vectors, generals, work, control)
            } else {
                quick(e, vectors, control)
            }
        } else {
            slow(e, board, vectors, generals, work, control)
        };
        if let Err(stop) = s.outcome {
            return Ended {
                reason: Reason::Stopped(stop),
                count,
                control,
            };
        }
        // By its fields: copied whole, the bytes between them go too, and kernels lose a tenth of their speed.
        let next = s.control;
        control = Control {
            pc: next.pc,
            mark: next.mark,
            csr: next.csr,
            on: next.on,
        };
    }
    Ended {
        reason: Reason::Spent,
        count: budget,
        control,
    }
}
