// Steps from the list while the vector unit is switched off: LSA and DLSA alone go on. No instruction switches it, so
// these have a loop of their own, and the other loop does not ask.
ghost use Rattle.std.specs.Prelude.{◌≡◌, ℕ, ◌≤◌, false, List, length};
ghost use Rattle.acts.specs.Act.{kind_at, plan_at};
ghost use Rattle.machine.specs.Run.{runs, RunIs};
ghost use Rattle.machine.specs.Step.{concluded, StepIs};
ghost use Rattle.plan.specs.Plan.{early};
ghost use Rattle.state.specs.Machine.{Env, env, machine};
ghost use Rattle.listed.specs.Turn.{Reads};

use crate::common::summed;
use crate::kept::{kept_as, kept_stop};
use crate::place::place;
use isa::Scaled;
use machine::advance::stopped;
use machine::run::{Ended, Reason};
use machine::step::Stepped;
use plan::early::branch_early;
use state::board::Board;
use state::control::{Control, Mark};
use state::stops::Stop;

// Whether 15 or 16 stops the instruction of a code.
fn early_at(k: u64, mark: Mark) -> Result<(), Stop>
    ensures { result ≡ early (kind_at k) mark false }
{
    match k / 2 {
        1 => Ok(()),
        2 => branch_early(mark, false),
        3 => branch_early(mark, false),
        _ => Err(Stop::SwitchedOff),
    }
}

fn off(e: u64, generals: &mut [u8; 256], c: Control) -> Stepped
    requires { c.on ≡ false }
    ensures { (n : Env) (v w : List ℕ) → let m = machine v generals.old w c in
        StepIs (concluded n.board.work (plan_at n m e) m) result v generals.new w }
{
    let kept = kept_as(e);
    let Ok(k) = kept else {
        return stopped(kept_stop(kept), c);
    };
    if let Err(s) = early_at(k, c.mark) {
        return stopped(s, c);
    }
    if k == 2 {
        summed(Scaled::Lsa, e, generals, c)
    } else {
        summed(Scaled::Dlsa, e, generals, c)
    }
}

// For a set-up that was accepted, and a list that begins with the entries of the program's words.
pub fn turns_off(
    board: Board,
    list: &[u64],
    words: u64,
    generals: &mut [u8; 256],
    c: Control,
    budget: u32,
) -> Ended
    requires { (words ≤ length list.now) × (c.on ≡ false) }
    ensures { (program t v w : List ℕ) → Reads board.program words program list.now
        → RunIs (runs program (env board t) budget (machine v generals.old w c))
        result v generals.new w }
{
    let mut control = c;
    for count in 0..budget {
        let at = place(board.program, control.pc);
        if words <= at {
            return Ended {
                reason: Reason::Stopped(Stop::NoWord),
                count,
                control,
            };
        }
        let s = off(list[at as usize], generals, control);
        if let Err(stop) = s.outcome {
            return Ended {
                reason: Reason::Stopped(stop),
                count,
                control,
            };
        }
        let next = s.control;
        control = Control {
            pc: next.pc,
            mark: next.mark,
            csr: next.csr,
            on: next.on,
        };
    }
    Ended {
        reason: Reason::Spent,
        count: budget,
        control,
    }
}
