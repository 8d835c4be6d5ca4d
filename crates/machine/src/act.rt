// What an instruction does, once it is read: its plan is made, and done.
ghost use Rattle.std.specs.Prelude.{◌≡◌, length, Ok};
ghost use Rattle.plan.specs.There.{There};
ghost use Rattle.state.specs.Machine.{env, machine};
ghost use Rattle.words.specs.Formed.{Formed};
ghost use Rattle.machine.specs.Step.{concluded, decided, StepIs};

use crate::effect;
use crate::step::Stepped;
use isa::Instr;
use plan::{Plan, planned};
use state::board::Board;
use state::control::Control;

// Does what the plan says; a plan to stop changes nothing.
pub fn conclude(
    p: Plan,
    board: Board,
    vectors: &mut [u8; 512],
    generals: &mut [u8; 256],
    work: &mut [u8],
    c: Control,
) -> Stepped
    requires { There board.work (length work.old) p }
    ensures { StepIs (concluded board.work p
        (machine vectors.old generals.old work.old c))
        result vectors.new generals.new work.new }
{
    effect::apply(p, board.work, vectors, generals, work);
    Stepped {
        outcome: effect::outcome_of(p),
        control: effect::control_after(p, c),
    }
}

// One step of a set-up that was accepted, for the instruction that the word at the counter reads as.
pub fn act(
    i: Instr,
    board: Board,
    table: &[u8],
    vectors: &mut [u8; 512],
    generals: &mut [u8; 256],
    work: &mut [u8],
    c: Control,
) -> Stepped
    requires { Formed i }
    ensures { StepIs (decided (Ok i) (env board table.now)
        (machine vectors.old generals.old work.old c))
        result vectors.new generals.new work.new }
{
    let p = planned::plan_of(i, board, table, vectors, generals, work, c);
    conclude(p, board, vectors, generals, work, c)
}
