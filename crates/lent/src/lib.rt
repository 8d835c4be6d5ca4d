// The control block lent by `&mut`: a thin function over the by-value step. The block is read and stored whole; every
// branch is in the step that is called.
#![tactic(auto)]

ghost use Rattle.state.specs.Machine.{env, machine};
ghost use Rattle.machine.specs.Step.{whole_step, WholeIs};
ghost use Rattle.lent.specs.Lent.{answered};

use state::board::Board;
use state::control::Control;
use state::setup::Refusal;
use state::stops::Stop;

// One step that brings the lent control block forward for its caller.
pub fn step(
    board: Board,
    program: &[u8],
    table: &[u8],
    vectors: &mut [u8],
    generals: &mut [u8],
    work: &mut [u8],
    c: &mut Control,
) -> Result<Result<(), Stop>, Refusal>
    ensures { WholeIs (whole_step program.now (env board table.now) (machine vectors.old generals.old work.old c.old)) (answered result c.new) vectors.new generals.new work.new }
{
    let a = machine::step::step(board, program, table, vectors, generals, work, *c);
    *c = a.control;
    a.answer
}
