// One step by an entry of the list, with the vector unit on. The operations that kernels use most, and those that they
// use less, are functions apart, and the loop calls both, so that the compiler puts either into it.
ghost use Rattle.std.specs.Prelude.{◌≡◌, ℕ, ◌<◌, ◌≤◌, true, List, length};
ghost use Rattle.acts.specs.Act.{executed_at, plan_at, vector_of, value_of, third_in, vreg};
ghost use Rattle.entries.specs.Cut.{code_of, width_of, dest_of};
ghost use Rattle.isa.specs.Widths.{bits};
ghost use Rattle.machine.specs.Step.{concluded, StepIs};
ghost use Rattle.memory.specs.File.{register_at};
ghost use Rattle.memory.specs.Value.{value, register, Holds};
ghost use Rattle.plan.specs.declared.Plan.TheVariants as plan;
ghost use Rattle.state.specs.declared.control.Control.{Control};
ghost use Rattle.state.specs.Machine.{Env, env, machine};

use crate::common::finished;
use crate::kept::{kept_as, kept_stop};
use crate::moved::moved;
use entries::parts::*;
use isa::Vreg;
use machine::act::conclude;
use machine::advance::stopped;
use machine::step::Stepped;
use memory::Register;
use memory::file::{read_register, write_register};
use state::board::Board;
use state::control::Control;
use values::operands::third;
use values::others::other;
use values::quick;
use values::seldom::seldom;
use values::shuffles::shuffled;

// Codes 8 to 55.
pub fn quick(e: u64, vectors: &mut [u8; 512], c: Control) -> Stepped
    requires { (8 ≤ code_of e) × (code_of e < 56) × (c.on ≡ true) }
    ensures { (n : Env) (g w : List ℕ) → let m = machine vectors.old g w c in
        StepIs (concluded n.board.work (plan_at n m e) m) result vectors.new g w }
{
    let s = read_register(vectors, Vreg(source_of(e)));
    let t = third(e, vectors);
    let v = quick::quick(e, s, t, vectors);
    write_register(vectors, Vreg(dest_of(e)), v);
    finished(c)
}

// What the codes 56 to 104 make. VSHF, code 80, reads no more than it chooses.
fn made(e: u64, vectors: &[u8; 512], generals: &[u8; 256]) -> Register
    requires { (56 ≤ code_of e) × (code_of e < 105) }
    ensures { (n : Env) (w : List ℕ) (c : Control) → executed_at n
        (machine vectors.now generals.now w c) e ≡ plan.Vector (vreg (dest_of e)) result }
{
    let k = code_of(e);
    if k < 88 {
        if k == 80 {
            return shuffled(e, vectors);
        }
        let s = read_register(vectors, Vreg(source_of(e)));
        let d = read_register(vectors, Vreg(dest_of(e)));
        return seldom(e, d, s, third(e, vectors));
    }
    other(e, vectors, generals)
}

fn vector(e: u64, vectors: &mut [u8; 512], generals: &[u8; 256], c: Control) -> Stepped
    requires { (56 ≤ code_of e) × (code_of e < 105)
        × (c.on ≡ true) }
    ensures { (n : Env) (w : List ℕ) → let m = machine vectors.old generals.now w c in
        StepIs (concluded n.board.work (plan_at n m e) m) result vectors.new generals.now w }
{
    let v = made(e, vectors, generals);
    write_register(vectors, Vreg(dest_of(e)), v);
    finished(c)
}

// The codes from 105 on: moves to general registers, the control registers, and words that read as no instruction.
fn rest(
    e: u64,
    board: Board,
    vectors: &mut [u8; 512],
    generals: &mut [u8; 256],
    work: &mut [u8],
    c: Control,
) -> Stepped
    requires { (105 ≤ code_of e) × (c.on ≡ true) }
    ensures { (t : List ℕ) →
        let m = machine vectors.old generals.old work.old c in
        StepIs (concluded board.work (plan_at (env board t) m e) m)
        result vectors.new generals.new work.new }
{
    let k = kept_as(e);
    let Ok(_) = k else {
        return stopped(kept_stop(k), c);
    };
    let p = moved(e, vectors, generals, c);
    conclude(p, board, vectors, generals, work, c)
}

// The codes from 56 on.
pub fn slow(
    e: u64,
    board: Board,
    vectors: &mut [u8; 512],
    generals: &mut [u8; 256],
    work: &mut [u8],
    c: Control,
) -> Stepped
    requires { (56 ≤ code_of e) × (c.on ≡ true) }
    ensures { (t : List ℕ) →
        let m = machine vectors.old generals.old work.old c in
        StepIs (concluded board.work (plan_at (env board t) m e) m)
        result vectors.new generals.new work.new }
{
    if code_of(e) < 105 {
        return vector(e, vectors, generals, c);
    }
    rest(e, board, vectors, generals, work, c)
}
