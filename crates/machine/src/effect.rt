// What a plan comes to: the outcome of its step, the lent memory after it (`apply` is the one function that changes
// any), and the control block brought forward.
ghost use Rattle.std.specs.Prelude.{◌≡◌, ◌<◌, length};
ghost use Rattle.plan.specs.There.{There};
ghost use Rattle.machine.specs.Step.{outcome_of};
ghost use Rattle.machine.specs.Effect.{with_general, vectors_after, generals_after, work_after, pc_after, forwarded, control_after};

use isa::Greg;
use memory::file::write_register;
use plan::Plan;
use plan::ahead::stop_in;
use state::control::{Control, Mark};
use state::stops::Stop;

// How a step with this plan ends.
pub fn outcome_of(p: Plan) -> Result<(), Stop>
    ensures { result ≡ outcome_of p }
{
    stop_in(p)
}

// Writes general register r; a write to register 0 is dropped.
pub fn write_general(generals: &mut [u8; 256], r: Greg, x: u64)
    requires { r.0 < 32 }
    ensures { generals.new ≡ with_general generals.old r x }
{
    if r.0 != 0 {
        memory::put_eight(generals, 8 * r.0 as usize, x);
    }
}

// Does what the plan says to the lent memory; the work window begins at base.
pub fn apply(p: Plan, base: u64, vectors: &mut [u8; 512], generals: &mut [u8; 256], work: &mut [u8])
    requires { There base (length work.old) p }
    ensures vectors_after { vectors.new ≡ vectors_after p vectors.old }
    ensures generals_after { generals.new ≡ generals_after p generals.old }
    ensures work_after { work.new ≡ work_after p base work.old }
{
    match p {
        Plan::Vector(r, v) => write_register(vectors, r, v),
        Plan::General(r, x) => write_general(generals, r, x),
        Plan::Store(a, v) => memory::put_sixteen(work, (a - base) as usize, v),
        Plan::Stop(_) | Plan::Nothing | Plan::Csr(_) | Plan::Branch(_) => {}
    }
}

fn pc_after(k: Mark, pc: u64) -> u64
    ensures { result ≡ pc_after k pc }
{
    match k {
        // An arm each: with both in one the compiler makes a conditional move of it, and every step waits for the mark.
        Mark::Clear => pc.wrapping_add(4),
        Mark::NotTaken => pc.wrapping_add(4),
        Mark::Taken(t) => t,
    }
}

// The control block one word on, or at the target of a mark that was taken, with this mark and this MSACSR.
pub fn forward(c: Control, mark: Mark, csr: u32) -> Control
    ensures { result ≡ forwarded c mark csr }
{
    Control {
        pc: pc_after(c.mark, c.pc),
        mark,
        csr,
        on: c.on,
    }
}

// The control block after a plan: a stop keeps it, slot mark and all.
pub fn control_after(p: Plan, c: Control) -> Control
    ensures { result ≡ control_after p c }
{
    match p {
        Plan::Stop(_) => c,
        Plan::Csr(x) => forward(c, Mark::Clear, x),
        Plan::Branch(k) => forward(c, k, c.csr),
        _ => forward(c, Mark::Clear, c.csr),
    }
}
