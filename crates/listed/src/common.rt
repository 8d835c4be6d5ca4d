// Codes 0 to 7, with the vector unit on: loads and stores, shifted sums and branches. Each does its own work on the
// lent memory, with no plan between: these are what kernels do most beside arithmetic.
ghost use Rattle.std.specs.Prelude.{◌≡◌, ℕ, ◌+◌, ◌%◌, ◌^◌, ◌<◌, true, List, length};
ghost use Rattle.acts.specs.Act.{greg, vreg, plan_at, sum_in};
ghost use Rattle.entries.specs.Cut.{code_of, width_of, dest_of, source_of, third_of, extended_of};
ghost use Rattle.isa.specs.declared.Memory.TheVariants.{Ld, St};
ghost use Rattle.machine.specs.Step.{concluded, StepIs};
ghost use Rattle.memory.specs.File.{register_at};
ghost use Rattle.memory.specs.Value.{Holds};
ghost use Rattle.plan.specs.declared.Plan.TheVariants as plan;
ghost use Rattle.plan.specs.Numbers.{scaled_of};
ghost use Rattle.plan.specs.Plan.{general_at, marked, accessed, branch_early, unless};
ghost use Rattle.state.specs.Machine.{env, machine};
ghost use Rattle.state.specs.declared.control.Control.{Control};
ghost use Rattle.listed.specs.Turn.{finished_with};

use entries::parts::*;
use isa::{Greg, Scaled, Vreg, Zero};
use machine::advance::stopped;
use machine::effect::{forward, write_general};
use machine::step::Stepped;
use memory::Register;
use memory::file::{read_register, write_register};
use order::turn;
use plan::branch::mark_of;
use plan::early::branch_early;
use plan::moves;
use plan::scaled::scaled_of;
use plan::zero::{taken, taken_v};
use state::board::Board;
use state::control::{Control, Mark};
use state::stops::Stop;
use state::windows::{Spot, locate};

// A finished step that sets no slot mark.
pub fn finished(c: Control) -> Stepped
    ensures { result ≡ finished_with c }
{
    Stepped {
        outcome: Ok(()),
        control: forward(c, Mark::Clear, c.csr),
    }
}

// The address of a load or a store.
fn address_of(e: u64, generals: &[u8; 256]) -> u64
    ensures { result ≡ (general_at generals.now (greg (source_of e)) + extended_of e) % 2 ^ 64 }
{
    moves::general(generals, Greg(source_of(e))).wrapping_add(extended(e))
}

fn load(
    e: u64,
    a: u64,
    board: Board,
    table: &[u8],
    vectors: &mut [u8; 512],
    work: &[u8],
    c: Control,
) -> Stepped
    ensures { (g : List ℕ) → StepIs (concluded board.work (accessed Ld (width_of e) board table.now
        vectors.old work.now (vreg (dest_of e)) a)
        (machine vectors.old g work.now c))
        result vectors.new g work.now }
{
    let w = width_of(e);
    let d = Vreg(dest_of(e));
    match locate(board, table.len(), work.len(), a) {
        Spot::Table(i) => {
            write_register(vectors, d, turn(board.order, w, memory::sixteen(table, i)));
            finished(c)
        }
        Spot::Work(i) => {
            write_register(vectors, d, turn(board.order, w, memory::sixteen(work, i)));
            finished(c)
        }
        Spot::Outside(x) => stopped(Stop::NoWindow(x), c),
    }
}

fn store(
    e: u64,
    a: u64,
    board: Board,
    table: usize,
    vectors: &[u8; 512],
    work: &mut [u8],
    c: Control,
) -> Stepped
    ensures { (t g : List ℕ) → table ≡ length t → StepIs (concluded board.work
        (accessed St (width_of e) board t vectors.now work.old (vreg (dest_of e)) a)
        (machine vectors.now g work.old c))
        result vectors.now g work.new }
{
    match locate(board, table, work.len(), a) {
        Spot::Table(_) => stopped(Stop::ReadOnly(a), c),
        Spot::Work(i) => {
            let v = read_register(vectors, Vreg(dest_of(e)));
            memory::put_sixteen(work, i, turn(board.order, width_of(e), v));
            finished(c)
        }
        Spot::Outside(x) => stopped(Stop::NoWindow(x), c),
    }
}

// LSA and DLSA.
pub fn summed(op: Scaled, e: u64, generals: &mut [u8; 256], c: Control) -> Stepped
    ensures { (b : ℕ) (v w : List ℕ) → let m = machine v generals.old w c in
        StepIs (concluded b (sum_in m e (scaled_of op)) m) result v generals.new w }
{
    let x = moves::general(generals, Greg(source_of(e)));
    let y = moves::general(generals, Greg(third_of(e)));
    let sum = scaled_of(op, x, y, (imm_of(e) % 4) as u8);
    write_general(generals, Greg(dest_of(e)), sum);
    finished(c)
}

// The register that a branch looks at.
fn last(e: u64, vectors: &[u8; 512]) -> Register
    ensures { Holds result (register_at vectors.now (vreg (third_of e))) }
{
    read_register(vectors, Vreg(third_of(e)))
}

// A branch, unless it stands in a slot.
fn branched(e: u64, is: bool, c: Control) -> Stepped
    ensures { (b : ℕ) (v g w : List ℕ) → StepIs (concluded b (unless (branch_early c.mark true)
        (plan.Branch (marked is ((c.pc + 4 + extended_of e) % 2 ^ 64)))) (machine v g w c)) result v g w }
{
    if let Err(s) = branch_early(c.mark, true) {
        return stopped(s, c);
    }
    let to = c.pc.wrapping_add(4).wrapping_add(extended(e));
    Stepped {
        outcome: Ok(()),
        control: forward(c, mark_of(is, to), c.csr),
    }
}

pub fn common(
    e: u64,
    board: Board,
    table: &[u8],
    vectors: &mut [u8; 512],
    generals: &mut [u8; 256],
    work: &mut [u8],
    c: Control,
) -> Stepped
    requires { (code_of e < 8) × (c.on ≡ true) }
    ensures { let m = machine vectors.old generals.old work.old c in
        StepIs (concluded board.work (plan_at (env board table.now) m e) m)
        result vectors.new generals.new work.new }
{
    match code_of(e) {
        0 => load(e, address_of(e, generals), board, table, vectors, work, c),
        1 => store(
            e,
            address_of(e, generals),
            board,
            table.len(),
            vectors,
            work,
            c,
        ),
        2 => summed(Scaled::Lsa, e, generals, c),
        3 => summed(Scaled::Dlsa, e, generals, c),
        4 => branched(e, taken(Zero::Bz, width_of(e), last(e, vectors)), c),
        5 => branched(e, taken(Zero::Bnz, width_of(e), last(e, vectors)), c),
        6 => branched(e, taken_v(Zero::Bz, last(e, vectors)), c),
        _ => branched(e, taken_v(Zero::Bnz, last(e, vectors)), c),
    }
}
