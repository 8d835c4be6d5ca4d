// The C entry: one step, one run, why the next step would stop, or how large a budget is enough, on numbers and byte
// slices. The slices go on to the machine as they are lent; only the control block is read from its bytes and, by a
// step or a run, written back.
#![tactic(auto)]

pub mod block;
pub mod numbers;

ghost use Rattle.std.specs.Prelude.{◌≡◌, cond, eqb};
ghost use Rattle.budget.specs.Budget.{budget_of};
ghost use Rattle.state.specs.Machine.{env, machine};
ghost use Rattle.machine.specs.Run.{whole_run};
ghost use Rattle.machine.specs.Step.{whole_step};
ghost use Rattle.machine.specs.Why.{why_of};
ghost use Rattle.entry.specs.Block.{decoded, ordered};
ghost use Rattle.entry.specs.Entry.{board, StepsTo, RunsTo};
ghost use Rattle.entry.specs.Why.{explained};

use state::board::Board;

// What C gets of a step: 0 where it is finished, else the number of the refusal or of the stop; and with 17 the address
// that is missing, with every other number 0.
#[repr(C)]
#[derive(Clone, Copy)]
pub struct MsaStepped {
    pub reason: u64,
    pub missing: u64,
}

// What C gets of a run: the number of its reason, the count of finished instructions, and the missing address.
#[repr(C)]
#[derive(Clone, Copy)]
pub struct MsaEnded {
    pub reason: u32,
    pub count: u32,
    pub missing: u64,
}

// What C gets of the call that says why the next step would stop: the number that `msa_step` would answer; what kind of
// fact stands behind a stop; the word and the fact. Kind, word and fact are 0 where there is none.
#[repr(C)]
#[derive(Clone, Copy)]
pub struct MsaWhy {
    pub number: u16,
    pub kind: u16,
    pub word: u32,
    pub fact: u64,
}

// The board of a call: where things begin, and the order that its control block names.
pub fn board_of(program: u64, table: u64, work: u64, control: &[u8]) -> Board
    ensures { result ≡ board (ordered control.now) program table work }
{
    let order = block::order_of(control);
    Board {
        program,
        table,
        work,
        order,
    }
}

// The reason of a run of one instruction as that of a step: where its budget is spent, the instruction is finished.
fn step_reason(n: u32) -> u64
    ensures { result ≡ cond (eqb n 20) 0 n }
{
    if n == 20 { 0 } else { n as u64 }
}

// One step: a run of one instruction. So the machine stands in one function for both, whose frame they share.
pub fn msa_step(
    program: &[u8],
    program_base: u64,
    table: &[u8],
    table_base: u64,
    vectors: &mut [u8],
    generals: &mut [u8],
    work: &mut [u8],
    work_base: u64,
    control: &mut [u8],
) -> MsaStepped
    ensures { StepsTo (whole_step program.now
        (env (board (ordered control.old) program_base table_base work_base) table.now)
        (machine vectors.old generals.old work.old (decoded control.old)))
        result vectors.new generals.new work.new control.old
        control.new }
{
    let e = msa_run(
        program,
        program_base,
        table,
        table_base,
        vectors,
        generals,
        work,
        work_base,
        control,
        1,
    );
    MsaStepped {
        reason: step_reason(e.reason),
        missing: e.missing,
    }
}

// One run of at most budget instructions.
pub fn msa_run(
    program: &[u8],
    program_base: u64,
    table: &[u8],
    table_base: u64,
    vectors: &mut [u8],
    generals: &mut [u8],
    work: &mut [u8],
    work_base: u64,
    control: &mut [u8],
    budget: u32,
) -> MsaEnded
    ensures { RunsTo (whole_run program.now
        (env (board (ordered control.old) program_base table_base work_base) table.now)
        budget
        (machine vectors.old generals.old work.old (decoded control.old)))
        result vectors.new generals.new work.new control.old
        control.new }
{
    let board = board_of(program_base, table_base, work_base, control);
    let c = block::control_of(control);
    let end = machine::run::run(board, program, table, vectors, generals, work, c, budget);
    block::settle(0 < end.count, end.control, control);
    MsaEnded {
        reason: numbers::reason_number(end.reason) as u32,
        count: end.count,
        missing: numbers::reason_missing(end.reason),
    }
}

// Why the next step would stop, or that it would not.
pub fn msa_why(
    program: &[u8],
    program_base: u64,
    table: &[u8],
    table_base: u64,
    vectors: &[u8],
    generals: &[u8],
    work: &[u8],
    work_base: u64,
    control: &[u8],
) -> MsaWhy
    ensures { result ≡ explained (why_of program.now
        (env (board (ordered control.now) program_base table_base work_base) table.now)
        (machine vectors.now generals.now work.now
        (decoded control.now))) }
{
    let board = board_of(program_base, table_base, work_base, control);
    let c = block::control_of(control);
    let y = machine::why::why(board, program, table, vectors, generals, work, c);
    MsaWhy {
        number: numbers::answer_number(y.answer) as u16,
        kind: numbers::answer_kind(y.answer) as u16,
        word: y.word,
        fact: y.fact,
    }
}

// How large a budget is enough for a run from this counter with a clear slot mark; 0 where none is known.
pub fn msa_budget(program: &[u8], program_base: u64, counter: u64) -> u32
    ensures { result ≡ budget_of program.now program_base counter }
{
    budget::forward_budget(program, program_base, counter)
}
