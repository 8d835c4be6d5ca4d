// The C entry as an archive: each function is that of crate `entry`, with its promise stated again.
#![tactic(auto)]

ghost use Rattle.std.specs.Prelude.{◌≡◌};
ghost use Rattle.budget.specs.Budget.{budget_of};
ghost use Rattle.state.specs.Machine.{env, machine};
ghost use Rattle.machine.specs.Run.{whole_run};
ghost use Rattle.machine.specs.Step.{whole_step};
ghost use Rattle.machine.specs.Why.{why_of};
ghost use Rattle.entry.specs.Block.{decoded, ordered};
ghost use Rattle.entry.specs.Entry.{board, StepsTo, RunsTo};
ghost use Rattle.entry.specs.Why.{explained};

use entry::{MsaEnded, MsaStepped, MsaWhy};

// One step: a run of one instruction. So the machine stands in one function for both, whose frame they share.
#[unsafe(no_mangle)]
pub extern "C" fn msa_step(
    program: &[u8],
    program_base: u64,
    table: &[u8],
    table_base: u64,
    vectors: &mut [u8],
    generals: &mut [u8],
    work: &mut [u8],
    work_base: u64,
    control: &mut [u8],
) -> MsaStepped
    ensures { StepsTo (whole_step program.now
        (env (board (ordered control.old) program_base table_base work_base) table.now)
        (machine vectors.old generals.old work.old (decoded control.old)))
        result vectors.new generals.new work.new control.old
        control.new }
{
    entry::msa_step(
        program,
        program_base,
        table,
        table_base,
        vectors,
        generals,
        work,
        work_base,
        control,
    )
}

// One run of at most budget instructions.
#[unsafe(no_mangle)]
pub extern "C" fn msa_run(
    program: &[u8],
    program_base: u64,
    table: &[u8],
    table_base: u64,
    vectors: &mut [u8],
    generals: &mut [u8],
    work: &mut [u8],
    work_base: u64,
    control: &mut [u8],
    budget: u32,
) -> MsaEnded
    ensures { RunsTo (whole_run program.now
        (env (board (ordered control.old) program_base table_base work_base) table.now)
        budget
        (machine vectors.old generals.old work.old (decoded control.old)))
        result vectors.new generals.new work.new control.old
        control.new }
{
    entry::msa_run(
        program,
        program_base,
        table,
        table_base,
        vectors,
        generals,
        work,
        work_base,
        control,
        budget,
    )
}

// Why the next step would stop, or that it would not.
#[unsafe(no_mangle)]
pub extern "C" fn msa_why(
    program: &[u8],
    program_base: u64,
    table: &[u8],
    table_base: u64,
    vectors: &[u8],
    generals: &[u8],
    work: &[u8],
    work_base: u64,
    control: &[u8],
) -> MsaWhy
    ensures { result ≡ explained (why_of program.now
        (env (board (ordered control.now) program_base table_base work_base) table.now)
        (machine vectors.now generals.now work.now
        (decoded control.now))) }
{
    entry::msa_why(
        program,
        program_base,
        table,
        table_base,
        vectors,
        generals,
        work,
        work_base,
        control,
    )
}

// How large a budget is enough for a run from this counter with a clear slot mark; 0 where none is known.
#[unsafe(no_mangle)]
pub extern "C" fn msa_budget(program: &[u8], program_base: u64, counter: u64) -> u32
    ensures { result ≡ budget_of program.now program_base counter }
{
    entry::msa_budget(program, program_base, counter)
}
