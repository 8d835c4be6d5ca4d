// The C entry that keeps a list of read instructions, as an archive: the function is that of crate `entry_read`, with its
// promise stated again.
#![tactic(auto)]

ghost use Rattle.state.specs.Machine.{env, machine};
ghost use Rattle.entry.specs.Block.{decoded, ordered};
ghost use Rattle.entry.specs.Entry.{board};
ghost use Rattle.listed.specs.Run.{listed_run};
ghost use Rattle.entry_read.specs.Entry.{ReadsTo};

use entry::MsaEnded;

// One run of at most budget instructions, each taken from the list, which is first filled from the program's words.
#[unsafe(no_mangle)]
pub extern "C" fn msa_run_read(
    program: &[u8],
    program_base: u64,
    table: &[u8],
    table_base: u64,
    vectors: &mut [u8],
    generals: &mut [u8],
    work: &mut [u8],
    work_base: u64,
    control: &mut [u8],
    list: &mut [u64],
    budget: u32,
) -> MsaEnded
    ensures { ReadsTo (listed_run program.now
        (env (board (ordered control.old) program_base table_base work_base) table.now)
        budget
        (machine vectors.old generals.old work.old (decoded control.old))
        list.old)
        result vectors.new generals.new work.new control.old
        control.new list.new }
{
    entry_read::msa_run_read(
        program,
        program_base,
        table,
        table_base,
        vectors,
        generals,
        work,
        work_base,
        control,
        list,
        budget,
    )
}
