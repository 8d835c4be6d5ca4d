// The C entry that keeps a list of read instructions: one run, on numbers, byte slices and the list. The slices go on
// to the engine as they are lent; only the control block is read from its bytes and written back.
#![tactic(auto)]

ghost use Rattle.std.specs.Prelude.{◌≡◌};
ghost use Rattle.state.specs.Machine.{env, machine};
ghost use Rattle.entry.specs.Block.{decoded, ordered};
ghost use Rattle.entry.specs.Entry.{board};
ghost use Rattle.listed.specs.Run.{listed_run};
ghost use Rattle.entry_read.specs.Entry.{ReadsTo};

use entry::{MsaEnded, block, board_of, numbers};

// One run of at most budget instructions, each taken from the list, which is first filled from the program's words.
pub fn msa_run_read(
    program: &[u8],
    program_base: u64,
    table: &[u8],
    table_base: u64,
    vectors: &mut [u8],
    generals: &mut [u8],
    work: &mut [u8],
    work_base: u64,
    control: &mut [u8],
    list: &mut [u64],
    budget: u32,
) -> MsaEnded
    ensures { ReadsTo (listed_run program.now
        (env (board (ordered control.old) program_base table_base work_base) table.now)
        budget
        (machine vectors.old generals.old work.old (decoded control.old))
        list.old)
        result vectors.new generals.new work.new control.old
        control.new list.new }
{
    let board = board_of(program_base, table_base, work_base, control);
    let c = block::control_of(control);
    let ran = listed::run::run(
        board, program, table, vectors, generals, work, c, list, budget,
    );
    // 51 where the list is too short, and then nothing is changed
    let Some(end) = ran else {
        return MsaEnded {
            reason: 51,
            count: 0,
            missing: 0,
        };
    };
    block::settle(0 < end.count, end.control, control);
    MsaEnded {
        reason: numbers::reason_number(end.reason) as u32,
        count: end.count,
        missing: numbers::reason_missing(end.reason),
    }
}
