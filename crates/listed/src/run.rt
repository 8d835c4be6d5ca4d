// A run from a list: refused by the first broken limit, by 51 after them, or as the plain engine runs it.
ghost use Rattle.std.specs.Prelude.{◌≡◌, length};
ghost use Rattle.state.specs.Machine.{env, machine};
ghost use Rattle.listed.specs.Run.{listed_run, accepted_run, ListedIs};
ghost use Rattle.listed.specs.Turn.{Stands};

use crate::off::turns_off;
use crate::turns::turns;
use entries::filled::fill;
use machine::run::{Ended, Reason};
use state::board::Board;
use state::control::Control;
use state::setup;

// A run of a set-up that was accepted: none where the list is too short, and then nothing is changed; or every word is
// read, once, and the run is made.
fn accepted(
    board: Board,
    program: &[u8],
    table: &[u8],
    vectors: &mut [u8; 512],
    generals: &mut [u8; 256],
    work: &mut [u8],
    c: Control,
    list: &mut [u64],
    budget: u32,
) -> Option<Ended>
    requires { Stands board.program program.now }
    ensures { ListedIs (accepted_run program.now (env board table.now) budget
        (machine vectors.old generals.old work.old c) list.old)
        result vectors.new generals.new work.new list.new }
{
    let words = program.len() / 4;
    if list.len() < words {
        return None;
    }
    fill(program, list);
    let ended = if c.on {
        turns(
            board,
            list,
            words as u64,
            table,
            vectors,
            generals,
            work,
            c,
            budget,
        )
    } else {
        turns_off(board, list, words as u64, generals, c, budget)
    };
    Some(ended)
}

// A run of at most budget instructions, from the list; none where the list is too short.
pub fn run(
    board: Board,
    program: &[u8],
    table: &[u8],
    vectors: &mut [u8],
    generals: &mut [u8],
    work: &mut [u8],
    c: Control,
    list: &mut [u64],
    budget: u32,
) -> Option<Ended>
    ensures { ListedIs (listed_run program.now (env board table.now) budget
        (machine vectors.old generals.old work.old c) list.old)
        result vectors.new generals.new work.new list.new }
{
    if let Err(r) = setup::check(board, program, table, vectors, generals, work, c) {
        return Some(Ended {
            reason: Reason::Refused(r),
            count: 0,
            control: c,
        });
    }
    let Some(vectors) = vectors.as_mut_array() else {
        unreachable!()
    };
    let Some(generals) = generals.as_mut_array() else {
        unreachable!()
    };
    accepted(
        board, program, table, vectors, generals, work, c, list, budget,
    )
}
