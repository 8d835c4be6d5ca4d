// What stops an instruction, by what its word says of stops: what its plan would name, and no plan is made.
ghost use Rattle.std.specs.Prelude.{◌≡◌, length};
ghost use Rattle.state.specs.Windows.{spot_of};
ghost use Rattle.plan.specs.Plan.{stop_in};
ghost use Rattle.plan.specs.Ahead.{table_early, place_early, stop_ahead, Within};

use crate::address::address;
use crate::early::{branch_early, switched_early};
use crate::{Plan, moves};
use isa::Memory;
use meaning::memory_at;
use reading::ahead::Ahead;
use state::board::Board;
use state::control::Control;
use state::stops::Stop;
use state::windows::{Spot, locate};

// The reason that a plan names, if any.
pub fn stop_in(p: Plan) -> Result<(), Stop>
    ensures { result ≡ stop_in p }
{
    match p {
        Plan::Stop(s) => Err(s),
        _ => Ok(()),
    }
}

// 18, where the sixteen bytes from a stand in the table.
fn table_early(op: Memory, a: u64) -> Result<(), Stop>
    ensures { result ≡ table_early op a }
{
    match op {
        Memory::Ld => Ok(()),
        Memory::St => Err(Stop::ReadOnly(a)),
    }
}

// 17 and 18 of LD and ST, by where the sixteen bytes from a stand.
fn place_early(op: Memory, board: Board, table: usize, work: usize, a: u64) -> Result<(), Stop>
    ensures { result ≡ place_early op a (spot_of board table work a) }
{
    match locate(board, table, work, a) {
        Spot::Table(_) => table_early(op, a),
        Spot::Work(_) => Ok(()),
        Spot::Outside(x) => Err(Stop::NoWindow(x)),
    }
}

// What stops the instruction in this state; table and work are the lengths of the windows.
pub fn stop_ahead(
    a: Ahead,
    board: Board,
    table: usize,
    generals: &[u8; 256],
    work: usize,
    c: Control,
) -> Result<(), Stop>
    requires { Within a }
    ensures { result ≡ stop_ahead a board table generals.now work c }
{
    match a {
        Ahead::Not(u) => Err(Stop::Unread(u)),
        Ahead::Free => Ok(()),
        Ahead::Branch => branch_early(c.mark, c.on),
        Ahead::Vector => switched_early(c.on),
        Ahead::Control(cd, rs) => {
            switched_early(c.on)?;
            stop_in(moves::to_control(cd, moves::general(generals, rs)))
        }
        Ahead::Memory(o, df, offset, rs) => {
            switched_early(c.on)?;
            let x = address(df, offset, moves::general(generals, rs));
            place_early(memory_at(o), board, table, work, x)
        }
    }
}
