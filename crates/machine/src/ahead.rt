// How the next step would end, from what its word says of stops. The step is not done: memory is lent for reading, and
// of the windows their lengths are enough.
ghost use Rattle.std.specs.Prelude.{◌≡◌, length};
ghost use Rattle.machine.specs.Ahead.{end_of};

use plan::ahead::stop_ahead;
use reading::ahead::ahead_of;
use state::board::Board;
use state::control::Control;
use state::fetch;
use state::stops::Stop;

// How the next step ends.
pub fn end_of(
    board: Board,
    program: &[u8],
    table: &[u8],
    generals: &[u8; 256],
    work: &[u8],
    c: Control,
) -> Result<(), Stop>
    ensures { result ≡ end_of program.now board table.now generals.now
        work.now c }
{
    let Some(w) = fetch::word_at(program, board.program, c.pc) else {
        return Err(Stop::NoWord);
    };
    stop_ahead(ahead_of(w), board, table.len(), generals, work.len(), c)
}
