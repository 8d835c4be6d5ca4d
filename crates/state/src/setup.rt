// The set-up limits 1 to 5: a step or a run is refused by the first that is broken, and then changes nothing.
ghost use Rattle.std.specs.Prelude.{◌≡◌, ◌+◌, ◌^◌, length, if◌then◌else◌, nat_lt, Ok, Err};
ghost use Rattle.state.specs.Machine.{env, machine};
ghost use Rattle.state.specs.Csr.{masked};
ghost use Rattle.state.specs.Numbers.{refusal_number};
ghost use Rattle.state.specs.Setup.{registers_bad, program_bad, window_bad, shares, target_bad, state_bad, later_limits, first, refusal, Checks};

use crate::board::Board;
use crate::control::{Control, Mark};

// Why a set-up is refused: 1 to 5.
#[derive(Clone, Copy, Debug, PartialEq, Eq)]
pub enum Refusal {
    Registers,
    Program,
    WindowSize,
    SharedAddress,
    State,
}

impl From<Refusal> for u8 {
    ghost from_gives = { λ r n. n ≡ refusal_number r };

    fn from(r: Refusal) -> u8 {
        match r {
            Refusal::Registers => 1,
            Refusal::Program => 2,
            Refusal::WindowSize => 3,
            Refusal::SharedAddress => 4,
            Refusal::State => 5,
        }
    }
}

fn registers_bad(vectors: usize, generals: usize) -> bool
    ensures { result ≡ registers_bad vectors generals }
{
    (vectors != 512) | (generals != 256)
}

// Whether n bytes from base pass 2^64.
fn passes(base: u64, n: usize) -> bool
    ensures { result ≡ nat_lt (2 ^ 64) (base + n) }
{
    if base == 0 {
        return false;
    }
    u64::MAX - base + 1 < n as u64
}

pub fn program_bad(base: u64, n: usize) -> bool
    ensures { result ≡ program_bad base n }
{
    (base % 4 != 0) | (n % 4 != 0) | (262144 < n) | passes(base, n)
}

fn window_bad(base: u64, n: usize) -> bool
    ensures { result ≡ window_bad base n }
{
    (1048576 < n) | passes(base, n)
}

// Whether a window of n bytes from a reaches past b.
fn reaches(a: u64, n: usize, b: u64) -> bool
    ensures { result ≡ nat_lt b (a + n) }
{
    if b < a {
        return true;
    }
    b - a < n as u64
}

fn windows_share(a: u64, n: usize, b: u64, k: usize) -> bool
    ensures { result ≡ shares a n b k }
{
    (n != 0) & (k != 0) & reaches(a, n, b) & reaches(b, k, a)
}

fn target_bad(k: Mark) -> bool
    ensures { result ≡ target_bad k }
{
    match k {
        Mark::Clear | Mark::NotTaken => false,
        Mark::Taken(t) => t % 4 != 0,
    }
}

// The bits of MSACSR that exist, 0107FFFF hex.
pub fn mask(x: u64) -> u32
    ensures { result ≡ masked x }
{
    (x % 524288 + 16777216 * (x / 16777216 % 2)) as u32
}

fn state_bad(zero: u64, c: Control) -> bool
    ensures { result ≡ state_bad zero c }
{
    (zero != 0) | (c.pc % 4 != 0) | target_bad(c.mark) | (mask(c.csr as u64) != c.csr)
}

// One row of the table of limits.
fn unless(broken: bool, r: Refusal) -> Result<(), Refusal>
    ensures { result ≡ (if broken then Err r else Ok tt) }
{
    if broken { Err(r) } else { Ok(()) }
}

// The limits 2 to 5.
fn later(
    board: Board,
    program: usize,
    table: usize,
    generals: &[u8],
    work: usize,
    c: Control,
) -> Result<(), Refusal>
    requires { length generals.now ≡ 256 }
    ensures { result ≡ first (later_limits board program table generals.now work c) }
{
    unless(program_bad(board.program, program), Refusal::Program)?;
    let sizes = window_bad(board.table, table) | window_bad(board.work, work);
    unless(sizes, Refusal::WindowSize)?;
    let shared = windows_share(board.table, table, board.work, work);
    unless(shared, Refusal::SharedAddress)?;
    unless(state_bad(memory::eight(generals, 0), c), Refusal::State)
}

// The first limit that is broken.
pub fn check(
    board: Board,
    program: &[u8],
    table: &[u8],
    vectors: &[u8],
    generals: &[u8],
    work: &[u8],
    c: Control,
) -> Result<(), Refusal>
    ensures { Checks (refusal program.now (env board table.now) (machine vectors.now generals.now work.now c)) result }
{
    let registers = registers_bad(vectors.len(), generals.len());
    unless(registers, Refusal::Registers)?;
    later(board, program.len(), table.len(), generals, work.len(), c)
}
