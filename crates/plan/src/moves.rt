// Plans of the moves between files and of loads and stores.
ghost use Rattle.std.specs.Prelude.{◌≡◌, ◌<◌, length};
ghost use Rattle.memory.specs.File.{register_at};
ghost use Rattle.memory.specs.Value.{value};
ghost use Rattle.state.specs.Windows.{spot_of};
ghost use Rattle.plan.specs.Numbers.{control_read, copy_of};
ghost use Rattle.plan.specs.Plan.{general_at, loaded, stored, accessed, to_control};

use crate::Plan;
use crate::trap::{arming, has_trap};
use isa::{Copied, Creg, Greg, Memory, Vreg, Width};
use memory::Register;
use memory::file::read_register;
use order::turn;
use permute::moves::{copy_s, copy_u};
use state::board::Board;
use state::setup::mask;
use state::stops::Stop;
use state::windows::{Spot, locate};

// A number past 31 names no register: its value is 0.
pub fn general(generals: &[u8; 256], r: Greg) -> u64
    ensures { result ≡ general_at generals.now r }
{
    if 31 < r.0 {
        return 0;
    }
    let n = r.0 as usize;
    memory::eight(generals, 8 * n)
}

pub fn copied(op: Copied, df: Width, s: Register, n: u64) -> u64
    ensures { result ≡ copy_of op df (value s) n }
{
    match op {
        Copied::CopyS => copy_s(df, s, n),
        Copied::CopyU => copy_u(df, s, n),
    }
}

pub fn copy(op: Copied, df: Width, rd: Greg, ws: Vreg, n: u8, vectors: &[u8; 512]) -> Plan
    ensures { result ≡ Plan.General rd (copy_of op df (register_at vectors.now ws) n) }
{
    Plan::General(rd, copied(op, df, read_register(vectors, ws), n as u64))
}

pub fn from_control(rd: Greg, cs: Creg, csr: u32) -> Plan
    ensures { result ≡ Plan.General rd (control_read cs.0 csr) }
{
    if cs.0 == 1 {
        Plan::General(rd, csr as u64)
    } else {
        Plan::General(rd, 0)
    }
}

pub fn to_control(cd: Creg, x: u64) -> Plan
    ensures { result ≡ to_control cd.0 x }
{
    if cd.0 == 1 {
        let v = mask(x);
        if has_trap(v) {
            return Plan::Stop(Stop::Trap(arming(v)));
        }
        return Plan::Csr(v);
    }
    Plan::Nothing
}

pub fn load(df: Width, wd: Vreg, a: u64, board: Board, table: &[u8], work: &[u8]) -> Plan
    ensures { result ≡ loaded (spot_of board (length table.now) (length work.now) a)
        board.order df wd table.now work.now }
{
    match locate(board, table.len(), work.len(), a) {
        Spot::Table(i) => Plan::Vector(wd, turn(board.order, df, memory::sixteen(table, i))),
        Spot::Work(i) => Plan::Vector(wd, turn(board.order, df, memory::sixteen(work, i))),
        Spot::Outside(x) => Plan::Stop(Stop::NoWindow(x)),
    }
}

pub fn store(
    df: Width,
    wd: Vreg,
    a: u64,
    board: Board,
    table: usize,
    work: usize,
    vectors: &[u8; 512],
) -> Plan
    ensures { result ≡ stored (spot_of board table work a) board.order df a
        (register_at vectors.now wd) }
{
    match locate(board, table, work, a) {
        Spot::Table(_) => Plan::Stop(Stop::ReadOnly(a)),
        Spot::Work(_) => Plan::Store(a, turn(board.order, df, read_register(vectors, wd))),
        Spot::Outside(x) => Plan::Stop(Stop::NoWindow(x)),
    }
}

// LD and ST at the address a.
pub fn access(
    op: Memory,
    df: Width,
    wd: Vreg,
    a: u64,
    board: Board,
    table: &[u8],
    vectors: &[u8; 512],
    work: &[u8],
) -> Plan
    ensures { result ≡ accessed op df board table.now vectors.now work.now wd a }
{
    match op {
        Memory::Ld => load(df, wd, a, board, table, work),
        Memory::St => store(df, wd, a, board, table.len(), work.len(), vectors),
    }
}
