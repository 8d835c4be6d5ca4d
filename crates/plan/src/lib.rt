// What an instruction would do to a machine, as a value. Nothing is changed here: a plan names the reason to stop, or
// the one thing that changes beside the program counter and the slot mark. So the sources are always the values before
// the step, and two machines can be compared by their plans.
#![tactic(auto)]

mod address;
pub mod ahead;
pub mod branch;
pub mod early;
pub mod moves;
pub mod planned;
pub mod scaled;
mod trap;
mod vector;
pub mod zero;

use isa::{Greg, Vreg};
use memory::Register;
use state::control::Mark;
use state::stops::Stop;

// Stop is one of seven, and no Err around the others: the definitions of specs/Plan have it so.
#[derive(Clone, Copy)]
pub enum Plan {
    Stop(Stop),
    Nothing,
    Vector(Vreg, Register),
    General(Greg, u64),
    // the register's sixteen bytes go to this address of the work window
    Store(u64, Register),
    Csr(u32),
    Branch(Mark),
}
