// Plans of the branches: each sets the slot mark, taken or not.
ghost use Rattle.std.specs.Prelude.{◌≡◌, ◌<◌, length};
ghost use Rattle.memory.specs.File.{register_at};
ghost use Rattle.plan.specs.Zero.{taken_of, taken_vof};
ghost use Rattle.plan.specs.Numbers.{target};
ghost use Rattle.plan.specs.Plan.{marked};

use crate::Plan;
use crate::address::target_of;
use crate::zero::{taken, taken_v};
use isa::{Vreg, Width, Zero};
use memory::file::read_register;
use state::control::Mark;

pub fn mark_of(taken: bool, to: u64) -> Mark
    ensures { result ≡ marked taken to }
{
    if taken {
        Mark::Taken(to)
    } else {
        Mark::NotTaken
    }
}

pub fn branch(op: Zero, df: Width, wt: Vreg, offset: u16, vectors: &[u8; 512], pc: u64) -> Plan
    ensures { result ≡ Plan.Branch (marked (taken_of op df (register_at vectors.now wt))
        (target pc offset)) }
{
    let is = taken(op, df, read_register(vectors, wt));
    Plan::Branch(mark_of(is, target_of(pc, offset)))
}

pub fn branch_v(op: Zero, wt: Vreg, offset: u16, vectors: &[u8; 512], pc: u64) -> Plan
    ensures { result ≡ Plan.Branch (marked (taken_vof op (register_at vectors.now wt))
        (target pc offset)) }
{
    let is = taken_v(op, read_register(vectors, wt));
    Plan::Branch(mark_of(is, target_of(pc, offset)))
}
