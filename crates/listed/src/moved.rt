// Codes 105 to 108: moves to general registers, and the control registers, with the vector unit on.
ghost use Rattle.std.specs.Prelude.{◌≡◌, ℕ, List, length};
ghost use Rattle.acts.specs.Act.{move_of};
ghost use Rattle.state.specs.Machine.{machine};

use entries::parts::*;
use isa::{Copied, Creg, Greg, Vreg};
use memory::file::read_register;
use plan::moves::copied;
use plan::{Plan, moves};
use state::control::Control;

pub fn moved(e: u64, vectors: &[u8; 512], generals: &[u8; 256], c: Control) -> Plan
    ensures { (w : List ℕ) → result ≡ move_of (machine vectors.now generals.now w c) e }
{
    let g = Greg(dest_of(e));
    let s = source_of(e);
    match code_of(e) {
        105 => Plan::General(
            g,
            copied(
                Copied::CopyS,
                width_of(e),
                read_register(vectors, Vreg(s)),
                imm_of(e),
            ),
        ),
        106 => Plan::General(
            g,
            copied(
                Copied::CopyU,
                width_of(e),
                read_register(vectors, Vreg(s)),
                imm_of(e),
            ),
        ),
        107 => moves::from_control(g, Creg(s), c.csr),
        _ => moves::to_control(Creg(dest_of(e)), moves::general(generals, Greg(s))),
    }
}
