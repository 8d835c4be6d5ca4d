// The file of 32 vector registers, 512 lent bytes: register r stands at 16r.
ghost use Rattle.std.specs.Prelude.{◌≡◌, ◌<◌, length};
ghost use Rattle.memory.specs.File.{register_at, with_register};
ghost use Rattle.memory.specs.Value.{value, Holds};

use crate::Register;
use isa::Vreg;

// A number past 31 names no register: no byte stands there, and the value is 0.
#[tactic(auto, unfolding(crate::specs::File::register_at))]
pub fn read_register(file: &[u8; 512], r: Vreg) -> Register
    ensures { Holds result (register_at file.now r) }
{
    if 31 < r.0 {
        return Register { low: 0, high: 0 };
    }
    let n = r.0 as usize;
    crate::sixteen(file, 16 * n)
}

// Writes v as register r, and no other byte.
#[tactic(auto, unfolding(crate::specs::File::with_register))]
pub fn write_register(file: &mut [u8; 512], r: Vreg, v: Register)
    requires { r.0 < 32 }
    ensures { file.new ≡ with_register file.old r (value v) }
{
    let n = r.0 as usize;
    crate::put_sixteen(file, 16 * n, v);
}
