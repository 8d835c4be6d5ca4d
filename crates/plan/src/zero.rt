// When a branch is taken.
ghost use Rattle.std.specs.Prelude.{◌≡◌, ◌/◌};
ghost use Rattle.isa.specs.Widths.{bits};
ghost use Rattle.memory.specs.Value.{value};
ghost use Rattle.plan.specs.Zero.{some_zero, taken_if, taken_of, taken_vof};

use isa::{Width, Zero};
use memory::Register;
use parallel::order::compared;
use parallel::tops;

// Whether some element of a word is zero: 0 is not below it.
fn zero_in(w: Width, x: u64) -> bool
    ensures { result ≡ some_zero (bits w) x (64 / bits w) }
{
    (compared(w, 0, x) & tops(w)) != 0
}

// Whether some element is zero.
fn some_zero(w: Width, v: Register) -> bool
    ensures { result ≡ some_zero (bits w) (value v) (128 / bits w) }
{
    zero_in(w, v.high) | zero_in(w, v.low)
}

fn taken_if(op: Zero, zero: bool) -> bool
    ensures { result ≡ taken_if op zero }
{
    match op {
        Zero::Bz => zero,
        Zero::Bnz => !zero,
    }
}

pub fn taken(op: Zero, df: Width, t: Register) -> bool
    ensures { result ≡ taken_of op df (value t) }
{
    taken_if(op, some_zero(df, t))
}

pub fn taken_v(op: Zero, t: Register) -> bool
    ensures { result ≡ taken_vof op (value t) }
{
    taken_if(op, (t.low == 0) & (t.high == 0))
}
