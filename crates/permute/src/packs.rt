// PCKEV, PCKOD, ILVEV, ILVOD, ILVL, ILVR by words. Words of 64-bit elements are handed on as they are.
ghost use Rattle.std.specs.Prelude.{◌≡◌, ◌<◌};
ghost use Rattle.isa.specs.Widths.{bits};
ghost use Rattle.memory.specs.Value.{value, register};
ghost use Rattle.vectors.specs.Register.{whole};
ghost use Rattle.permute.specs.Permute.{packed};

use isa::{Pack, Width};
use memory::Register;
use parallel_pack::{every_second, half_in_turns, second_in_turns};

// Elements of fewer than 64 bits.
pub fn narrow(op: Pack, w: Width, s: Register, t: Register) -> Register
    requires { bits w < 64 }
    ensures { result ≡ register (whole (bits w) (packed op (bits w) (value s) (value t))) }
{
    match op {
        Pack::Pckev => Register {
            low: every_second(w, 0, t),
            high: every_second(w, 0, s),
        },
        Pack::Pckod => Register {
            low: every_second(w, 1, t),
            high: every_second(w, 1, s),
        },
        Pack::Ilvl => Register {
            low: half_in_turns(w, 0, s.high, t.high),
            high: half_in_turns(w, 1, s.high, t.high),
        },
        Pack::Ilvr => Register {
            low: half_in_turns(w, 0, s.low, t.low),
            high: half_in_turns(w, 1, s.low, t.low),
        },
        Pack::Ilvev => Register {
            low: second_in_turns(w, 0, s.low, t.low),
            high: second_in_turns(w, 0, s.high, t.high),
        },
        Pack::Ilvod => Register {
            low: second_in_turns(w, 1, s.low, t.low),
            high: second_in_turns(w, 1, s.high, t.high),
        },
    }
}

// A register of two elements.
pub fn wide(op: Pack, w: Width, s: Register, t: Register) -> Register
    requires { bits w ≡ 64 }
    ensures { result ≡ register (whole (bits w) (packed op (bits w) (value s) (value t))) }
{
    match op {
        Pack::Pckev | Pack::Ilvr | Pack::Ilvev => Register {
            low: t.low,
            high: s.low,
        },
        Pack::Pckod | Pack::Ilvl | Pack::Ilvod => Register {
            low: t.high,
            high: s.high,
        },
    }
}
