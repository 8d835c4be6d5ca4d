// The order of bytes in memory. A board keeps an element from its least significant byte on, or from its most
// significant one. A register is turned a word of 64 bits at a time: neighbouring bytes change places, then
// neighbouring twos, then fours, as far as an element reaches.
#![tactic(auto)]

ghost use Rattle.std.specs.Prelude.{◌≡◌, ◌<◌, ◌≤◌};
ghost use Rattle.isa.specs.Widths.{bytes};
ghost use Rattle.memory.specs.Value.{value, register};
ghost use Rattle.order.specs.Order.{place, turned};
ghost use Rattle.order.specs.Moved.{neighbour, Lower, Moved, Size};

use isa::Width;
use memory::Register;

#[derive(Clone, Copy, Debug, PartialEq, Eq)]
pub enum Order {
    Little,
    Big,
}

// Neighbouring groups of n bytes of a word change places; m has the ones of the lower group of each two.
fn exchanged(x: u64, n: u64, m: u64) -> u64
    requires { (0 < n) × (n ≤ 4) × Lower n m }
    ensures { Moved x (neighbour n) result }
{
    let s = 8 * n;
    ((x >> s) & m) | ((x & m) << s)
}

// The bytes of each element of n bytes of a word, the other way round.
fn turned_by(n: u64, x: u64) -> u64
    requires { Size n }
    ensures { Moved x (place Order.Big n) result }
{
    if n == 1 {
        return x;
    }
    let twos = exchanged(x, 1, 0x00FF_00FF_00FF_00FF);
    if n == 2 {
        return twos;
    }
    let fours = exchanged(twos, 2, 0x0000_FFFF_0000_FFFF);
    if n == 4 {
        return fours;
    }
    exchanged(fours, 4, 0x0000_0000_FFFF_FFFF)
}

fn turned_word(w: Width, x: u64) -> u64
    ensures { Moved x (place Order.Big (bytes w)) result }
{
    match w {
        Width::B => turned_by(1, x),
        Width::H => turned_by(2, x),
        Width::W => turned_by(4, x),
        Width::D => turned_by(8, x),
    }
}

// A register as its elements of this width stand in memory, and what stands in memory as a register: each is the other.
pub fn turn(order: Order, w: Width, v: Register) -> Register
    ensures { result ≡ register (turned order (bytes w) (value v)) }
{
    match order {
        Order::Little => v,
        Order::Big => Register {
            low: turned_word(w, v.low),
            high: turned_word(w, v.high),
        },
    }
}
