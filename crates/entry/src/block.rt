// The control block as 24 bytes, little-endian, no byte spare: program counter (8), target of a taken mark (8), MSACSR
// (4), slot mark (2), MSA switch (1), byte order (1).
ghost use Rattle.std.specs.Prelude.{◌≡◌, cond, ◌+◌, ◌*◌, ◌^◌, ◌<◌, ◌≤◌, length};
ghost use Rattle.memory.specs.Bytes.{part, number};
ghost use Rattle.entry.specs.Block.{broken, decoded, ordered, encoded, written};
ghost use Rattle.entry.specs.Block.{mark_number, target_of, switch_number, order_number};

use order::Order;
use state::control::{Control, Mark};

// A block that no set-up accepts: its counter is no multiple of four. The definition `decoded` answers it, and no
// Option, for bytes that are no block: so limit 5 refuses them.
fn broken_block() -> Control
    ensures { result ≡ broken }
{
    Control {
        pc: 1,
        mark: Mark::Clear,
        csr: 0,
        on: false,
    }
}

// The control block that the bytes spell.
pub fn control_of(b: &[u8]) -> Control
    ensures { result ≡ decoded b.now }
{
    if b.len() != 24 {
        return broken_block();
    }
    let pc = memory::eight(b, 0);
    let csr = memory::four(b, 16);
    let switch = b[22];
    let order = b[23];
    if switch > 1 || order > 1 {
        return broken_block();
    }
    let on = switch == 1;
    match memory::two(b, 20) {
        0 => Control {
            pc,
            mark: Mark::Clear,
            csr,
            on,
        },
        1 => Control {
            pc,
            mark: Mark::NotTaken,
            csr,
            on,
        },
        2 => Control {
            pc,
            mark: Mark::Taken(memory::eight(b, 8)),
            csr,
            on,
        },
        _ => broken_block(),
    }
}

// The byte order that the block names; of bytes that are no block it does not count, since they are refused.
pub fn order_of(b: &[u8]) -> Order
    ensures { result ≡ ordered b.now }
{
    if b.len() < 24 {
        return Order::Little;
    }
    if b[23] == 1 {
        Order::Big
    } else {
        Order::Little
    }
}

// The numbers that C writes and reads in the block; no From, since they are the block's alone.
fn mark_number(k: Mark) -> u8
    ensures { result ≡ mark_number k }
{
    match k {
        Mark::Clear => 0,
        Mark::NotTaken => 1,
        Mark::Taken(_) => 2,
    }
}

fn target_of(k: Mark) -> u64
    ensures { result ≡ target_of k }
{
    match k {
        Mark::Taken(t) => t,
        Mark::Clear | Mark::NotTaken => 0,
    }
}

fn switch_number(on: bool) -> u8
    ensures { result ≡ switch_number on }
{
    if on { 1 } else { 0 }
}

fn order_number(order: Order) -> u8
    ensures { result ≡ order_number order }
{
    match order {
        Order::Little => 0,
        Order::Big => 1,
    }
}

// MSACSR, slot mark, switch and order side by side: the last eight bytes.
fn last_eight(order: Order, c: Control) -> u64
    ensures { result ≡ c.csr
        + (mark_number c.mark + (switch_number c.on + order_number order * 2 ^ 8) * 2 ^ 16) * 2 ^ 32 }
{
    let k = mark_number(c.mark) as u64;
    let on = switch_number(c.on) as u64;
    let big = order_number(order) as u64;
    c.csr as u64 + (k + (on + big * 256) * 65536) * 4294967296
}

// Writes c over a block of its length, and keeps the block's order.
fn write_block(c: Control, b: &mut [u8])
    requires { length b.old ≡ 24 }
    ensures { b.new ≡ encoded (ordered b.old) c }
{
    let order = order_of(b);
    memory::put_eight(b, 0, c.pc);
    memory::put_eight(b, 8, target_of(c.mark));
    memory::put_eight(b, 16, last_eight(order, c));
}

// Writes the block where an instruction was finished.
pub fn settle(finished: bool, c: Control, b: &mut [u8])
    ensures { b.new ≡ cond finished (written c b.old) b.old }
{
    if finished && b.len() == 24 {
        write_block(c, b);
    }
}
