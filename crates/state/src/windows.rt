// The two data windows, the read-only table and the work window: where the sixteen bytes of a load or a store stand, or
// which of them is missing.
ghost use Rattle.std.specs.Prelude.{◌≡◌};
ghost use Rattle.state.specs.Windows.{placed, lies_in, first_outside, missing, spot_of};

use crate::board::Board;

// The place of the sixteen bytes from a in a window of len bytes from base.
fn find(base: u64, len: usize, a: u64) -> Option<usize>
    ensures { result ≡ placed base len a }
{
    // Not by checked_sub: that costs the second engine's loads a conditional move.
    if a < base {
        return None;
    }
    let d = a - base;
    if len < 16 {
        return None;
    }
    if d <= (len - 16) as u64 {
        Some(d as usize)
    } else {
        None
    }
}

// Whether the address x lies in a window of len bytes from base.
fn lies_in(base: u64, len: usize, x: u64) -> bool
    ensures { result ≡ lies_in base len x }
{
    if x < base {
        return false;
    }
    x - base < len as u64
}

// Of the sixteen addresses from a the first that does not lie in a window.
fn first_outside(base: u64, len: usize, a: u64) -> u64
    ensures { result ≡ first_outside 16 base len a }
{
    for k in 0..16 {
        let x = a.wrapping_add(k);
        if !lies_in(base, len, x) {
            return x;
        }
    }
    a.wrapping_add(16)
}

// The first of the sixteen addresses from a that does not lie in the window holding a. Where neither window holds a,
// that is a itself, the first outside the work window.
fn missing_of(board: Board, table: usize, work: usize, a: u64) -> u64
    ensures { result ≡ missing board table work a }
{
    if lies_in(board.table, table, a) {
        return first_outside(board.table, table, a);
    }
    first_outside(board.work, work, a)
}

#[derive(Clone, Copy, Debug, PartialEq, Eq)]
pub enum Spot {
    Table(usize),
    Work(usize),
    // the address that is missing
    Outside(u64),
}

// The one window that holds all sixteen bytes from a, or the address that is missing.
pub fn locate(board: Board, table: usize, work: usize, a: u64) -> Spot
    ensures { result ≡ spot_of board table work a }
{
    if let Some(i) = find(board.table, table, a) {
        return Spot::Table(i);
    }
    match find(board.work, work, a) {
        Some(i) => Spot::Work(i),
        None => Spot::Outside(missing_of(board, table, work, a)),
    }
}
