// Every operation with a data format of Tables 4.1, 4.2, 4.7 and 4.8 behind one name, on all elements of a word.
#![tactic(auto)]

use isa::{Arith, BitOp, Count, Fixed};

pub mod dispatch;

#[derive(Clone, Copy)]
pub enum Lane {
    Arith(Arith),
    Bit(BitOp),
    Count(Count),
    Fixed(Fixed),
}
