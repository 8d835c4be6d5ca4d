// The board that a kernel runs on, by value: all that no step changes of a set-up, beside the bytes lent for reading.
use order::Order;

#[derive(Clone, Copy, Debug, PartialEq, Eq)]
pub struct Board {
    // where the program, the table and the work window begin
    pub program: u64,
    pub table: u64,
    pub work: u64,
    // of the elements that are loaded and stored
    pub order: Order,
}
