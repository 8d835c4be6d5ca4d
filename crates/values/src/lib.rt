// What an entry makes of registers, for the second engine: one flat match on the code, with both words of the register
// in each arm, so that the compiler makes one jump of it and keeps the words in machine registers.
#![tactic(auto)]

pub(crate) mod both;
pub mod operands;
pub mod others;
pub mod quick;
pub mod seldom;
pub mod shuffles;
