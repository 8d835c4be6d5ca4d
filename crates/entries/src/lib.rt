// The entries of a list of read instructions: what a word asks for, in one number that is ready to be acted on. `words`
// makes the entry of a word, `filled` the list of a program, and `parts` cuts a number into the parts of an entry.
#![tactic(auto)]

mod classes;
mod codes;
pub mod filled;
mod forms;
mod immediates;
mod packing;
pub mod parts;
pub mod words;
