// What a machine is set up of: the board, the control block, the program, the two data windows, the limits that a
// set-up must keep; and why a step stops.
#![tactic(auto)]

pub mod board;
pub mod control;
pub mod fetch;
pub mod setup;
pub mod stops;
pub mod windows;
