// The second engine: the program's words are read once into a lent list, and each step takes its entry from there. The
// loop is not given the program. `place` says where the next entry stands, `kept` what it is kept as, `steps` does what
// it asks for, `turns` a budget of such steps, and `run` refuses a bad set-up, fills the list and runs.
#![tactic(auto)]

mod common;
mod kept;
mod moved;
mod off;
mod place;
pub mod run;
mod steps;
mod turns;
