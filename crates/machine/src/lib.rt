// The emulator: a plan is done by `effect`, an instruction that was read by `act`, one at the program counter by
// `step`, a budget of them by `run`; `why` says how the next step would end, which `ahead` finds, and no step is done.
// Lent memory is bytes; the control block goes by value. The public entries, `step::step`, `run::run` and `why::why`,
// refuse a bad set-up themselves. What is lent goes apart and not in a struct: fields that are lent together behind a
// reference have no proof.
#![tactic(auto)]

pub mod act;
pub mod advance;
mod ahead;
pub mod effect;
pub mod run;
pub mod step;
mod turns;
pub mod why;
