// One element at a width: sums and differences that wrap, by the four widths, and a sum that is held to a range. The
// other operations that `specs` defines here, of Tables 4.1 and 4.8, are worked out on whole words (crate `parallel`).
#![tactic(auto)]

pub mod clip;
pub mod wrapping;
