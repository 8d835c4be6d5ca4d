// One element at a width: the counts of Table 4.2. Its other operations, and SAT, which `specs` defines here too, are
// worked out on whole words (crate `parallel_bits`).
#![tactic(auto)]

pub mod counts;
