// One element at a width: the products and quotients of Table 4.1. Its operations on halves, which `specs` defines here
// too, are worked out on whole words (crates `parallel_halves` and `parallel_products`).
#![tactic(auto)]

pub mod division;
pub mod product;
