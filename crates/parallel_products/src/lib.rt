// Products and quotients of all elements of a word. A product needs twice the element's bits, so it goes element by
// element, in a loop with nothing to choose in it; the width is a constant at each call of such a loop, and so the
// compiler unrolls it. The sums of DPADD and DPSUB go by words again.
#![tactic(auto)]

pub mod dispatch;
pub mod division;
pub mod dot;
pub mod fixed_point;
pub mod product;
