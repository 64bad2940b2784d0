// Heights of the firms, the bound that they give, and the theorems of the clearing day.
#![tactic(auto)]

mod bounds;
mod fitting;
mod low;
mod theorems;

pub use bounds::bound;
pub use fitting::fit;
