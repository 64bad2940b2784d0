// Rings: the residual steps of a flow, the search for a ring that gains, and striking out along it.
#![tactic(auto)]

mod chains;
mod days;
mod improving;
mod last_steps;
mod network;
mod residual;
mod rows;
mod scratch;
mod search;
mod steps;
mod striking;
mod tries;
mod ways;

pub use improving::improve;
pub use network::Network;
pub use rows::Unfit;
pub use scratch::Scratch;
