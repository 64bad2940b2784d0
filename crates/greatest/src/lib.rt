// The greatest set-off of a day with its heights: rings are struck out until none is left that gains.
#![tactic(auto)]

mod climbing;
mod settling;
