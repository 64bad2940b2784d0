// Tests of reading a day: each refusal at its edges, the order of the rules, lent memory, and files that are written and read back.
#![tactic(auto)]

#[cfg(test)]
mod edges;
#[cfg(test)]
mod helpers;
#[cfg(test)]
mod memory;
#[cfg(test)]
mod order;
#[cfg(test)]
mod written;
