// Tests of set-offs and heights: the worked days, the edges of each rule, and days at random.
#![tactic(auto)]

#[cfg(test)]
mod days;
#[cfg(test)]
mod edges;
#[cfg(test)]
mod helpers;
#[cfg(test)]
mod random;
#[cfg(test)]
mod worked;
