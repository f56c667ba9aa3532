// Sequences of pushes and pops, each with what it answers.
#![tactic(auto)]

#[cfg(test)]
mod paths;
#[cfg(test)]
mod served;
#[cfg(test)]
mod sizes;
#[cfg(test)]
mod sums;
