// Small runs of puts and cuts on each table, and what the rules read.
#![tactic(auto)]

#[cfg(test)]
mod rules;
#[cfg(test)]
mod runs;
