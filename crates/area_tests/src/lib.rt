// Areas that are opened, changed, settled, asked and loaded: a worked example, refusals and link files.
#![tactic(auto)]

#[cfg(test)]
mod changes;
#[cfg(test)]
mod loads;
#[cfg(test)]
mod net_k;
#[cfg(test)]
mod order;
#[cfg(test)]
mod setup;
