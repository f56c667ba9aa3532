// Roots that are settled over both ways to keep the links: over their numbers, and over the costs read from these.
#![tactic(auto)]

#[cfg(test)]
mod agrees;
#[cfg(test)]
mod copies;
#[cfg(test)]
mod net_k;
