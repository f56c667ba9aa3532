// Lists of calls that are made one after another on an area, with memories that they share.
#![tactic(auto)]

#[cfg(test)]
mod calls;
