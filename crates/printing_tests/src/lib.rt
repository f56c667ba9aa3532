// Many small link files, each with what is printed of it.
#![tactic(auto)]

#[cfg(test)]
mod files;
