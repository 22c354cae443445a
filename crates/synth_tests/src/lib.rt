//! Tests across the crates, of what no script of cases can reach.
#![tactic(auto)]

#[cfg(test)]
mod tree_memory;
