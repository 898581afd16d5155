//! Tests of what no row of `rows` says: types and their traits, a parser of its own, reads of real files, and refused memory.
#![tactic(auto)]

#[cfg(test)]
mod tests;
