//! Rows about lists: patterns, lines, keys and numbers of names. What a row asks, what it answers, and how both are written.
#![tactic(auto)]

pub mod answer;
pub mod fault;
pub mod keys;
pub mod lines;
pub mod matches;
pub mod numbers;
pub mod patterns;
pub mod row;
pub mod scene;
