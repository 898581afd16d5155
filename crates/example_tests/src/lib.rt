//! Worked examples of the definitions that a reader has to believe (docs/READING.md): each is proved, so a definition that gives
//! another answer fails here.
#![tactic(auto)]

pub mod items;
pub mod lines;
pub mod patterns;
pub mod tables;
