//! What tests of several crates use: devices in memory of which a chosen call fails, and a plain search to compare the real
//! one with. The tests here are those of `check_attr`.
#![tactic(auto)]

pub mod devices;
pub mod plain;
#[cfg(test)]
mod tests;
