//! The text of attributes files, as the gitattributes page describes it: names of attributes, their states, and the lines that
//! assign them.
#![tactic(auto)]

mod assignment;
pub mod laws;
pub mod name;
pub mod state;

pub use crate::assignment::{Assignment, AssignmentRef};
pub use crate::name::{Name, NameRef};
pub use crate::state::{State, StateRef};
