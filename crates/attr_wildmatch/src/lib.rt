//! The tokens of a pattern's text, and which texts they match (gitignore page).
#![tactic(auto)]

mod bracket;
pub mod case;
pub mod pairs;
pub mod slashes;
pub mod token;
pub mod wildmatch;

pub use crate::case::Case;
