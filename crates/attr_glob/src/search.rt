//! Lists of patterns, and which of a list's patterns a path has to be matched against.

pub use crate::search::buffer::Pattern;

mod buffer;
pub mod pattern;
