//! The patterns of attributes files and ignore files (gitattributes and gitignore pages): this crate undoes quoted
//! texts, reads pattern texts, and matches patterns against paths. The tokens of a pattern's text, and what they match, are
//! those of `attr_wildmatch`, whose modules are shown here.
#![tactic(auto)]

pub mod pattern;
pub mod quote;
pub mod search;

pub use crate::pattern::Pattern;
pub use attr_wildmatch::{pairs, token, wildmatch};
