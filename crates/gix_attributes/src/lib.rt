//! The attributes of paths by the gitattributes page, under the names of the Rust crate `gix-attributes`: lines of
//! attributes files are parsed and collected into searches, and a search of a path fills an outcome.
//!
//! ```text
//! let mut collection = MetadataCollection::new(alloc);
//! let mut search = Search::new(alloc);
//! let source = String::from_str(alloc, ".gitattributes")?;
//! let (bytes, root) = (b"*.sh text eol=lf", Some(""));
//! search.add_patterns_buffer(alloc, bytes, source, root, &mut collection, true)?;
//! let mut outcome = Outcome::new(alloc);
//! outcome.initialize_with_selection(alloc, &collection, &["text", "eol"])?;
//! let (path, case) = (BStr::from("script.sh"), Case::Sensitive);
//! if outcome.covers(&search) {
//!     search.pattern_matching_relative_path(alloc, path, case, Some(false), &mut outcome)?;
//! }
//! for found in outcome.iter_selected() {
//!     println!(rt; "{}", found.assignment)?; // text, then eol=lf
//! }
//! ```
//!
//! - [`parse`], [`name`] and [`state`]: the lines of an attributes file, names of attributes, and the states that
//!   items assign.
//! - [`glob`]: patterns and how they match paths.
//! - [`search`]: searches, the collection of attributes, and outcomes.
//! - [`engine`]: an engine that a caller holds: lists, selected names, and the answers to the last question.
//! - [`files`]: sources of files, from which a search reads its lists.
//! - [`Source`]: the paths of the attributes files outside a worktree.
#![tactic(auto)]

pub mod engine;
pub mod files;
pub mod search;
mod source;

pub use crate::search::Search;
pub use crate::source::{Prefixes, Source};
pub use attr_glob as glob;
pub use attr_lists::parse;
pub use attr_text::{Assignment, AssignmentRef, Name, NameRef, State, StateRef, name, state};
