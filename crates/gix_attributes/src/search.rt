//! Searches of lists of patterns, and the attributes that they give a path.
//!
//! - `attributes`: [`Search`], the lists of patterns, and how a [`NewList`] is added, one removed, and all searched.
//! - `files`: lists that are read from files, and the global ones.
//! - `collection`: [`MetadataCollection`], the names of attributes by number, with the bodies of macros.
//! - `outcome`: [`Outcome`], which a search fills.
//! - `selection`, `selected_name`: the names that an outcome looks for.
//! - `needed`: the attributes that their answers depend on.
//! - `matches`: [`Matches`] and [`Selected`], the iterators over an outcome.
//! - [`laws`]: facts of all searches.

mod attributes;
mod collection;
mod files;
pub mod laws;
mod matches;
mod needed;
mod outcome;
mod selected_name;
pub(crate) mod selection;

pub use crate::search::attributes::{NewList, Search};
pub use crate::search::collection::MetadataCollection;
pub use crate::search::files::{AddError, Added};
pub use crate::search::matches::{Matches, Selected};
pub use crate::search::outcome::Outcome;
pub use attr_lists::name_table::Names;
pub use attr_lists::types::{
    Assignments, AttributeId, Attributes, DropReason, Dropped, Match, MatchKind, MatchLocation,
    Metadata, TrackedAssignment, Value,
};
