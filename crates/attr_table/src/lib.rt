//! The item that decides an attribute, by the rules of the gitattributes page, with attributes as numbers.
//!
//! `specs/` defines the answer, and [`laws`] has its laws. The contracts of the search in `attr_search` use the same
//! definitions, and so do those of the plain search that tests compare with it, in `attr_vectors`.
#![tactic(auto)]

pub mod laws;
