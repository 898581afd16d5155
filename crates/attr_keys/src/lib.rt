//! An index of lines by keys, so that a search needs not test each line (own: it changes no answer).
//!
//! A key is a text that a path needs if a line may match it: the path or its base name begins with the key, or the base
//! name ends with it. Whole texts and extensions are looked up by their hashes. Other keys are sorted: a few are compared one by
//! one; of many a binary search finds the last that is not after a text, and links lead from it to the shorter keys that it
//! begins with. The texts of keys stand in the lines, which each look-up is given.
#![tactic(auto)]

mod hashed;
pub mod key;
pub mod key_index;
pub mod kinds;
pub mod line_key;
mod order;
mod prefixes;
