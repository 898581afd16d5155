//! Lists of lines with an index of the lines by their keys, and searches over them: which lists a path is below, which of their
//! lines it is matched against, what the items of the lines that match and the macros' bodies assign to each attribute, and where
//! the answers are stored.
#![tactic(auto)]

pub mod answer_parts;
pub mod bodies;
mod directory_keys;
pub mod indexed_list;
pub mod indexed_lists;
pub mod item_index;
pub mod laws;
pub mod matching_line;
pub mod numbers_by_key;
pub mod path_query;
pub mod search_state;
pub mod slots;
pub mod wanted;
