//! Lists of attributes: the mappings of an attributes file, the numbers of attribute names, and the definitions of macros.
#![tactic(auto)]

mod known_values;
mod last_read;
pub mod laws;
pub mod name_table;
pub mod parse;
pub mod parser;
pub mod types;
