//! Quoted texts.

pub mod ansi_c;
