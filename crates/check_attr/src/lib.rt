//! The program `check_attr` over any reader, writer and source of files: scripts, the report of `--lines`, and
//! statuses.
#![tactic(auto)]

mod answers;
mod command;
mod dropped_lines;
mod failure_count;
mod fault;
mod global_lists;
mod held;
pub mod laws;
mod line_report;
mod reading;
mod script;
mod script_run;
mod writing;

pub use crate::command::program;
pub use crate::fault::Fault;
pub use crate::global_lists::{Globals, read_globals as globals};
pub use crate::line_report::lines;
pub use crate::reading::{Pull, Reader};
pub use crate::script_run::{play, run};
pub use crate::writing::{Push, Writer};
