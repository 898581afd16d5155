//! Compares rows: the files of the directory `data` have what is asked, and the answer that it must have.
//!
//! The file `files` names them, with what their rows are about (`files`, and `row` for how bytes are written). In a table each
//! line is a row, and in a file of scenes a block of lines (`scenes`). It prints how many rows each file has. Each row that
//! differs is printed on standard error, and the status is 1 then. Arguments are names of the files to compare; without any it
//! compares all.
#![tactic(auto)]

mod devices;
mod engines;
mod files;
mod plain;
mod scenes;
mod scripts;
mod searches;
mod sources;

use crate::files::compare_files;
use list_rows::fault::Fault;
use std::env;
use std::process::ExitCode;

fn run(rt: &HostRuntime) -> Result<(), Fault> {
    let chosen: Vec<String> = env::args(rt)?.skip(1).collect(rt.alloc())?;
    let mut differences = String::new(rt.alloc());
    compare_files(rt, &chosen, &mut differences)?;
    if differences.is_empty() {
        return Ok(());
    }
    eprint!(rt; "{differences}")?;
    Err(Fault::Differ)
}

fn main(rt: HostRuntime) -> ExitCode {
    match run(&rt) {
        Ok(()) => ExitCode::SUCCESS,
        Err(fault) => {
            let _ = eprintln!(&rt; "rows: {fault}");
            ExitCode::FAILURE
        }
    }
}
