//! `check_attr FILE...` runs the script on standard input over the lists of these global files.
//! `check_attr --lines` prints a report of the attributes file on standard input, line by line.
#![tactic(auto)]

use check_attr::{Reader, Writer, program};
use gix_attributes::files::Disk;
use std::process::ExitCode;
use std::{env, io};

// The arguments after the program's name.
fn arguments(rt: &HostRuntime) -> io::Result<Vec<String>> {
    let mut arguments = env::args(rt)?;
    let _ = arguments.next();
    Ok(arguments.collect(rt.alloc())?)
}

fn main(rt: HostRuntime) -> ExitCode {
    let Ok(args) = arguments(&rt) else {
        let _ = eprintln!(rt; "check_attr: cannot read the arguments");
        return ExitCode::FAILURE;
    };
    let mut disk = Disk::new(&rt);
    let mut reader = Reader::new(rt.stdin());
    let mut writer = Writer::new(rt.stdout());
    let mut errors = Writer::new(rt.stderr());
    ExitCode::from(program(
        rt.alloc(),
        &mut disk,
        args.as_slice(),
        &mut reader,
        &mut writer,
        &mut errors,
    ))
}
