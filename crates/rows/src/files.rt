//! Files of rows. In a table each line is a row: what is asked comes first in it, and then the answer. A file of scenes has a
//! block of lines for each row.

use crate::{devices, plain, scenes, scripts, sources};
use gix_attributes::files::{Disk, Files, ReadError};
use list_rows::answer::Answer;
use list_rows::fault::Fault;
use list_rows::row::Row;
use list_rows::{lines, matches, patterns, scene};
use std::fmt::Write;

/// A file of rows, as a line of the file `files` names it.
#[derive(Clone, Copy)]
struct File<'a> {
    name: &'a str,
    about: &'a str,
    /// How many fields of a row are asked, or nothing if it is a file of scenes.
    asked: Option<usize>,
}

impl<'a> File<'a> {
    fn of(row: &'a Row) -> Result<File<'a>, Fault> {
        Ok(File {
            name: row.text(0),
            about: row.text(1),
            asked: row.index(2)?,
        })
    }

    // All files are compared if none are named.
    fn is_chosen(self, chosen: &[String]) -> bool {
        chosen.is_empty() || chosen.iter().any(|name| name.as_str() == self.name)
    }

    // Whether the calls that the rows are about take no memory.
    fn is_plain(self) -> bool {
        self.name.starts_with("memory/plain_")
    }

    fn compare(self, rt: &HostRuntime, differences: &mut String) -> Result<(), Fault> {
        let name = self.name;
        match self.compare_rows(rt, differences) {
            Ok(compared) => println!(rt; "{name}: {compared} rows")?,
            Err(Fault::OutOfMemory) => return Err(Fault::OutOfMemory),
            Err(fault) => writeln!(differences, "{name}: {fault}")?,
        }
        Ok(())
    }

    // Compares each row, describes those that differ, and reports how many there are.
    fn compare_rows(self, rt: &HostRuntime, differences: &mut String) -> Result<u64, Fault> {
        let contents = read(rt, self.name)?;
        let mut compared = 0u64;
        let is_table = self.asked.is_some();
        for text in contents.split(if is_table { "\n" } else { "\n\n" }) {
            if !is_table || is_row(text) {
                compared = compared.saturating_add(1);
                self.compare_row(rt, text, differences)?;
            }
        }
        Ok(compared)
    }

    // A row that finds no memory is asked again, so that `tests/refused_memory.sh` can refuse each request. But a call that takes
    // none is not made again.
    fn compare_row(self, rt: &HostRuntime, text: &str, out: &mut String) -> Result<(), Fault> {
        let answered = match self.other_answer(rt, text) {
            Err(Fault::OutOfMemory) => self.other_answer(rt, text),
            Err(Fault::CallOutOfMemory) if !self.is_plain() => self.other_answer(rt, text),
            answered => answered,
        };
        let name = self.name;
        match answered {
            Ok(None) => Ok(()),
            Ok(Some(answer)) => Ok(writeln!(out, "{name}: {text}\nanswers {}", answer.as_bstr())?),
            Err(Fault::OutOfMemory) => Err(Fault::OutOfMemory),
            Err(fault) => Ok(writeln!(out, "{name}: {text}\n{fault}")?),
        }
    }

    // What a row answers, if that is not what it has to answer.
    fn other_answer(self, rt: &HostRuntime, text: &str) -> Result<Option<Answer>, Fault> {
        let (mut answer, mut wanted) = (Answer::new(rt.alloc()), Answer::new(rt.alloc()));
        if let Some(asked) = self.asked {
            let row = Row::read(rt.alloc(), text)?;
            push_answer(rt, self.about, &row, &mut answer)?;
            for field in row.rest(asked) {
                wanted.bytes(field)?;
            }
        } else {
            scenes::push_report(self.about, text, &mut answer)?;
            scene::push_wanted(text, &mut wanted)?;
        }
        let differs = answer.as_bstr() != wanted.as_bstr();
        Ok(differs.then_some(answer))
    }
}

/// Compares each chosen file, prints how many rows it has, and describes those that differ.
///
/// # Errors
/// The list of files can't be read; printing failed; memory is refused.
pub(crate) fn compare_files(
    rt: &HostRuntime,
    chosen: &[String],
    differences: &mut String,
) -> Result<(), Fault> {
    let files = read(rt, "files")?;
    for line in files.split('\n').filter(|line| is_row(line)) {
        let row = Row::read(rt.alloc(), line)?;
        let file = File::of(&row)?;
        if file.is_chosen(chosen) {
            file.compare(rt, differences)?;
        }
    }
    Ok(())
}

// Empty lines and lines that begin with `#` are no rows.
fn is_row(line: &str) -> bool {
    !line.is_empty() && !line.starts_with('#')
}

fn push_answer(rt: &HostRuntime, about: &str, row: &Row, answer: &mut Answer) -> Result<(), Fault> {
    match about {
        "parts" => patterns::pattern(row, answer),
        "base_names" => patterns::base_name_of(row, answer),
        "wildmatch" => matches::wildmatch(row, answer),
        "short_values" => matches::short_values(row, answer),
        "pairs" => matches::pairs(row, answer),
        "tokens" => matches::token_count(row, answer),
        "paths" => matches::path(row, answer),
        "candidates" => matches::candidates(row, answer),
        "indexes" => matches::is_of_list(row, answer),
        "quotes" => patterns::quote(row, answer),
        "bases" => patterns::base(row, answer),
        "below_bases" => patterns::below_base(row, answer),
        "names" => lines::name(row, answer),
        "items" => lines::items(row, answer),
        "states" => lines::states(row, answer),
        "lines" => lines::lines(row, answer),
        "kept" => lines::kept(row, answer),
        "kept_counts" => lines::kept_counts(row, answer),
        "plain" => plain::search(row, answer),
        "locations" => sources::location(row, answer),
        "globals" => sources::globals(rt, row, answer),
        "added" => sources::additions(rt, row, answer),
        "disk" => sources::of_disk(rt, row, answer),
        "calls" => scripts::call(rt, row, answer),
        "scripts" => scripts::run_twice("script", row, answer),
        "reports" => scripts::run_twice("lines", row, answer),
        "plays" => scripts::played(row, answer),
        "devices" => devices::left(row, answer),
        "failing_calls" => devices::left_by_call(row, answer),
        _ => Err(Fault::NotARow),
    }
}

// The text of a file.
fn read(rt: &HostRuntime, path: &str) -> Result<String, Fault> {
    let mut contents = Vec::new(rt.alloc());
    match Disk::new(rt).read_into(path, &mut contents) {
        Ok(true) => String::from_utf8(contents).or(Err(Fault::Unread)),
        Err(ReadError::OutOfMemory) => Err(Fault::OutOfMemory),
        Ok(false) | Err(ReadError::Device(_)) => Err(Fault::Unread),
    }
}
