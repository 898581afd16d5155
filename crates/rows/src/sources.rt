//! The answers of rows about files: those of sources, global ones, and those that are added.

use gix_attributes::files::Disk;
use gix_attributes::search::{AddError, Added, Dropped, MetadataCollection};
use gix_attributes::{Prefixes, Search, Source};
use list_rows::answer::Answer;
use list_rows::fault::Fault;
use list_rows::lines::push_dropped;
use list_rows::row::{Row, words_of};
use std::alloc::{AllocError, Global};
use std::fmt::Write;

/// Of a source, a prefix for git's installation and for the system, and variables: which of these are looked up, and the path of
/// the source's file.
pub(crate) fn location(row: &Row, answer: &mut Answer) -> Result<(), Fault> {
    let source = match row.text(0) {
        "GitInstallation" => Source::GitInstallation,
        "System" => Source::System,
        "Git" => Source::Git,
        "Local" => Source::Local,
        _ => return Err(Fault::NotARow),
    };
    let alloc = answer.alloc;
    let prefixes = Prefixes {
        installation: owned(alloc, row.optional(1))?,
        system: owned(alloc, row.optional(1))?,
    };
    let (mut looked_up, mut is_refused) = (String::new(alloc), false);
    let path = source.storage_location(alloc, &prefixes, |name: &str| {
        let value = looked_up_value(alloc, row.text(2), name, &mut looked_up);
        is_refused |= value.is_err();
        value.unwrap_or(None)
    })?;
    if is_refused {
        return Err(Fault::OutOfMemory);
    }
    answer.text(looked_up.trim_ascii())?;
    answer.text(path.as_deref().unwrap_or("-"))
}

// The value of a name in `NAME=VALUE NAME=VALUE`. The name is noted.
fn looked_up_value(
    alloc: Global,
    variables: &str,
    name: &str,
    looked_up: &mut String,
) -> Result<Option<String>, AllocError> {
    write!(looked_up, "{name} ")?;
    let mut variables = variables.split(' ');
    let value = variables.find_map(|variable| variable.strip_prefix(name)?.strip_prefix('='));
    owned(alloc, value)
}

fn owned(alloc: Global, text: Option<&str>) -> Result<Option<String>, AllocError> {
    text.map(|text| String::from_str(alloc, text)).transpose()
}

// A search, and the collection that holds its lists.
fn no_lists(alloc: Global) -> Result<(Box<Search>, Box<MetadataCollection>), AllocError> {
    let search = Box::new(alloc, Search::new(alloc))?;
    let collection = Box::new(alloc, MetadataCollection::new(alloc))?;
    Ok((search, collection))
}

/// Of names of files: the number of global lists, whether the collection holds them, and the lines that are dropped of each
/// file, or the error; then the names that are known.
pub(crate) fn globals(rt: &HostRuntime, row: &Row, answer: &mut Answer) -> Result<(), Fault> {
    let (alloc, names) = (answer.alloc, words_of(answer.alloc, row.text(0))?);
    let (mut files, mut buf) = (Disk::new(rt), Vec::new(alloc));
    let mut collection = Box::new(alloc, MetadataCollection::new(alloc))?;
    let read = Search::new_globals_from(alloc, &mut files, &names, &mut buf, &mut collection);
    push_search(&read, &collection, answer)?;
    push_names(&collection, answer)
}

fn push_search(
    read: &Result<(Search, Vec<Vec<Dropped>>), AddError>,
    collection: &MetadataCollection,
    answer: &mut Answer,
) -> Result<(), Fault> {
    match read {
        Ok((search, dropped)) => {
            answer.shown(search.num_pattern_lists())?;
            answer.flag(collection.holds(search))?;
            for lines in dropped {
                push_dropped(lines, answer)?;
            }
            Ok(())
        }
        Err(AddError::OutOfMemory) => Err(Fault::OutOfMemory),
        Err(error) => answer.shown(error),
    }
}

// The names by number.
fn push_names(collection: &MetadataCollection, answer: &mut Answer) -> Result<(), Fault> {
    let names = collection.iter().map(|(name, _)| name);
    let names: Vec<&str> = names.collect(answer.alloc)?;
    answer.words(&names)
}

/// Of each of some files that are added, which may define no macros and have the top as their root: whether it is there, and the
/// lines that are dropped; then the number of lists, whether the collection holds them, the names that are known, and what is left
/// in the buffer.
pub(crate) fn additions(rt: &HostRuntime, row: &Row, answer: &mut Answer) -> Result<(), Fault> {
    let (alloc, files, mut buf) = (answer.alloc, &mut Disk::new(rt), Vec::new(answer.alloc));
    let (mut search, mut names) = no_lists(alloc)?;
    for name in row.text(0).split(' ') {
        let (source, root, buf) = (String::from_str(alloc, name)?, Some(""), &mut buf);
        let added = search.add_patterns_file_from(
            alloc, files, source, root, buf, &mut names, false,
        );
        push_addition(&added, answer)?;
    }
    answer.shown(search.num_pattern_lists())?;
    answer.flag(names.holds(&search))?;
    push_names(&names, answer)?;
    answer.bytes(&buf)
}

fn push_addition(added: &Result<Added, AddError>, answer: &mut Answer) -> Result<(), Fault> {
    match added {
        Ok(added) => {
            answer.text(if added.was_added { "added" } else { "missing" })?;
            push_dropped(&added.dropped, answer)
        }
        Err(AddError::OutOfMemory) => Err(Fault::OutOfMemory),
        Err(error) => answer.shown(error),
    }
}

/// Of the name of a file that the calls read from the disk themselves, as global lists and then as one that is added: the same.
pub(crate) fn of_disk(rt: &HostRuntime, row: &Row, answer: &mut Answer) -> Result<(), Fault> {
    let (alloc, names) = (answer.alloc, words_of(answer.alloc, row.text(0))?);
    let (mut search, mut collection) = no_lists(alloc)?;
    let (buf, collection) = (&mut Vec::new(alloc), &mut collection);
    let read = Search::new_globals(rt, alloc, &names, buf, collection);
    push_search(&read, collection, answer)?;
    buf.clear();
    let source = String::from_str(alloc, row.text(0))?;
    let added = search.add_patterns_file(rt, alloc, source, None, buf, collection, true);
    push_addition(&added, answer)?;
    push_names(collection, answer)
}
