//! The parts of small settings, as numbers and as texts of attributes files.

use attr_vectors::plain::{Item, Origin, Row, State};
use bstr::BStr;
use std::alloc::{AllocError, Global};
use std::fmt::Write;

/// How many attributes there are.
pub const COUNT: usize = 3;

/// The names of the attributes, by number. Only the first two have bodies.
pub const NAMES: [&str; COUNT] = ["m", "n", "a"];

/// The path that is searched for. Each line matches it.
pub const PATH: &str = "f";

/// The file of the lines.
pub const SOURCE: &str = ".gitattributes";

/// The file whose line fills a slot before the search.
pub const START_SOURCE: &str = "info/attributes";

// The bits of a pattern's mode.
const NO_SUB_DIR: u32 = 1;

const ENDS_WITH: u32 = 2;

const ABSOLUTE: u32 = 16;

/// A few items, in their order.
pub type Items = Vec<Item<'static>>;

/// Each selection of some of the attributes: their numbers, and names that select them. A name that no list has selects nothing,
/// and no names select all.
pub static SELECTIONS: [(&[usize], &[&str]); 8] = [
    (&[], &["other"]),
    (&[0], &["m"]),
    (&[1], &["n"]),
    (&[2], &["a"]),
    (&[0, 1], &["m", "n"]),
    (&[0, 2], &["m", "a"]),
    (&[1, 2], &["n", "a"]),
    (&[0, 1, 2], &[]),
];

/// The attributes whose slot is filled before the search: none, or one.
pub const STARTS: [Option<usize>; 4] = [None, Some(0), Some(1), Some(2)];

/// Where a first line comes from. Its pattern is spelled as it is kept, and so is that of a second line.
const FIRST: Origin<'static> = Origin {
    text: b"*",
    mode: NO_SUB_DIR | ENDS_WITH,
    wildcard: Some(0),
    source: Some(b".gitattributes"),
    line: 1,
};

/// Where a second line comes from.
const SECOND: Origin<'static> = Origin {
    text: b"f",
    mode: NO_SUB_DIR,
    wildcard: None,
    source: Some(b".gitattributes"),
    line: 2,
};

/// Where the line comes from that fills a slot before the search.
pub const START: Origin<'static> = Origin {
    text: b"f",
    mode: NO_SUB_DIR | ABSOLUTE,
    wildcard: None,
    source: Some(b"info/attributes"),
    line: 1,
};

/// The pattern of that line, as its file spells it.
pub const START_SPELLING: &str = "/f";

/// Each attribute, set and unset: 6 items.
fn items(alloc: Global) -> Result<Items, AllocError> {
    let mut items = Vec::new(alloc);
    for attribute in 0..COUNT {
        for state in [State::Set, State::Unset] {
            items.push(Item { attribute, state })?;
        }
    }
    Ok(items)
}

/// Every list of at most two items: 43 lists.
pub(crate) fn short_lists(alloc: Global) -> Result<Vec<Items>, AllocError> {
    let items = items(alloc)?;
    let mut lists = Vec::new(alloc);
    lists.push(Vec::new(alloc))?;
    for first in items.iter() {
        lists.push(vec![in alloc; *first]?)?;
        for second in items.iter() {
            lists.push(vec![in alloc; *first, *second]?)?;
        }
    }
    Ok(lists)
}

/// The files of one line with one of these lists, and those of two lines of one item each. Of the short lists that is 79 files.
pub(crate) fn files(
    alloc: Global,
    lists: &[Items],
) -> Result<Vec<Vec<Row<'_, 'static>>>, AllocError> {
    let mut files = Vec::new(alloc);
    for first in lists {
        files.push(vec![in alloc; row_of(FIRST, first)]?)?;
        for second in lists {
            if first.len() == 1 && second.len() == 1 {
                files.push(vec![in alloc; row_of(FIRST, first), row_of(SECOND, second)]?)?;
            }
        }
    }
    Ok(files)
}

fn row_of<'r>(origin: Origin<'static>, items: &'r Items) -> Row<'r, 'static> {
    Row {
        origin,
        items: items.as_slice(),
        is_match: true,
    }
}

/// Appends items as an attributes file spells them, each after a blank, and ends the line.
pub(crate) fn push_items(text: &mut String, items: &[Item<'static>]) -> Result<(), AllocError> {
    for item in items {
        let mark = if item.state == State::Unset { "-" } else { "" };
        let name = NAMES.get(item.attribute).unwrap_or(&"?");
        write!(text, " {mark}{name}")?;
    }
    text.push('\n')
}

/// Appends the definitions of the first two attributes as macros.
pub(crate) fn push_macros(
    text: &mut String,
    bodies: &[&[Item<'static>]],
) -> Result<(), AllocError> {
    for (name, body) in NAMES.iter().zip(bodies.iter()).take(2) {
        write!(text, "[attr]{name}")?;
        push_items(text, body)?;
    }
    Ok(())
}

/// Appends the lines of a list.
pub(crate) fn push_rows(text: &mut String, rows: &[Row<'_, 'static>]) -> Result<(), AllocError> {
    for row in rows {
        write!(text, "{}", BStr::new(row.origin.text))?;
        push_items(text, row.items)?;
    }
    Ok(())
}
