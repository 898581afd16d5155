//! The answers of rows about the plain search. Names are numbers, so `* 0 -1 2=x` sets 0, unsets 1 and gives 2 a value.

use attr_vectors::plain::{self, Item, Origin, State, is_in_range};
use bstr::BStr;
use list_rows::answer::Answer;
use list_rows::fault::Fault;
use list_rows::row::{Row, number_of};
use std::alloc::{AllocError, Global};

/// A line, which matches, or defines a macro.
#[derive(Drop)]
struct Line<'a> {
    defines: Option<usize>,
    items: Vec<Item<'a>>,
}

/// Of a number of names, two lists and the names that are looked for: each answer, with its line, whether its name is a macro,
/// and the macro that it comes from; then how many items are taken.
pub(crate) fn search(row: &Row, answer: &mut Answer) -> Result<(), Fault> {
    let alloc = answer.alloc;
    let mut lines = Vec::new(alloc);
    push_lines(row.text(1), &mut lines)?;
    let count = lines.len();
    push_lines(row.text(2), &mut lines)?;
    let wanted: Vec<usize> = row.text(3).split(' ').map(number_of).try_collect(alloc)?;
    let names = 0..row.number(0)?;
    let bodies: Vec<&[Item<'_>]> = names.map(|name| body_of(&lines, name)).collect(alloc)?;
    let rows = rows_of(alloc, &lines)?;
    let (first, second) = rows.split_at_checked(count).ok_or(Fault::NotARow)?;
    push_found(&lists_of(first, second), &bodies, &wanted, answer)
}

fn push_lines<'a>(text: &'a str, lines: &mut Vec<Line<'a>>) -> Result<(), Fault> {
    let alloc = *lines.allocator();
    for line in text.split('\n') {
        if let Some((pattern, words)) = line.split_once(' ') {
            lines.push(Line {
                defines: pattern.strip_prefix("[attr]").map(number_of).transpose()?,
                items: words.split(' ').map(item_of).try_collect(alloc)?,
            })?;
        }
    }
    Ok(())
}

fn item_of(word: &str) -> Result<Item<'_>, Fault> {
    let (name, state) = match (word.strip_prefix('-'), word.split_once('=')) {
        (Some(name), _) => (name, State::Unset),
        (None, Some((name, value))) => (name, State::Value(value.as_bytes())),
        (None, None) => (word, State::Set),
    };
    let attribute = number_of(name)?;
    Ok(Item { attribute, state })
}

// The body of a name: that of the last line that defines it.
fn body_of<'l, 'a>(lines: &'l [Line<'a>], name: usize) -> &'l [Item<'a>] {
    let mut body: &'l [Item<'a>] = &[];
    for line in lines {
        if line.defines == Some(name) {
            body = line.items.as_slice();
        }
    }
    body
}

fn origin_of(line: usize) -> Origin<'static> {
    Origin {
        text: b"*",
        mode: 3,
        wildcard: Some(0),
        source: Some(b".gitattributes"),
        line,
    }
}

// The lines of both lists, through which they are counted from 1.
fn rows_of<'l, 'a>(
    alloc: Global,
    lines: &'l [Line<'a>],
) -> Result<Vec<plain::Row<'l, 'a>>, AllocError> {
    let numbered = (1..usize::MAX).zip(lines);
    let rows = numbered.map(|(number, line)| plain::Row {
        origin: origin_of(number),
        items: line.items.as_slice(),
        is_match: line.defines.is_none(),
    });
    rows.collect(alloc)
}

fn lists_of<'s, 'r, 'a>(
    first: &'s [plain::Row<'r, 'a>],
    second: &'s [plain::Row<'r, 'a>],
) -> [&'s [plain::Row<'r, 'a>]; 2] {
    [first, second]
}

fn push_found<'a>(
    lists: &[&[plain::Row<'_, 'a>]],
    bodies: &[&[Item<'a>]],
    wanted: &[usize],
    answer: &mut Answer,
) -> Result<(), Fault> {
    let alloc = answer.alloc;
    let mut slots: Vec<Option<plain::Answer<'a>>> = vec![in alloc; None; bodies.len()]?;
    if !is_in_range(lists, bodies, wanted, slots.len()) {
        return Err(Fault::NotARow);
    }
    let taken = plain::search(alloc, lists, bodies, wanted, slots.as_mut_slice())?;
    for slot in slots.as_slice() {
        push_slot(slot, answer)?;
    }
    answer.shown(taken)
}

// `-1 3 macro 0`: the item, the line, whether its name is a macro, and the macro that it comes from.
fn push_slot(slot: &Option<plain::Answer<'_>>, answer: &mut Answer) -> Result<(), Fault> {
    let Some(found) = slot else {
        return answer.text("-");
    };
    if found.origin != origin_of(found.origin.line) {
        return answer.text("another origin");
    }
    push_item(found.assignment, answer)?;
    answer.shown(found.origin.line)?;
    answer.text(if found.is_macro { "macro" } else { "plain" })?;
    answer.index(found.cause)
}

fn push_item(item: Item<'_>, answer: &mut Answer) -> Result<(), Fault> {
    let name = item.attribute;
    match item.state {
        State::Set => answer.shown(name),
        State::Unset => answer.shown(format_args!("-{name}")),
        State::Value(value) => answer.shown(format_args!("{name}={}", BStr::new(value))),
        State::Unspecified => answer.shown(format_args!("!{name}")),
    }
}
