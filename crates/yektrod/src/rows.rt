//! All answers at once, as rows and texts.

ghost use Rattle.std.specs.Prelude.{◌≡◌, ◌⊎◌, ◌↔◌, ◌<◌, ◌≤◌, ◌++◌, ◌-◌, IfSome, IfNone, MatchOption, None, Some, drop, length, min, nat_lt, option_map, slice_set, if◌then◌else◌};
ghost use Rattle.gix_attributes.specs.EngineStates.{AnswersTo, FindsFor, without_answers};
ghost use Rattle.yektrod.specs.Held.{Becomes, found_held, held, labelled, sourced};
ghost use Rattle.yektrod.specs.inner.Laid.{IsLaid, IsLaidBehind};
ghost use Rattle.yektrod.specs.Passed.{IsDirectoryNumber, directory_flag, passed_case};
ghost use Rattle.yektrod.specs.Played.{counted_length};
ghost use Rattle.yektrod.specs.RowsTold.{AreZero, labelled_answer, answers_of, labelled_found, laid_rows, row_at, row_told, rows_alone, rows_of, text_of, text_of_all, zero_row};
ghost use Rattle.yektrod.specs.Sourced.{AreLabelled};
ghost use Rattle.yektrod.specs.Statuses.{status_done, status_missing, status_no_memory, status_no_room, status_shut, status_unreadable};

use crate::row::Row;
use crate::row_texts::RowTexts;
use crate::slot::Slot;
use crate::sourced::SourcedEngine;
use crate::status::{DONE, MISSING, NO_MEMORY, NO_ROOM, SHUT, UNREADABLE};
use bstr::BStr;
use gix_attributes::engine::Question;
use gix_attributes::glob::pattern::Case;
use gix_attributes::search::AttributeId;
use std::alloc::Global;

/// A path to look up, as C passes it.
#[repr(C)]
#[derive(Clone, Copy)]
pub struct PathQuestion<'a> {
    /// The path, without a leading slash.
    pub path: &'a [u8],
    /// Whether letters match in either case.
    pub fold: bool,
    /// 1 for a directory, 0 for none, and -1 if that is not known.
    pub is_dir: i32,
}

impl<'a> PathQuestion<'a> {
    // The question for an engine: none if the number for a directory is out of range.
    pub(crate) fn question(self) -> Option<Question<'a>>
        ensures { MatchOption result (¬ IsDirectoryNumber self.entry.is_dir) (λ question.
            IsDirectoryNumber self.entry.is_dir × (question.path.bytes.now ≡ self.entry.path.now)
            × (question.case ≡ passed_case self.entry.fold)
            × (question.is_dir ≡ directory_flag self.entry.is_dir)) }
    {
        let is_dir = match self.is_dir {
            1 => Some(true),
            0 => Some(false),
            -1 => None,
            _ => return None,
        };
        let case = if self.fold {
            Case::Fold
        } else {
            Case::Sensitive
        };
        Some(Question {
            path: BStr::new(self.path),
            case,
            is_dir,
        })
    }
}

/// How many rows and how many bytes of text the answers to a question take.
#[repr(C)]
#[derive(Clone, Copy)]
pub struct Needed {
    /// The number of rows.
    pub rows: usize,
    /// The length of the texts in bytes.
    pub text: usize,
}

/// Looks a path up, and tells all answers as rows, and their texts one after the other.
#[unsafe(no_mangle)]
pub extern "C" fn yektrod_ask_into(
    alloc: Global,
    slot: &mut Slot,
    question: &PathQuestion<'_>,
    rows: &mut [Row],
    text: &mut [u8],
    needed: &mut Needed,
) -> i32
    ensures answers { (result ≡ status_done) ⊎ (result ≡ status_no_room) →
        Becomes (AnswersTo question.now.path.now (passed_case question.now.fold)
        (directory_flag question.now.is_dir)) (held slot.old) (held slot.new) }
    ensures found { (result ≡ status_done) ⊎ (result ≡ status_no_room) →
        Becomes (FindsFor question.now.path.now (passed_case question.now.fold)
        (directory_flag question.now.is_dir)) (held slot.old) (held slot.new) }
    ensures labelled { (result ≡ status_done) ⊎ (result ≡ status_no_room) →
        Becomes (AnswersTo question.now.path.now (passed_case question.now.fold)
        (directory_flag question.now.is_dir)) (labelled slot.old) (labelled slot.new) }
    ensures found_labelled { (result ≡ status_done) ⊎ (result ≡ status_no_room) →
        Becomes (FindsFor question.now.path.now (passed_case question.now.fold)
        (directory_flag question.now.is_dir)) (labelled slot.old) (labelled slot.new) }
    ensures labels { (result ≡ status_done) ⊎ (result ≡ status_no_room) →
        IfSome (sourced slot.new) AreLabelled }
    ensures rows { result ≡ status_done →
        IfSome (sourced slot.new) (λ c. rows.new ≡ laid_rows rows.old (rows_of c)) }
    ensures text { result ≡ status_done → IfSome (sourced slot.new)
        (λ c. text.new ≡ text_of_all c ++ drop (length (text_of_all c)) text.old) }
    ensures row_count { (result ≡ status_done) ⊎ (result ≡ status_no_room) →
        IfSome (sourced slot.new) (λ c. needed.new.rows ≡ length (answers_of c)) }
    ensures text_length { (result ≡ status_done) ⊎ (result ≡ status_no_room) →
        IfSome (sourced slot.new) (λ c. needed.new.text ≡ counted_length (text_of_all c)) }
    ensures fits { result ≡ status_done →
        (needed.new.rows ≤ length rows.old) × (needed.new.text ≤ length text.old) }
    ensures short { result ≡ status_no_room →
        (length rows.old < needed.new.rows) ⊎ (length text.old < needed.new.text) }
    ensures zero { result ≡ status_no_room → AreZero rows.new }
    ensures refused { result ≡ status_no_memory →
        held slot.new ≡ option_map without_answers (held slot.old) }
    ensures failed { (result ≡ status_shut) ⊎ (result ≡ status_unreadable) →
        sourced slot.new ≡ sourced slot.old }
    ensures kept { ¬ ((result ≡ status_done) ⊎ (result ≡ status_no_room)) →
        (rows.new ≡ rows.old) × (text.new ≡ text.old) × (needed.new ≡ needed.old) }
    ensures shut { result ≡ status_shut ↔ (held slot.old ≡ None) }
    ensures unreadable { result ≡ status_unreadable ↔ (¬ (held slot.old ≡ None)
        × ¬ IsDirectoryNumber question.now.is_dir) }
    ensures status { (result ≡ status_done) ⊎ (result ≡ status_no_memory) ⊎ (result ≡ status_shut)
        ⊎ (result ≡ status_unreadable) ⊎ (result ≡ status_no_room) }
{
    if !slot.live {
        return SHUT;
    }
    let Some(asked) = question.question() else {
        return UNREADABLE;
    };
    let held = slot.handle.engine();
    let Ok(count) = held.ask(alloc, asked) else {
        return NO_MEMORY;
    };
    held.labels_say_indexes();
    let length = tell_all(held, rows, text);
    *needed = Needed {
        rows: count,
        text: length,
    };
    if count > rows.len() || length > text.len() {
        rows.fill(Row::default());
        return NO_ROOM;
    }
    DONE
}

/// Tells the answers to the last question as rows, from one on, as far as there is room for them.
#[unsafe(no_mangle)]
pub extern "C" fn yektrod_answers(
    slot: &mut Slot,
    from: usize,
    rows: &mut [Row],
    written: &mut usize,
) -> i32
    ensures rows { result ≡ status_done →
        IfSome (sourced slot.old) (λ c. rows.new ≡ laid_rows rows.old (drop from (rows_alone c))) }
    ensures written { result ≡ status_done → IfSome (sourced slot.old)
        (λ c. written.new ≡ min (length rows.old) (length (answers_of c) - from)) }
    ensures labels { result ≡ status_done → IfSome (sourced slot.old) AreLabelled }
    ensures failed { ¬ (result ≡ status_done) →
        (rows.new ≡ rows.old) × (written.new ≡ written.old) }
    ensures same { sourced slot.new ≡ sourced slot.old }
    ensures shut { result ≡ status_shut ↔ (held slot.old ≡ None) }
    ensures status { (result ≡ status_done) ⊎ (result ≡ status_shut) }
{
    if !slot.live {
        return SHUT;
    }
    let held = slot.handle.engine();
    held.labels_say_indexes();
    *written = tell_from(held, from, rows);
    DONE
}

/// Tells the answer for the attribute with this number, whatever is selected, and its texts.
#[unsafe(no_mangle)]
pub extern "C" fn yektrod_found(
    slot: &mut Slot,
    number: usize,
    row: &mut Row,
    text: &mut [u8],
    needed: &mut usize,
) -> i32
    ensures row { result ≡ status_done → IfSome (sourced slot.old) (λ c.
        IfSome (labelled_found c number) (λ m. row.new ≡ row_told c (Some number) 0 m)) }
    ensures text { result ≡ status_done → IfSome (sourced slot.old) (λ c.
        IfSome (labelled_found c number) (λ m.
        text.new ≡ text_of c m ++ drop (length (text_of c m)) text.old)) }
    ensures needed { (result ≡ status_done) ⊎ (result ≡ status_no_room) →
        IfSome (sourced slot.old) (λ c. IfSome (labelled_found c number) (λ m.
        needed.new ≡ counted_length (text_of c m))) }
    ensures labels { (result ≡ status_done) ⊎ (result ≡ status_no_room) →
        IfSome (sourced slot.old) AreLabelled }
    ensures fits { result ≡ status_done → needed.new ≤ length text.old }
    ensures short { result ≡ status_no_room → length text.old < needed.new }
    ensures zero { result ≡ status_no_room → row.new ≡ zero_row }
    ensures failed { ¬ ((result ≡ status_done) ⊎ (result ≡ status_no_room)) →
        (row.new ≡ row.old) × (text.new ≡ text.old) × (needed.new ≡ needed.old) }
    ensures same { sourced slot.new ≡ sourced slot.old }
    ensures shut { result ≡ status_shut ↔ (held slot.old ≡ None) }
    ensures missing { result ≡ status_missing ↔ (¬ (held slot.old ≡ None)
        × (found_held slot.old number ≡ None)) }
    ensures status { (result ≡ status_done) ⊎ (result ≡ status_shut) ⊎ (result ≡ status_missing)
        ⊎ (result ≡ status_no_room) }
{
    if !slot.live {
        return SHUT;
    }
    let held = slot.handle.engine();
    held.labels_say_indexes();
    let Some((told, length)) = tell_found(held, number, text) else {
        return MISSING;
    };
    *needed = length;
    if length > text.len() {
        *row = Row::default();
        return NO_ROOM;
    }
    *row = told;
    DONE
}

// Tells the answer for the attribute with this number and its texts, as far as there is room for them, and returns its row and the
// length of the texts.
fn tell_found(held: &SourcedEngine, number: usize, text: &mut [u8]) -> Option<(Row, usize)>
    ensures found { MatchOption result (labelled_found held.now number ≡ None) (λ r.
        MatchOption (labelled_found held.now number) ⊥ (λ m.
        (r.0 ≡ row_told held.now (Some number) 0 m)
        × IsLaid text.old (text_of held.now m) text.new r.1)) }
    ensures kept { IfNone result (text.new ≡ text.old) }
{
    let found = held.labelled().found(AttributeId(number))?;
    let texts = RowTexts::of(held, found);
    let row = Row::of(found, Some(AttributeId(number)), texts, 0);
    Some((row, texts.lay(text, 0)))
}

// Tells all answers and their texts, as far as there is room for them, and returns the length of the texts.
fn tell_all(held: &SourcedEngine, rows: &mut [Row], text: &mut [u8]) -> usize
    ensures rows { rows.new ≡ laid_rows rows.old (rows_of held.now) }
    ensures text { IsLaid text.old (text_of_all held.now) text.new result }
{
    let mut at = 0;
    for i in 0..held.labelled().num_answers() {
        at = tell(held, i, at, rows, text);
    }
    at
}

// Tells an answer and its texts, as far as there is room for them, and returns the length of all texts so far.
fn tell(held: &SourcedEngine, i: usize, at: usize, rows: &mut [Row], text: &mut [u8]) -> usize
    requires { i < length (answers_of held.now) }
    ensures rows { rows.new ≡ (if nat_lt i (length rows.old)
        then slice_set rows.old i (row_at held.now at i) else rows.old) }
    ensures text { IsLaidBehind text.old at (text_of held.now (labelled_answer held.now i))
        text.new result }
{
    let engine = held.labelled();
    let Some(found) = engine.answer(i) else {
        return at;
    };
    let texts = RowTexts::of(held, found);
    let row = Row::of(found, engine.number_of(i), texts, at);
    put_row(rows, i, row);
    texts.lay(text, at)
}

// Writes a row, if there is room for it.
fn put_row(rows: &mut [Row], i: usize, row: Row)
    ensures { rows.new ≡ (if nat_lt i (length rows.old) then slice_set rows.old i row
        else rows.old) }
{
    if i < rows.len() {
        rows[i] = row;
    }
}

// Tells the answers from one on, as far as there is room for them, and returns how many these are.
fn tell_from(held: &SourcedEngine, from: usize, rows: &mut [Row]) -> usize
    ensures rows { rows.new ≡ laid_rows rows.old (drop from (rows_alone held.now)) }
    ensures count { result ≡ min (length rows.old) (length (answers_of held.now) - from) }
{
    let count = held
        .labelled()
        .num_answers()
        .saturating_sub(from)
        .min(rows.len());
    for i in 0..count {
        rows[i] = row_alone(held, from + i);
    }
    count
}

// The row of an answer without the offset of its texts.
fn row_alone(held: &SourcedEngine, i: usize) -> Row
    requires { i < length (answers_of held.now) }
    ensures { result ≡ row_at held.now 0 i }
{
    let engine = held.labelled();
    match engine.answer(i) {
        Some(found) => Row::of(found, engine.number_of(i), RowTexts::of(held, found), 0),
        None => Row::default(),
    }
}
