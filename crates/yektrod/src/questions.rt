//! Names are selected, and paths are asked for.

ghost use Rattle.std.specs.Prelude.{◌≡◌, ◌⊎◌, ◌↔◌, All, IfOk, IsTrue, IsUtf8, None, Some, length, map, option_and_then, option_map};
ghost use Rattle.gix_attributes.specs.EngineStates.{AnswersTo, FindsFor, with_selection, without_answers};
ghost use Rattle.yektrod.specs.Held.{Becomes, held, labelled, sourced};
ghost use Rattle.yektrod.specs.Passed.{IsDirectoryNumber, directory_flag, passed_case};
ghost use Rattle.yektrod.specs.Statuses.{status_done, status_no_memory, status_shut, status_unreadable};

use crate::rows::PathQuestion;
use crate::slot::Slot;
use crate::status::{DONE, NO_MEMORY, SHUT, UNREADABLE};
use std::alloc::{AllocError, Global};

/// Selects the names that are looked up, in the order of the answers. No names select all.
#[unsafe(no_mangle)]
pub extern "C" fn yektrod_select(alloc: Global, slot: &mut Slot, names: &[&[u8]]) -> i32
    ensures done { result ≡ status_done → held slot.new
        ≡ option_map (with_selection (map (λ name. name.now) names.now)) (held slot.old) }
    ensures failed { ¬ (result ≡ status_done) → sourced slot.new ≡ sourced slot.old }
    ensures shut { result ≡ status_shut ↔ (held slot.old ≡ None) }
    ensures unreadable { result ≡ status_unreadable ↔ (¬ (held slot.old ≡ None)
        × ¬ All (λ name. IsUtf8 name.now) names.now) }
    ensures status { (result ≡ status_done) ⊎ (result ≡ status_no_memory)
        ⊎ (result ≡ status_shut) ⊎ (result ≡ status_unreadable) }
{
    if !slot.live {
        return SHUT;
    }
    if !are_texts(names) {
        return UNREADABLE;
    }
    let Ok(texts) = names_of(alloc, names) else {
        return NO_MEMORY;
    };
    match slot.handle.engine().select(alloc, &texts) {
        Ok(()) => DONE,
        Err(_) => NO_MEMORY,
    }
}

// Whether all names that are passed are UTF-8. It takes no memory.
fn are_texts(names: &[&[u8]]) -> bool
    ensures { IsTrue result ↔ All (λ name. IsUtf8 name.now) names.now }
{
    names.iter().all(|name| str::from_utf8(name).is_ok())
}

// The texts of names that are UTF-8. It fails if there is no memory.
fn names_of<'a>(alloc: Global, names: &[&'a [u8]]) -> Result<Vec<&'a str>, AllocError>
    requires { All (λ name. IsUtf8 name.now) names.now }
    ensures { IfOk result (λ texts.
        map (λ text. text.now) texts.items ≡ map (λ name. name.now) names.now) }
{
    let mut texts = Vec::with_capacity(alloc, names.len())?;
    for name in names {
        if let Ok(text) = str::from_utf8(name) {
            texts.push(text)?;
        }
    }
    Ok(texts)
}

/// Looks a path up, and says how many answers there are.
#[unsafe(no_mangle)]
pub extern "C" fn yektrod_ask(
    alloc: Global,
    slot: &mut Slot,
    path: &[u8],
    fold: bool,
    is_dir: i32,
    answers: &mut usize,
) -> i32
    ensures done { result ≡ status_done → Becomes (AnswersTo path.now (passed_case fold)
        (directory_flag is_dir)) (held slot.old) (held slot.new) }
    ensures found { result ≡ status_done → Becomes (FindsFor path.now (passed_case fold)
        (directory_flag is_dir)) (held slot.old) (held slot.new) }
    ensures labelled { result ≡ status_done → Becomes (AnswersTo path.now (passed_case fold)
        (directory_flag is_dir)) (labelled slot.old) (labelled slot.new) }
    ensures found_labelled { result ≡ status_done → Becomes (FindsFor path.now (passed_case fold)
        (directory_flag is_dir)) (labelled slot.old) (labelled slot.new) }
    ensures count { result ≡ status_done → option_map length
        (option_and_then (λ after. after.answers) (held slot.new)) ≡ Some answers.new }
    ensures refused { result ≡ status_no_memory →
        held slot.new ≡ option_map without_answers (held slot.old) }
    ensures failed { (result ≡ status_shut) ⊎ (result ≡ status_unreadable) →
        sourced slot.new ≡ sourced slot.old }
    ensures kept { ¬ (result ≡ status_done) → answers.new ≡ answers.old }
    ensures shut { result ≡ status_shut ↔ (held slot.old ≡ None) }
    ensures unreadable { result ≡ status_unreadable ↔ (¬ (held slot.old ≡ None)
        × ¬ IsDirectoryNumber is_dir) }
    ensures status { (result ≡ status_done) ⊎ (result ≡ status_no_memory)
        ⊎ (result ≡ status_shut) ⊎ (result ≡ status_unreadable) }
{
    if !slot.live {
        return SHUT;
    }
    let asked = PathQuestion { path, fold, is_dir };
    let Some(question) = asked.question() else {
        return UNREADABLE;
    };
    match slot.handle.engine().ask(alloc, question) {
        Ok(count) => {
            *answers = count;
            DONE
        }
        Err(_) => NO_MEMORY,
    }
}
