//! The numbers of the answers without a selection.

ghost use Rattle.std.specs.Prelude.{◌≡◌, ◌++◌, ◌∷◌, [], None, OnOk, slice_index_or, if◌then◌else◌};
ghost use Rattle.std.specs.List.Sorted.{IsStrictlyIncreasing};
ghost use Rattle.attr_search.specs.shared.SlotContents.{AreListed};
ghost use Rattle.gix_attributes.specs.Contents.{found_in};
ghost use Rattle.gix_attributes.specs.EngineStates.{specified_among};
ghost use Rattle.gix_attributes.specs.inner.SoundEngines.{AreNumbered, AreNumbersOf, is_slot_specified};

use crate::search::Outcome;
use std::alloc::AllocError;

// The numbers of the attributes that are found and not unspecified, if nothing is selected, in place of those that are there.
pub(crate) fn number_answers(outcome: &Outcome, numbers: &mut Vec<usize>) -> Result<(), AllocError>
    ensures { OnOk result (AreNumbered outcome.now numbers.new.items) }
{
    numbers.clear();
    if outcome.selected_len() > 0 {
        return Ok(());
    }
    match outcome.state.slots.listed() {
        Some(listed) => number_listed(outcome, listed, numbers),
        None => number_all(outcome, numbers),
    }
}

// The numbers among those of slots that have an answer, which are in their order.
fn number_listed(
    outcome: &Outcome,
    listed: &[usize],
    numbers: &mut Vec<usize>,
) -> Result<(), AllocError>
    requires listed { AreListed outcome.now.slots listed.now }
    requires ordered { IsStrictlyIncreasing listed.now }
    requires none { numbers.old.items ≡ [] }
    ensures { OnOk result (AreNumbersOf
        outcome.now.slots (specified_among (found_in outcome.now.slots)) numbers.new.items) }
{
    for number in listed {
        push_specified(outcome, *number, numbers)?;
    }
    Ok(())
}

// The same, slot by slot.
fn number_all(outcome: &Outcome, numbers: &mut Vec<usize>) -> Result<(), AllocError>
    requires { numbers.old.items ≡ [] }
    ensures { OnOk result (AreNumbersOf
        outcome.now.slots (specified_among (found_in outcome.now.slots)) numbers.new.items) }
{
    for number in 0..outcome.len() {
        push_specified(outcome, number, numbers)?;
    }
    Ok(())
}

// Pushes a number if its slot has an answer that is not unspecified.
fn push_specified(
    outcome: &Outcome,
    number: usize,
    numbers: &mut Vec<usize>,
) -> Result<(), AllocError>
    ensures { OnOk result (numbers.new.items ≡ (if is_slot_specified (slice_index_or
        outcome.now.slots number None) then numbers.old.items ++ number ∷ []
        else numbers.old.items)) }
{
    if is_specified(outcome, number) {
        numbers.push(number)?;
    }
    Ok(())
}

// Whether the attribute with this number has an answer that is not unspecified.
fn is_specified(outcome: &Outcome, number: usize) -> bool
    ensures { result ≡ is_slot_specified (slice_index_or outcome.now.slots number None) }
{
    match outcome.state.slots.assigned(number) {
        Some(assignment) => !assignment.state.as_ref().is_unspecified(),
        None => false,
    }
}
