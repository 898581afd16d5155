//! Laws of all engines. A law is the contract of a function that does nothing.

ghost use Rattle.std.specs.Prelude.{◌≡◌, ◌<◌, ◌^◌, ◌++◌, ℕ, Bool, List, Option, Some, length, slice_get};
ghost use Rattle.attr_wildmatch.specs.declared.case.Case.{Case};
ghost use Rattle.gix_attributes.specs.EngineStates.{AddedList, AnswersTo, EngineContent, EngineState, FindsFor, number_answered, with_list_below, without_last};
ghost use Rattle.gix_attributes.specs.Told.{AreLabelsBelow, IsLabelBelow, addition_told, content_told, label_at, source_at, state_told};

/// Sources only tell: if lists get other sources, however these stand for the sources before, each question has the same
/// answers, and what is found for it is the same, but for the sources that they tell; and lists are added and removed as before.
pub fn sources_only_tell()
    ensures answers { (told : List ℕ → List ℕ) (path : List ℕ) (case : Case)
        (is_dir : Option Bool) (before after : EngineContent) →
        AnswersTo path case is_dir before after →
        AnswersTo path case is_dir (content_told told before) (content_told told after) }
    ensures found { (told : List ℕ → List ℕ) (path : List ℕ) (case : Case)
        (is_dir : Option Bool) (before after : EngineContent) →
        FindsFor path case is_dir before after →
        FindsFor path case is_dir (content_told told before) (content_told told after) }
    ensures added { (told : List ℕ → List ℕ) (a : AddedList) (held : EngineContent) →
        content_told told (with_list_below a held)
        ≡ with_list_below (addition_told told a) (content_told told held) }
    ensures popped { (told : List ℕ → List ℕ) (held : EngineContent) →
        content_told told (without_last held) ≡ without_last (content_told told held) }
    ensures numbers { (told : List ℕ → List ℕ) (held : EngineContent) (index : ℕ) →
        number_answered (content_told told held) index ≡ number_answered held index }
{}

/// A label stands for the source with its index, and more sources change nothing of lists that are labelled below them.
pub fn labels_stand_for_sources()
    ensures label { (sources : List (List ℕ)) (index : ℕ) (source : List ℕ) → index < 2 ^ 64 →
        slice_get sources index ≡ Some source → source_at sources (label_at index) ≡ source }
    ensures below { (index count : ℕ) → index < 2 ^ 64 → index < count →
        IsLabelBelow count (label_at index) }
    ensures more { (sources more : List (List ℕ)) (s : EngineState) →
        AreLabelsBelow (length sources) s.lists →
        state_told (source_at (sources ++ more)) s ≡ state_told (source_at sources) s }
{}
