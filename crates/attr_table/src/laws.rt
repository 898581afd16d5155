//! Laws of all settings. A law is the contract of a function that does nothing.
//!
//! A setting is lists of lines, and the body of each macro. A table gives each attribute at most one item of a
//! setting. It is stable if each is the earliest item that counts for its attribute. The start is what earlier
//! searches found. The cut of a table is what is left of it if the search stops once each wanted attribute has an
//! answer.

ghost use Rattle.std.specs.Prelude.{◌≡◌, ℕ, ◌⊎◌, List, [], ◌∷◌, ◌++◌, Bool, true, None, All, Contains};
ghost use Rattle.attr_table.specs.Setting.{Item, Line, Setting};
ghost use Rattle.attr_table.specs.Table.{Table, Slots, item_at, IsEarlier, IsStable, OneTable};
ghost use Rattle.attr_table.specs.Cut.{IsCut, IsSearched, ExtendsCuts, full_answer, is_done, no_answers};
ghost use Rattle.attr_table.specs.Skipped.{IsClosed, narrowed};
ghost use Rattle.attr_table.specs.Work.{work_of};
ghost use Rattle.attr_table.specs.inner.Worked.{cycle, cycle_answers, a_set, b_set, a_on_line, b_in_a, a_in_b};
ghost use Rattle.attr_table.specs.shared.Walk.{Walks, tasks_of};

/// For any setting and start exactly one table is stable, however macros name one another.
pub fn one_table()
    ensures { (s : Setting) (start : Slots) → OneTable s start }
{}

/// A walk goes through the items of lines and of the macros that they set. If it starts from all items of lines, and
/// stops once each wanted attribute has an answer, it returns the cut of the stable table.
pub fn walk_cuts()
    ensures { (s : Setting) (start final : Slots) (wanted : List ℕ) (table : Table) →
        IsStable s start table → Walks s.bodies (is_done wanted) (tasks_of s.lists) start final →
        IsCut s start table wanted final }
{}

/// The slots of a search, which are its answers by number, are unique: no others are the cut of the stable table.
pub fn one_outcome()
    ensures { (s : Setting) (wanted : List ℕ) (start slots other : Slots) →
        IsSearched s wanted start slots → IsSearched s wanted start other → slots ≡ other }
{}

/// Stopping early changes no answer: a wanted attribute has the answer that the whole table gives it, and any other
/// attribute has that answer or none.
pub fn stopping_is_unseen()
    ensures wanted { (s : Setting) (start : Slots) (wanted : List ℕ) (table : Table)
        (slots : Slots) (a : ℕ) →
        IsStable s start table → IsCut s start table wanted slots → Contains wanted a →
        slots a ≡ full_answer s (start a) (table a) }
    ensures others { (s : Setting) (start : Slots) (wanted : List ℕ) (table : Table)
        (slots : Slots) (a : ℕ) →
        IsStable s start table → IsCut s start table wanted slots →
        (slots a ≡ None) ⊎ (slots a ≡ full_answer s (start a) (table a)) }
{}

/// Two searches, one after the other, return the slots that one search over the joined lists returns, from any start.
/// In the joined lists, those of the first search are the last.
pub fn searches_join()
    ensures { (first second : List (List Line)) (bodies : List (List Item)) (wanted : List ℕ)
        (start middle slots : Slots) →
        IsSearched (record { lists = first; bodies = bodies }) wanted start middle →
        IsSearched (record { lists = second; bodies = bodies }) wanted middle slots →
        IsSearched (record { lists = second ++ first; bodies = bodies }) wanted start slots }
{}

/// If a search begins with the cut of some lists over empty slots, it returns the cut of its own lists followed by
/// those, over empty slots.
pub fn searches_extend_cuts()
    ensures { (s : Setting) (wanted : List ℕ) (before after : Slots) →
        IsSearched s wanted before after → ExtendsCuts s.lists s.bodies wanted before after }
{}

/// A search may skip attributes. The wanted attributes are needed, and if an attribute is needed, so is each macro
/// whose body has an item of it. A search that counts the slots of all others as filled returns for each needed
/// attribute what the search returns that skips nothing.
pub fn skipping_is_unseen()
    ensures { (s : Setting) (needed : ℕ → Bool) (wanted : List ℕ) (start slots : Slots) →
        IsClosed s.bodies needed → All (λ w. needed w ≡ true) wanted →
        IsSearched s wanted (narrowed needed start) slots →
        (all : Slots) × IsSearched s wanted start all × (slots ≡ narrowed needed all) }
{}

/// An example: two macros name each other, and a line sets one of them. That one is decided by the line, and the other
/// by the first one's body. The first is an item of the second's body too, but that item comes later.
pub fn worked_cycle()
    ensures items { (item_at cycle a_on_line ≡ Some a_set) × (item_at cycle b_in_a ≡ Some b_set)
        × (item_at cycle a_in_b ≡ Some a_set) }
    ensures order { IsEarlier a_on_line b_in_a × IsEarlier b_in_a a_in_b }
    ensures answers { IsSearched cycle (0 ∷ 1 ∷ []) no_answers cycle_answers }
    ensures only { (slots : Slots) → IsSearched cycle (0 ∷ 1 ∷ []) no_answers slots →
        slots ≡ cycle_answers }
    ensures work { work_of cycle ≡ 3 }
{}
