//! Laws of the lists that a collection registers, for any number of searches over it.

ghost use Rattle.std.specs.Prelude.{◌≡◌, ℕ, List, Option, length, map};
ghost use Rattle.attr_lists.specs.Collections.{Collection};
ghost use Rattle.attr_lists.specs.Definitions.{IsSoundCollection};
ghost use Rattle.attr_lists.specs.Numbers.{AppendsNames};
ghost use Rattle.attr_lists.specs.declared.types.TrackedAssignment.{TrackedAssignment};
ghost use Rattle.attr_search.specs.ListView.{Listed};
ghost use Rattle.attr_search.specs.Settings.{BodiesAreNamed, HeldAreNamed, ListsAreNamed};
ghost use Rattle.attr_search.specs.Slots.{Matched};
ghost use Rattle.gix_attributes.specs.Additions.{RegisteredLists};
ghost use Rattle.gix_attributes.specs.Contents.{bodies_of};
ghost use Rattle.gix_attributes.specs.Covered.{ListsAreCovered};
ghost use Rattle.gix_attributes.specs.Keeping.{Adds, Keeps};
ghost use Rattle.gix_attributes.specs.Registers.{Registered, RegistersExactly, last_definition, lists_registered};

/// The body of each name is its last definition in the lists that are registered: list by list in the order of their
/// addition, and line by line.
pub fn bodies_are_the_last_definitions()
    ensures { (known : Collection) (register : List Registered) →
        RegistersExactly known register →
        bodies_of known ≡ map (last_definition (lists_registered register)) known.names }
{}

/// The items of each body have the numbers of their names.
pub fn bodies_have_names()
    ensures { (known : Collection) → IsSoundCollection known →
        BodiesAreNamed known.names (bodies_of known) }
{}

/// Items that have the numbers of their names still have them after names are appended. A number that was a name's is
/// one still.
pub fn names_stay()
    ensures lists { (old new : List (List ℕ)) (lists : List Listed) → AppendsNames old new →
        ListsAreNamed old lists → ListsAreNamed new lists }
    ensures covered { (old new : List (List ℕ)) (lists : List Listed) → AppendsNames old new →
        ListsAreCovered (length old) lists → ListsAreCovered (length new) lists }
    ensures bodies { (old new : List (List ℕ)) (bodies : List (List TrackedAssignment)) →
        AppendsNames old new → BodiesAreNamed old bodies → BodiesAreNamed new bodies }
    ensures answers { (old new : List (List ℕ)) (answers : List (Option Matched)) →
        AppendsNames old new → HeldAreNamed old answers → HeldAreNamed new answers }
{}

/// What each of two calls keeps, both keep. What they add comes in the order of the calls.
pub fn calls_follow_one_another()
    ensures kept { (one two three : RegisteredLists) → Keeps one two → Keeps two three →
        Keeps one three }
    ensures added { (one two three : RegisteredLists) → Adds one two → Adds two three →
        Adds one three }
{}
