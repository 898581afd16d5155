//! The values of a search: assignments with their numbers, the value of a line, and a match.
ghost use Rattle.std.specs.Prelude.{◌≡◌, [], IfOk};
ghost use Rattle.attr_lists.specs.Numbers.{no_number};
ghost use Rattle.attr_lists.specs.ListViews.{SameValue};

pub use crate::parser::Attributes;
use attr_glob::Pattern;
use attr_text::{Assignment, AssignmentRef};
use smallvec::SmallVec;
use std::alloc::{AllocError, Global};
use std::default::MadeWith;

/// The assignments of a line. Up to three of them, as most lines have, take no memory of their own.
pub type Assignments = SmallVec<TrackedAssignment, 3>;

/// The value of a line: its assignments, or the macro that it defines (gitattributes, "Defining macro attributes").
#[derive(PartialEq, Eq, PartialOrd, Ord, Hash, Debug, Drop)]
pub enum Value {
    /// The line defines a macro, whose name is the text of the line's pattern.
    MacroAssignments {
        /// The number of the macro's name.
        id: AttributeId,
        /// The body: the assignments that the macro expands to.
        assignments: Assignments,
    },
    /// The assignments of the paths that the line's pattern matches.
    Assignments(Assignments),
}

/// An assignment, with the number of its attribute.
#[derive(PartialEq, Eq, PartialOrd, Ord, Hash, Debug, Drop)]
pub struct TrackedAssignment {
    /// The attribute's number in a collection, or `AttributeId::default()` before the line is numbered.
    pub id: AttributeId,
    /// The attribute's name and its state.
    pub inner: Assignment,
}

/// A line of an attributes file that a list drops (own: `gix-attributes` only logs such lines).
#[derive(Clone, Copy, PartialEq, Eq, Debug)]
pub struct Dropped {
    /// The number of the line, from 1.
    pub line: usize,
    /// Why the list drops it.
    pub reason: DropReason,
}

/// Why a line is dropped.
#[derive(Clone, Copy, PartialEq, Eq, Debug)]
pub enum DropReason {
    /// The line defines a macro, and its name is invalid or reserved.
    MacroName,
    /// The line's pattern begins with `!`, which is forbidden (gitattributes).
    NegativePattern,
    /// One of its items has no valid name. One such item drops the whole line, as in git.
    InvalidName,
    /// One of its items has a reserved name.
    Reserved,
}

/// The number of an attribute in a collection, from 0 in the order in which names are first seen.
#[derive(Clone, Copy, PartialEq, Eq, PartialOrd, Ord, Hash, Debug)]
pub struct AttributeId(pub usize);

/// The metadata of a name in a collection.
#[derive(PartialEq, Eq, PartialOrd, Ord, Hash, Debug, Drop)]
pub struct Metadata {
    /// The name's number.
    pub id: AttributeId,
    /// The assignments that the name expands to as a macro. If there are none, it is no macro.
    pub macro_attributes: Assignments,
}

/// An answer of a search: a path matched a pattern, whose line decides an attribute.
#[derive(Clone, Copy, PartialEq, Eq, PartialOrd, Ord, Hash, Debug)]
pub struct Match<'a> {
    /// The pattern that matched.
    pub pattern: &'a Pattern,
    /// The attribute's name, and the state that the line assigns.
    pub assignment: AssignmentRef<'a>,
    /// Whether the attribute is a macro, and which macro expanded to it.
    pub kind: MatchKind,
    /// The file and the line of the pattern.
    pub location: MatchLocation<'a>,
}

/// The file and the line of a pattern.
#[derive(Clone, Copy, PartialEq, Eq, PartialOrd, Ord, Hash, Debug)]
pub struct MatchLocation<'a> {
    /// The path of the file, if the list has one.
    pub source: Option<&'a str>,
    /// The number of the line, from 1.
    pub sequence_number: usize,
}

/// Whether a matched attribute is a macro, and which macro expanded to it.
#[derive(Clone, Copy, PartialEq, Eq, PartialOrd, Ord, Hash, Debug)]
pub enum MatchKind {
    /// It is no macro.
    Attribute {
        /// The macro whose body has the attribute, none if the line itself names it.
        macro_id: Option<AttributeId>,
    },
    /// It is a macro.
    Macro {
        /// The macro whose body has the attribute, none if the line itself names it.
        parent_macro_id: Option<AttributeId>,
    },
}

impl MatchKind {
    ghost use Rattle.attr_lists.specs.ListViews.{source_id_of};

    /// The macro whose body has the attribute, none if the line itself names it.
    pub fn source_id(&self) -> Option<AttributeId>
        ensures { result ≡ source_id_of self.now }
    {
        match self {
            MatchKind::Attribute { macro_id: id }
            | MatchKind::Macro {
                parent_macro_id: id,
            } => *id,
        }
    }
}

impl Default for AttributeId {
    ghost is_default = { λ id. id.0 ≡ no_number };

    /// The number that no attribute has: `usize::MAX`.
    fn default() -> AttributeId {
        AttributeId(usize::MAX)
    }
}

impl Metadata {
    /// The metadata of a name without a body. It takes no memory.
    pub fn of(alloc: Global, id: AttributeId) -> Metadata
        ensures id { result.id ≡ id }
        ensures body { result.macro_attributes.items ≡ [] }
    {
        Metadata {
            id,
            macro_attributes: SmallVec::new(alloc),
        }
    }

    /// A copy of the number and the body.
    ///
    /// # Errors
    ///
    /// If memory runs out.
    pub fn clone(&self, _alloc: Global) -> Result<Metadata, AllocError>
        ensures id { IfOk result (λ copy. copy.id ≡ self.now.id) }
        ensures body { IfOk result (λ copy. copy.macro_attributes.items
            ≡ self.now.macro_attributes.items) }
    {
        Ok(Metadata {
            id: self.id,
            macro_attributes: cloned(&self.macro_attributes)?,
        })
    }
}

impl TrackedAssignment {
    /// A copy, which shares the text of the name.
    ///
    /// # Errors
    ///
    /// If memory runs out.
    pub fn clone(&self, alloc: Global) -> Result<TrackedAssignment, AllocError>
        ensures { IfOk result (λ copy. copy ≡ self.now) }
    {
        Ok(TrackedAssignment {
            id: self.id,
            inner: self.inner.clone(alloc)?,
        })
    }
}

impl Clone for TrackedAssignment {
    ghost is_clone = { λ s copy. copy ≡ s };

    fn clone(&self) -> Result<TrackedAssignment, AllocError> {
        Ok(TrackedAssignment {
            id: self.id,
            inner: Clone::clone(&self.inner)?,
        })
    }
}

// A short list has this assignment at each index that is not filled yet.
impl MadeWith<Global> for TrackedAssignment {
    fn made_with(alloc: Global) -> TrackedAssignment {
        TrackedAssignment {
            id: AttributeId::default(),
            inner: Assignment::made_with(alloc),
        }
    }
}

impl Value {
    /// A copy, with assignments of its own.
    ///
    /// # Errors
    ///
    /// If memory runs out.
    pub fn clone(&self, _alloc: Global) -> Result<Value, AllocError>
        ensures { IfOk result (λ copy. SameValue self.now copy) }
    {
        Clone::clone(self)
    }
}

impl Clone for Value {
    ghost is_clone = { SameValue };

    fn clone(&self) -> Result<Value, AllocError> {
        match self {
            Value::MacroAssignments { id, assignments } => Ok(Value::MacroAssignments {
                id: *id,
                assignments: cloned(assignments)?,
            }),
            Value::Assignments(assignments) => Ok(Value::Assignments(cloned(assignments)?)),
        }
    }
}

/// The clone of a short list, whose contract here is about its items.
///
/// # Errors
///
/// If memory runs out.
pub(crate) fn cloned(assignments: &Assignments) -> Result<Assignments, AllocError>
    ensures { IfOk result (λ copy. copy.items ≡ assignments.now.items) }
{
    assignments.clone()
}
