//! A name with the state that is assigned to it.
ghost use Rattle.std.specs.Prelude.{codes, ◌≡◌, Some, IfOk};

use crate::{Name, NameRef, State, StateRef};
use std::alloc::{AllocError, Global};
use std::default::MadeWith;
use std::fmt;

/// An attribute's name and the state that is assigned to it.
#[derive(PartialEq, Eq, PartialOrd, Ord, Hash, Debug, Drop)]
pub struct Assignment {
    /// The name of the attribute.
    pub name: Name,
    /// The state that it gets.
    pub state: State,
}

/// A reference to an attribute's name and to the state that is assigned to it.
#[derive(Clone, Copy, PartialEq, Eq, PartialOrd, Ord, Hash, Debug)]
pub struct AssignmentRef<'a> {
    /// The name of the attribute.
    pub name: NameRef<'a>,
    /// The state that it gets.
    pub state: StateRef<'a>,
}

impl<'a> AssignmentRef<'a> {
    ghost use Rattle.attr_text.specs.TextViews.{assignment_view};

    /// The assignment with a name and a value of its own.
    ///
    /// # Errors
    ///
    /// If memory runs out.
    pub fn to_owned(self, alloc: Global) -> Result<Assignment, AllocError>
        ensures { IfOk result (λ a. a ≡ assignment_view self.entry) }
    {
        Ok(Assignment {
            name: self.name.to_owned(alloc)?,
            state: self.state.to_owned(alloc)?,
        })
    }
}

impl Assignment {
    ghost use Rattle.attr_text.specs.TextViews.{assignment_view};

    /// A reference to the assignment.
    pub fn as_ref(&self) -> AssignmentRef<'_>
        ensures { assignment_view result ≡ self.now }
    {
        AssignmentRef {
            name: self.name.as_ref(),
            state: self.state.as_ref(),
        }
    }

    /// A copy, which shares the text of the name and the bytes of the value.
    ///
    /// # Errors
    ///
    /// If there are `usize::MAX` copies of the name or of the value already.
    pub fn clone(&self, alloc: Global) -> Result<Assignment, AllocError>
        ensures { IfOk result (λ copy. copy ≡ self.now) }
    {
        Ok(Assignment {
            name: self.name.clone(alloc)?,
            state: self.state.clone(alloc)?,
        })
    }
}

impl MadeWith<Global> for Assignment {
    ghost use Rattle.attr_text.specs.declared.state.State.TheVariants.{Unspecified};

    ghost is_made_with = { λ a. (a.name ≡ codes "_") × (a.state ≡ Unspecified) };

    fn made_with(alloc: Global) -> Assignment {
        Assignment {
            name: Name::made_with(alloc),
            state: State::made_with(alloc),
        }
    }
}

impl Clone for Assignment {
    ghost is_clone = { λ s copy. copy ≡ s };

    fn clone(&self) -> Result<Assignment, AllocError> {
        Ok(Assignment {
            name: Clone::clone(&self.name)?,
            state: Clone::clone(&self.state)?,
        })
    }
}

/// The assignment as an attributes file spells it: `name`, `-name`, `name=value` or `!name`, with U+FFFD for each part of a
/// value that is not UTF-8.
impl<'a> fmt::Display for AssignmentRef<'a> {
    ghost use Rattle.attr_text.specs.TextViews.{assignment_view};
    ghost use Rattle.attr_text.specs.Items.{printed};

    ghost output = { λ a. Some (printed (assignment_view a)) };

    fn fmt<W: fmt::Write>(&self, f: &mut fmt::Formatter<W>) -> fmt::Result {
        let name = self.name.as_str();
        match self.state {
            StateRef::Set => write!(f, "{name}"),
            StateRef::Unset => write!(f, "-{name}"),
            StateRef::Value(value) => {
                let value = value.as_bstr();
                write!(f, "{name}={value}")
            }
            StateRef::Unspecified => write!(f, "!{name}"),
        }
    }
}
