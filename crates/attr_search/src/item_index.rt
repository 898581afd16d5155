//! An index among the items of a line that matches, or of a macro's body to which the line leads.

ghost use Rattle.std.specs.Prelude.{◌≡◌, ◌<◌, ⊤, MatchOption, length};
ghost use Rattle.attr_search.specs.shared.Slotted.{bodies_view};
ghost use Rattle.attr_search.specs.inner.Pending.{items_beside};

use crate::bodies::body_of;
use attr_lists::types::{Metadata, TrackedAssignment};
use std::rc::Rc;

/// An index among the items of a line, or of a macro's body. While the line fills slots, the items before it are still to be
/// processed.
#[derive(Clone, Copy, PartialEq, Eq, Debug)]
pub struct ItemIndex {
    /// The number of the macro whose body has the items, none if the line itself has them.
    pub cause: Option<usize>,
    /// The index in that body or in the line, from 0.
    pub index: usize,
}

impl ItemIndex {
    /// The items. `items` are those of the line, and `bodies` those of the macros, by number.
    pub fn items<'a>(
        self,
        items: &'a [TrackedAssignment],
        bodies: &'a [Option<Rc<Metadata>>],
    ) -> &'a [TrackedAssignment]
        requires { MatchOption self.cause ⊤ (λ number. number < length bodies.now) }
        ensures { result.now ≡ items_beside items.now (bodies_view bodies.now) self.cause }
    {
        match self.cause {
            None => items,
            Some(number) => body_of(bodies, number),
        }
    }
}
