//! A name that an outcome looks for.

ghost use Rattle.std.specs.Prelude.{◌≡◌, IfOk};
ghost use Rattle.std.specs.Rc.{rc_str_bytes};
ghost use Rattle.attr_text.specs.Names.{is_valid_name};
ghost use Rattle.attr_text.specs.TextViews.{name_text};
ghost use Rattle.gix_attributes.specs.Contents.{reported_name};

use attr_text::NameRef;
use bstr::BStr;
use std::alloc::AllocError;
use std::rc::RcStr;

/// A selected name, with its number if the collection has it.
#[derive(Drop)]
pub(crate) struct SelectedName {
    /// The name as it was selected. It need not be a valid name.
    pub name: RcStr,
    /// Whether it is a valid name.
    pub is_valid: bool,
    /// The number that the collection had for it.
    pub number: Option<usize>,
    ghost named: { is_valid ≡ is_valid_name (rc_str_bytes name) },
}

impl SelectedName {
    /// A text that is selected, with its number. Whether it is a valid name is found once, and not for each path.
    pub(crate) fn new(name: RcStr, number: Option<usize>) -> SelectedName
        ensures name { rc_str_bytes result.name ≡ rc_str_bytes name }
        ensures number { result.number ≡ number }
    {
        let is_valid = NameRef::try_from(BStr::from(name.as_str())).is_ok();
        SelectedName {
            name,
            is_valid,
            number,
        }
    }

    /// The same text, of which no copy is made, with another number.
    ///
    /// # Errors
    ///
    /// If there are `usize::MAX` copies of the text.
    pub(crate) fn with_number(&self, number: Option<usize>) -> Result<SelectedName, AllocError>
        ensures name { IfOk result (λ copy. rc_str_bytes copy.name ≡ rc_str_bytes self.now.name) }
        ensures number { IfOk result (λ copy. copy.number ≡ number) }
    {
        Ok(SelectedName {
            name: self.name.clone()?,
            is_valid: self.is_valid,
            number,
        })
    }

    /// The name by which it is reported if no line assigns it: `invalid` if it is no valid name.
    pub(crate) fn reported(&self) -> NameRef<'_>
        ensures { name_text result ≡ reported_name (rc_str_bytes self.now.name) }
    {
        NameRef::of(if self.is_valid {
            self.name.as_str()
        } else {
            "invalid"
        })
    }
}
