//! The case of letters.

/// Whether the case of ASCII letters matters.
#[derive(Clone, Copy, PartialEq, Eq, PartialOrd, Ord, Hash, Debug)]
pub enum Case {
    /// Letters of different case differ.
    Sensitive,
    /// Letters of different case are the same.
    Fold,
}
