//! How a buffer becomes patterns: the trait [`Pattern`].

ghost use Rattle.std.specs.Prelude.{ℕ, List, IfOk};
ghost use Rattle.attr_glob.specs.declared.search.pattern.Mapping.{Mapping};

use crate::search::pattern::Mapping;
use std::alloc::{AllocError, Global};
use std::fmt;
use std::hash::Hash;

/// How the lines of a buffer become patterns with values.
pub trait Pattern {
    /// What a line assigns, beside its pattern.
    type Value: PartialEq + Eq + PartialOrd + Ord + Hash + fmt::Debug + Clone + Drop;

    /// What is reported of a dropped line.
    type Dropped: Drop;

    // What a buffer from a source becomes: its mappings, and what is reported of the dropped lines.
    ghost reads: { Self → List ℕ → List ℕ →
        List (Mapping Self.Value) → List Self.Dropped → Type 0 };

    /// Reads a buffer, and returns its mappings and what is reported of the dropped lines. `source` is the
    /// path of its file.
    ///
    /// # Errors
    ///
    /// If memory runs out.
    fn bytes_to_patterns(
        &self,
        alloc: Global,
        bytes: &[u8],
        source: &str,
    ) -> Result<(Vec<Mapping<Self::Value>>, Vec<Self::Dropped>), AllocError>
        ensures { IfOk result (λ r. reads self.now bytes.now source.now r.0.items r.1.items) };
}
