//! A text that only proofs read: what was written so far. It takes no memory.

ghost use Rattle.std.specs.Prelude.{◌≡◌, ◌++◌, ℕ, List, []};
ghost use Rattle.std.specs.Borrow.{ftrue};

use std::marker::Model;

/// What was written so far.
#[derive(Drop)]
pub struct Taken {
    pub ghost text: { List ℕ },
}

impl Model for Taken {
    ghost also_owns = { λ _. ftrue };
}

impl Taken {
    /// Nothing was written so far.
    pub fn nothing() -> Taken
        ensures { result.text ≡ [] }
    {
        Taken {}
    }

    /// These bytes were written after what was written before.
    pub fn and(&self, _bytes: &[u8]) -> Taken
        ensures { result.text ≡ self.now.text ++ _bytes.now }
    {
        Taken {}
    }
}
