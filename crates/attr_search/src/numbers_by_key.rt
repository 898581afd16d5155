//! Numbers 0, 1, 2 and so on, each with a key, and which of them have the same key.

ghost use Rattle.std.specs.Prelude.{◌≡◌, ◌-◌, ◌<◌, [], ◌∷◌, ◌++◌, OnOk, length, take};
ghost use Rattle.attr_search.specs.inner.KeyLinks.{AppendsKeyed};

use std::alloc::{AllocError, Global};
use std::collections::HashMap;
use std::marker::Model;

/// Numbers from 0 on, each with a key, by which it is found.
#[derive(Drop)]
pub struct NumbersByKey {
    // For each key the greatest number that has it.
    latest: HashMap<u64, usize>,
    links: Vec<Link>,
}

/// The key of a number, and the greatest smaller number that has the same.
#[derive(Clone, Copy)]
pub struct Link {
    pub key: u64,
    pub earlier: Option<usize>,
}

impl Model for NumbersByKey {
    ghost use Rattle.attr_search.specs.KeyedNumbers.{KeyedNumbers};

    ghost Value = { KeyedNumbers };

    ghost use Rattle.attr_search.specs.inner.NumbersView.{AreLinked, numbers_view};

    ghost view = { numbers_view };

    ghost invariant = { AreLinked };
}

impl NumbersByKey {
    /// No numbers. It takes no memory.
    pub fn new(alloc: Global) -> NumbersByKey
        ensures { result.keys ≡ [] }
    {
        NumbersByKey {
            latest: HashMap::new(alloc),
            links: Vec::new(alloc),
        }
    }

    /// Makes room for one more number.
    ///
    /// # Errors
    ///
    /// If memory runs out.
    pub fn reserve(&mut self) -> Result<(), AllocError>
        ensures keys { self.new.keys ≡ self.old.keys }
        ensures room { OnOk result (0 < self.new.room) }
    {
        self.latest.reserve(1)?;
        self.links.reserve(1)
    }

    /// Gives the next number a key. There is room for it.
    pub fn push_reserved(&mut self, key: u64)
        requires { 0 < self.old.room }
        ensures { self.new.keys ≡ self.old.keys ++ key ∷ [] }
    {
        let earlier = match self.latest.insert(key, self.links.len()) {
            Ok(earlier) => earlier,
            Err(_) => unreachable!(),
        };
        self.links.push_reserved(Link { key, earlier });
    }

    /// Removes the last number, if there is one. It takes no memory.
    pub fn pop(&mut self)
        ensures { self.new.keys ≡ take (length self.old.keys - 1) self.old.keys }
    {
        let Some(link) = self.links.pop() else {
            return;
        };
        match link.earlier {
            Some(number) => match self.latest.insert(link.key, number) {
                Ok(_) => {}
                Err(_) => unreachable!(),
            },
            None => {
                self.latest.remove(&link.key);
            }
        }
    }

    /// Appends the numbers that have a key.
    ///
    /// # Errors
    ///
    /// If memory runs out. Some of the numbers may have been appended then.
    pub fn append(&self, key: u64, numbers: &mut Vec<usize>) -> Result<(), AllocError>
        ensures { OnOk result (AppendsKeyed self.now.keys key numbers.old.items numbers.new.items) }
    {
        let mut next = self.latest.get(&key).copied();
        while let Some(number) = next {
            numbers.push(number)?;
            next = self.links[number].earlier;
        }
        Ok(())
    }
}
