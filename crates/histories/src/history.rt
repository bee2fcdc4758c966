//! The list.
ghost use Rattle.std.specs.Prelude.{◌≡◌, List, [], ◌∷◌, ◌++◌};
ghost use Rattle.std.specs.Borrow.{ftrue};

use std::marker::{Model, PhantomData};

/// A list for proofs only: it has no bytes, and its methods do nothing when they run. A clause reads it as `items`.
#[derive(Drop)]
pub struct History<T> {
    of: PhantomData<T>,
    pub ghost items: { List T },
}

impl<T> Model for History<T> {
    ghost also_owns = { λ _. ftrue };
}

impl<T> History<T> {
    pub fn new() -> History<T>
        ensures { result.items ≡ [] }
    {
        History { of: PhantomData }
    }

    /// The list with one more item.
    pub fn and(&self, item: &T) -> History<T>
        ensures { result.items ≡ self.now.items ++ item.now ∷ [] }
    {
        History { of: PhantomData }
    }

    /// The list with these items appended.
    pub fn and_all(self, items: &[T]) -> History<T>
        ensures { result.items ≡ self.items ++ items.now }
    {
        let mut all = self;
        for item in items {
            all = all.and(item);
        }
        all
    }
}
