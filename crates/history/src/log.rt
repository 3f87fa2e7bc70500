ghost use Rattle.std.specs.Prelude.{◌≡◌, List, [], ◌∷◌, ◌++◌};
ghost use Rattle.std.specs.Borrow.{ftrue};

use std::marker::{Model, PhantomData};

/// All that was ever noted, the oldest first, for proofs alone: no item is kept, a log takes no
/// memory, and its methods do nothing at run time. A clause reads what was noted as `items`, so that
/// what a ring or a queue holds can be told as the last of all that it ever held.
#[derive(Drop)]
pub struct Log<T> {
    of: PhantomData<T>,
    /// All that was noted.
    pub ghost items: { List T },
}

impl<T> Model for Log<T> {
    ghost also_owns = { λ _. ftrue };
}

// It owns nothing.
unsafe impl<T: Send> Send for Log<T> {}

impl<T> Log<T> {
    /// Nothing was noted yet.
    pub fn new() -> Log<T>
        ensures { result.items ≡ [] }
    {
        Log { of: PhantomData }
    }

    /// The log with one item more.
    pub fn and(&self, item: &T) -> Log<T>
        ensures { result.items ≡ self.now.items ++ item.now ∷ [] }
    {
        Log { of: PhantomData }
    }

    /// The log with all items of a slice more.
    pub fn and_all(&self, items: &[T]) -> Log<T>
        ensures { result.items ≡ self.now.items ++ items.now }
    {
        Log { of: PhantomData }
    }
}
