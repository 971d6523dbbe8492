//! What a value was at first, for clauses alone.
ghost use Rattle.std.specs.Prelude.{◌≡◌};
ghost use base.Fml.{ftrue};

use std::marker::{Model, PhantomData};

/// A value as clauses saw it when this was made. It has no bytes and owns nothing, and a struct that holds it
/// may go to another thread where its other fields may.
pub struct Origin<T> {
    marker: PhantomData<T>,
    pub ghost value: { T },
}

impl<T> Model for Origin<T> {
    ghost also_owns = { λ _. ftrue };
}

impl<T> Origin<T> {
    pub fn of(x: &T) -> Origin<T>
        ensures { result.value ≡ x.now }
    {
        let _ = x;
        Origin {
            marker: PhantomData,
        }
    }
}

unsafe impl<T> Send for Origin<T> {}

unsafe impl<T> Sync for Origin<T> {}

impl<T> Drop for Origin<T> {
    fn drop(self) {
        let Self { marker: _ } = self;
    }
}
