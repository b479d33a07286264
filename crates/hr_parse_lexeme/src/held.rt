ghost use Rattle.std.specs.Prelude.{◌≡◌};

use std::marker::Model;

/// A value that is dropped by a call. A tree that is held so over a step that may fail costs the check one step,
/// where a plain one costs as many as its type has variants, each with all that is in it.
pub struct Held<T> {
    value: T,
}

impl<T> Model for Held<T> {
    ghost Value = { T };

    ghost coded = { T.code };

    ghost view = { λ held. held.value };
}

impl<T: Drop> Drop for Held<T> {
    fn drop(self) {
        let Held { value } = self;
        drop(value);
    }
}

impl<T: Drop> Held<T> {
    pub fn new(value: T) -> Held<T>
        ensures { result ≡ value }
    {
        Held { value }
    }

    pub fn get(&self) -> &T
        ensures { result.now ≡ self.now }
    {
        &self.value
    }

    pub fn take(self) -> T
        ensures { result ≡ self }
    {
        let Held { value } = self;
        value
    }
}
