ghost use Rattle.std.specs.Prelude.{◌≡◌, IfOk};

use crate::refusal::Memory;
use std::alloc::Global;
use std::marker::Model;

/// A `Box` that contracts see as the value in it, for types that lead back to themselves.
#[derive(Drop)]
pub struct Boxed<T> {
    inner: Box<T>,
}

impl<T> Model for Boxed<T> {
    ghost Value = { T };

    ghost coded = { T.code };

    ghost view = { λ boxed. boxed.inner.value };
}

impl<T> Boxed<T> {
    /// The value.
    pub fn get(&self) -> &T
        ensures { result.now ≡ self.now }
    {
        &self.inner
    }

    /// The value, out of its box.
    pub fn into_inner(self) -> T
        ensures { result ≡ self }
    {
        let Boxed { inner } = self;
        Box::into_inner(inner)
    }
}

impl<T: Drop> Boxed<T> {
    /// Puts a value into a box.
    pub fn new(alloc: Global, value: T) -> Result<Boxed<T>, Memory>
        ensures { IfOk result (λ boxed. boxed ≡ value) }
    {
        match Box::new(alloc, value) {
            Ok(inner) => Ok(Boxed { inner }),
            Err(_) => Err(Memory),
        }
    }
}
