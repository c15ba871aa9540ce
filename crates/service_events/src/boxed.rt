// The place of an event's large values.
ghost use Rattle.std.specs.Prelude.{◌≡◌, IfOk};

use kr_base::OutOfMemory;
use std::alloc::Global;
use std::marker::Model;

/// A value in a place of its own, so that what contains it is small. A contract sees the value.
#[derive(Drop)]
pub struct Boxed<T> {
    pub(crate) inner: Box<T>,
}

impl<T> Model for Boxed<T> {
    ghost Value = { T };

    ghost coded = { T.code };

    ghost view = { λ b. b.inner.value };
}

impl<T> Boxed<T> {
    /// The value, borrowed.
    pub fn get(&self) -> &T
        ensures { result.now ≡ self.now }
    {
        &self.inner
    }
}

impl<T: Drop> Boxed<T> {
    /// The value in a new place. It is dropped if no memory is left.
    pub fn new(alloc: Global, value: T) -> Result<Boxed<T>, OutOfMemory>
        ensures { IfOk result (λ made. made ≡ value) }
    {
        Ok(Boxed {
            inner: Box::new(alloc, value)?,
        })
    }
}
