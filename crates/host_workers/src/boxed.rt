//! A value behind a pointer.
ghost use Rattle.std.specs.Prelude.{◌≡◌, IfOk, IfErr};
ghost use Rattle.std.specs.Borrow.{Lends, sem};
ghost use Rattle.host_workers.specs.contracts.boxed.Boxed.{the_row};

use std::alloc::Global;
use std::marker::Model;

/// A value behind a pointer, so that what is moved of it is small. Contracts see the value.
pub struct Boxed<X> {
    inner: Box<X>,
}

// Written out, so that letting one go is proved once.
impl<X: Drop> Drop for Boxed<X> {
    fn drop(self) {
        let Boxed { inner } = self;
        drop(inner);
    }
}

impl<X> Model for Boxed<X> {
    ghost use Rattle.std.specs.Prelude.{◌≡◌};

    ghost Value = { X };

    ghost coded = { X.code };

    ghost view = { λ boxed. boxed.inner.value };
}

impl<X> Boxed<X> {
    /// Puts a value behind a pointer. Where memory is wanting, the value is given back.
    pub fn new(alloc: Global, value: X) -> Result<Boxed<X>, X>
        ensures boxed { IfOk result (λ boxed. boxed ≡ value) }
        ensures back { IfErr result (λ back. back ≡ value) }
    {
        match Box::new(alloc, value) {
            Ok(inner) => Ok(Boxed { inner }),
            Err(failed) => Err(failed.value),
        }
    }

    /// Lends the value.
    pub fn get(&self) -> &X
        ensures { result.now ≡ self.now }
    {
        &self.inner
    }

    /// Lends the value, so that it may be changed.
    pub fn get_mut(&mut self) -> &mut X
        ensures* writes_back { sem 𝓛 (Lends (the_row X.row) X.row self.entry result (λ w. w)) }
        ensures value { result.now ≡ self.old }
    {
        self.inner.as_mut()
    }

    /// The value. It takes no memory.
    pub fn into_inner(self) -> X
        ensures { result ≡ self }
    {
        let Boxed { inner } = self;
        Box::into_inner(inner)
    }
}
