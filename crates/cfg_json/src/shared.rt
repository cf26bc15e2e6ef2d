ghost use Rattle.std.specs.Prelude.{◌≡◌, IfOk};

use bmc_base::OutOfMemory;
use std::alloc::Global;
use std::marker::Model;
use std::rc::Rc;

/// A value in memory of its own, which several owners share. Contracts see it as the value.
#[derive(Drop)]
pub struct Shared<T> {
    inner: Rc<T>,
}

impl<T> Model for Shared<T> {
    ghost Value = { T };

    ghost view = { λ s. s.inner.value };
}

impl<T: Drop> Shared<T> {
    /// Puts a value into memory of its own.
    pub fn new(alloc: Global, value: T) -> Result<Shared<T>, OutOfMemory>
        ensures { IfOk result (λ shared. shared ≡ value) }
    {
        let inner = Rc::new(alloc, value)?;
        Ok(Shared { inner })
    }

    /// Returns one more owner of the value. It takes no memory, and fails only where there are 2^64 - 1 owners.
    pub fn shared(&self) -> Result<Shared<T>, OutOfMemory>
        ensures { IfOk result (λ shared. shared ≡ self.now) }
    {
        let inner = self.inner.clone()?;
        Ok(Shared { inner })
    }

    /// Borrows the value.
    pub fn get(&self) -> &T
        ensures { result.now ≡ self.now }
    {
        &self.inner
    }
}
