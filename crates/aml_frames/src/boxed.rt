//! What is large and seldom there, in memory of its own: so what every step moves stays small.
ghost use Rattle.std.specs.Prelude.{◌≡◌, IfOk};

use std::alloc::{AllocError, Global};
use std::marker::Model;
use std::mem;

/// A `Box` that contracts see as what it holds.
#[derive(Drop)]
pub struct Boxed<T> {
    pub inside: Box<T>,
}

impl<T> Model for Boxed<T> {
    ghost Value = { T };

    ghost coded = { T.code };

    ghost view = { λ b. b.inside.value };
}

impl<T> Boxed<T> {
    /// What it holds.
    #[inline(always)]
    pub fn get(&self) -> &T
        ensures { result.now ≡ self.now }
    {
        &self.inside
    }

    /// Exchanges what it holds with another value.
    #[inline(always)]
    pub fn swap(&mut self, other: &mut T)
        ensures held { self.new ≡ other.old }
        ensures given { other.new ≡ self.old }
    {
        mem::swap(&mut *self.inside, other);
    }

    /// What it holds, whose memory is given back.
    #[inline(always)]
    pub fn into_inner(self) -> T
        ensures { result ≡ self }
    {
        let Boxed { inside } = self;
        Box::into_inner(inside)
    }
}

impl<T: Drop> Boxed<T> {
    /// A value in memory of its own, unless there is none.
    pub fn new(alloc: Global, value: T) -> Result<Boxed<T>, AllocError>
        ensures { IfOk result (λ b. b ≡ value) }
    {
        Ok(Boxed {
            inside: Box::new(alloc, value)?,
        })
    }
}
