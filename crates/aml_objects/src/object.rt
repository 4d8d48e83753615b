//! Objects: strings, buffers and packages.
ghost use Rattle.std.specs.Prelude.{◌≡◌, ◌++◌, ◌∷◌, [], OnOk, OnErr, IsOkUnless, Some, Ok, Err, length, slice_get};
ghost use Rattle.std.specs.Prelude.{slice_set, nat_lt, if◌then◌else◌};
ghost use Rattle.ar_space.specs.Outcome.{Answers, NotMemory, seen};
ghost use Rattle.ar_space.specs.declared.refusal.Refusal.TheVariants.{OutOfMemory, Evaluation};
ghost use Rattle.ar_space.specs.declared.refusal.EvaluationFault.TheVariants.{DeadReference};
ghost use Rattle.aml_objects.specs.Objects.{or_dead, buffer_in};

use crate::value::Value;
use aml_path::{NameString, Path};
use ar_space::{EvaluationFault, Refusal, Result, ValueFault};
use std::alloc::Global;
use std::marker::Model;

/// An element of a package.
#[derive(Debug, Drop)]
pub enum Element {
    Value(Value),
    /// A name, which is searched for at each use, from the scope where the package was made.
    Name(NameString, Path),
}

/// The elements of a package.
#[derive(Debug, Drop)]
pub struct Elements {
    list: Vec<Element>,
}

impl Model for Elements {
    ghost use Rattle.std.specs.Prelude.{List};
    ghost use Rattle.aml_objects.specs.declared.object.Element.{Element};

    ghost Value = { List Element };

    ghost view = { λ e. e.list.items };
}

/// The bytes of a string or a buffer.
#[derive(Debug, Drop)]
pub struct Octets {
    list: Vec<u8>,
}

impl Model for Octets {
    ghost use Rattle.std.specs.Prelude.{List, ℕ};

    ghost Value = { List ℕ };

    ghost view = { λ o. o.list.items };
}

/// What has a number of its own.
#[derive(Debug, Drop)]
pub enum Object {
    String(Octets),
    Buffer(Octets),
    Package(Elements),
}

impl Object {
    /// The bytes of a buffer; another kind of object is refused as `WrongType`.
    pub(crate) fn buffer_bytes(&self) -> Result<&[u8]>
        ensures answer { Answers (seen (λ bytes. bytes.now) result) (buffer_in (Some self.now)) }
        ensures memory { NotMemory result }
    {
        match self {
            Object::String(_) => Err(Refusal::Value(ValueFault::WrongType)),
            Object::Buffer(bytes) => Ok(bytes.as_slice()),
            Object::Package(_) => Err(Refusal::Value(ValueFault::WrongType)),
        }
    }
}

impl Octets {
    /// No bytes. It takes no memory.
    pub fn new(alloc: Global) -> Octets
        ensures { result ≡ [] }
    {
        Octets::from_vec(Vec::new(alloc))
    }

    /// These bytes. It takes no memory.
    pub fn from_vec(list: Vec<u8>) -> Octets
        ensures { result ≡ list.items }
    {
        Octets { list }
    }

    /// The bytes, given back without taking memory.
    pub fn into_vec(self) -> Vec<u8>
        ensures { result.items ≡ self }
    {
        self.list
    }

    /// The bytes.
    pub fn as_slice(&self) -> &[u8]
        ensures { result.now ≡ self.now }
    {
        &self.list
    }

    /// A copy.
    pub fn copy(&self, alloc: Global) -> Result<Octets>
        ensures { Answers result (Ok self.now) }
    {
        Ok(Octets {
            list: Vec::from_slice(alloc, &self.list)?,
        })
    }

    /// Sets one byte; a reference to a byte past the end is dead, and nothing changes.
    pub(crate) fn set(&mut self, index: usize, byte: u8) -> Result<()>
        ensures outcome { result ≡ (if nat_lt index (length self.old) then Ok tt else Err (Evaluation DeadReference)) }
        ensures set { self.new ≡ (if nat_lt index (length self.old) then slice_set self.old index byte else self.old) }
    {
        if index >= self.list.len() {
            return Err(Refusal::Evaluation(EvaluationFault::DeadReference));
        }
        self.list[index] = byte;
        Ok(())
    }
}

impl Elements {
    /// No elements. It takes no memory.
    pub fn new(alloc: Global) -> Elements
        ensures { result ≡ [] }
    {
        Elements {
            list: Vec::new(alloc),
        }
    }

    /// The elements.
    pub fn as_slice(&self) -> &[Element]
        ensures { result.now ≡ self.now }
    {
        &self.list
    }

    /// One element more, at the end. Only want of memory refuses it.
    pub fn push(&mut self, element: Element) -> Result<()>
        ensures ok { OnOk result (self.new ≡ self.old ++ element ∷ []) }
        ensures memory { IsOkUnless result OutOfMemory }
    {
        self.list.push(element)?;
        Ok(())
    }

    /// A copy, in which the same objects are named.
    pub fn copy(&self, alloc: Global) -> Result<Elements>
        ensures { Answers result (Ok self.now) }
    {
        let mut list = Vec::new(alloc);
        for element in &self.list {
            list.push(element.copy(alloc)?)?;
        }
        Ok(Elements { list })
    }

    /// One element; a reference past the end is dead.
    pub(crate) fn at(&self, index: usize) -> Result<&Element>
        ensures answer { Answers (seen (λ e. e.now) result) (or_dead (slice_get self.now index)) }
        ensures memory { NotMemory result }
    {
        match self.list.get(index) {
            None => Err(Refusal::Evaluation(EvaluationFault::DeadReference)),
            Some(element) => Ok(element),
        }
    }

    /// Tests that an element stands at an index; a reference past the end is dead.
    pub(crate) fn stands(&self, index: usize) -> Result<()>
        ensures { result ≡ (if nat_lt index (length self.now) then Ok tt else Err (Evaluation DeadReference)) }
    {
        if index >= self.list.len() {
            return Err(Refusal::Evaluation(EvaluationFault::DeadReference));
        }
        Ok(())
    }

    /// Replaces one element; a reference past the end is dead, and nothing changes.
    pub(crate) fn set(&mut self, index: usize, element: Element) -> Result<()>
        ensures outcome { result ≡ (if nat_lt index (length self.old) then Ok tt else Err (Evaluation DeadReference)) }
        ensures set { self.new ≡ (if nat_lt index (length self.old) then slice_set self.old index
            element else self.old) }
    {
        if index >= self.list.len() {
            return Err(Refusal::Evaluation(EvaluationFault::DeadReference));
        }
        self.list[index] = element;
        Ok(())
    }
}

impl Element {
    /// A copy, in which the same object is named.
    pub fn copy(&self, alloc: Global) -> Result<Element>
        ensures { Answers result (Ok self.now) }
    {
        match self {
            Element::Value(value) => Ok(Element::Value(*value)),
            Element::Name(name, scope) => Ok(Element::Name(name.copy(alloc)?, scope.copy(alloc)?)),
        }
    }
}
