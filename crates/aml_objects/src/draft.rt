//! Objects that are made for a value that may yet be refused.
ghost use Rattle.std.specs.Prelude.{◌≡◌, ◌++◌, []};
ghost use Rattle.ar_space.specs.Change.{Does};
ghost use Rattle.aml_objects.specs.Objects.{make_string, make_buffer, make_package};

use crate::heap::Heap;
use crate::making;
use crate::object::{Elements, Object, Octets};
use crate::value::Value;
use ar_space::Result;
use std::alloc::Global;
use std::marker::Model;

/// Objects that are made for a value that may yet be refused. They are numbered as if they stood behind those of a
/// heap, and `Heap::append` puts them there.
#[derive(Debug, Drop)]
pub struct Draft {
    made: Vec<Object>,
}

impl Model for Draft {
    ghost use Rattle.std.specs.Prelude.{List};
    ghost use Rattle.aml_objects.specs.declared.object.Object.{Object};

    ghost Value = { List Object };

    ghost view = { λ d. d.made.items };
}

impl Draft {
    /// No objects. It takes no memory.
    pub fn new(alloc: Global) -> Draft
        ensures { result ≡ [] }
    {
        Draft {
            made: Vec::new(alloc),
        }
    }

    /// The objects, given back without taking memory.
    pub(crate) fn into_vec(self) -> Vec<Object>
        ensures { result.items ≡ self }
    {
        self.made
    }

    /// A new string, as `Heap::make_string` makes it behind the objects of a heap and those of the draft.
    pub fn make_string(&mut self, heap: &Heap, bytes: Octets) -> Result<Value>
        ensures { Does result (heap.now ++ self.new) (make_string bytes) (heap.now ++ self.old) }
    {
        making::make_string(heap.as_slice(), &mut self.made, bytes)
    }

    /// A new buffer, as `Heap::make_buffer` makes it behind the objects of a heap and those of the draft.
    pub fn make_buffer(&mut self, heap: &Heap, bytes: Octets) -> Result<Value>
        ensures { Does result (heap.now ++ self.new) (make_buffer bytes) (heap.now ++ self.old) }
    {
        making::make_buffer(heap.as_slice(), &mut self.made, bytes)
    }

    /// A new package, as `Heap::make_package` makes it behind the objects of a heap and those of the draft.
    pub fn make_package(&mut self, heap: &Heap, elements: Elements) -> Result<Value>
        ensures { Does result (heap.now ++ self.new) (make_package elements) (heap.now ++ self.old) }
    {
        making::make_package(heap.as_slice(), &mut self.made, elements)
    }
}
