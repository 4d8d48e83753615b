//! The marks of a list that was scanned.
ghost use Rattle.std.specs.Prelude.{◌≡◌, Ok};
ghost use Rattle.ar_space.specs.Outcome.{Answers};
ghost use Rattle.aml_marks.specs.Marked.{Ascending, count_at};

use crate::search::marked_count;
use aml_grammar::Mark;
use ar_space::Result;
use std::alloc::Global;
use std::marker::Model;
use std::rc::Rc;

/// Where the calls of a scanned list begin, and how many arguments each has. A call without arguments has no mark.
///
/// They are a counted share of one list, so that who keeps them and who reads by them have the same. A list without
/// marks takes no memory.
#[derive(Debug, Drop)]
pub struct Marks {
    list: Option<Rc<Vec<Mark>>>,
}

impl Model for Marks {
    ghost use Rattle.std.specs.Prelude.{List, []};
    ghost use Rattle.std.specs.Option.{option_map_or};
    ghost use Rattle.aml_grammar.specs.declared.marks.Mark.{Mark};
    ghost use Rattle.aml_marks.specs.Marked.{Ascending};

    ghost Value = { List Mark };

    ghost view = { λ m. option_map_or (λ shared. shared.value.items) m.list [] };

    ghost invariant = { λ m. Ascending (option_map_or (λ shared. shared.value.items) m.list []) };
}

impl Marks {
    /// The marks, which stand in the order of their offsets.
    pub(crate) fn new(alloc: Global, list: Vec<Mark>) -> Result<Marks>
        requires { Ascending list.items }
        ensures { Answers result (Ok list.items) }
    {
        if list.is_empty() {
            return Ok(Marks { list: None });
        }
        Ok(Marks {
            list: Some(Rc::new(alloc, list)?),
        })
    }

    /// Another share of the same marks. It takes no memory, and is refused as `OutOfMemory` where no more shares can
    /// be counted.
    pub fn share(&self) -> Result<Marks>
        ensures { Answers result (Ok self.now) }
    {
        match &self.list {
            None => Ok(Marks { list: None }),
            Some(list) => Ok(Marks {
                list: Some(Rc::clone(list)?),
            }),
        }
    }

    /// How many arguments follow the name that begins at an offset, 0 where no mark stands. It is found by halving.
    pub fn count_at(&self, offset: usize) -> u8
        ensures { result ≡ count_at self.now offset }
    {
        match &self.list {
            None => 0,
            Some(list) => marked_count(list.as_ref(), offset),
        }
    }
}
