//! A row: what its lines are put to, which is registers, and then a world or a machine over them.
use crate::questions::answer;
use acpi_machine::Machine;
use aml_meaning::World;
use aml_objects::Octets;
use ar_space::{IntegerWidth, Sparse};
use ar_tables::{Image, Tables};
use space_trace::Traced;
use std::alloc::{AllocError, Global};
use std::io;
use std::rt::Files;
use test_rows::{Exchange, Question, Subject};

/// What questions of a world use beside it.
#[derive(Drop)]
pub struct Aside {
    /// Bytes of AML that were put aside.
    pub aml: Vec<u8>,
    /// How many steps the last value left.
    pub left: u64,
}

/// What a row asks about.
#[derive(Drop)]
pub struct Evaluation {
    /// How wide the integers of the next world are.
    pub width: IntegerWidth,
    /// The texts that `_OSI` of the next world or machine knows.
    pub osi: Vec<Octets>,
    /// The registers, while neither a world nor a machine stands over them; otherwise none.
    pub space: Sparse,
    /// A world over the registers, which notes each access to them.
    pub world: Option<World<Traced<Sparse>>>,
    /// A machine over the registers. It stands where no world does.
    pub machine: Option<Machine<Sparse>>,
    /// What questions of a world use beside it.
    pub aside: Aside,
    /// The memory that tables are found in.
    pub image: Image,
    /// The tables that were found.
    pub tables: Option<Tables>,
}

impl Evaluation {
    /// Puts a question, and gives what is answered in place of what is wanted.
    fn put(&mut self, alloc: Global, line: &str) -> Result<Option<String>, AllocError> {
        let question = Question::new(line);
        let mut asked = Exchange::new(alloc, question.asked);
        answer(&mut asked, self);
        asked.difference(&question)
    }
}

impl Subject for Evaluation {
    fn new<R: AllocGlobal>(rt: &R) -> io::Result<Evaluation> {
        let alloc = rt.alloc();
        Ok(Evaluation {
            width: IntegerWidth::Bits64,
            osi: Vec::new(alloc),
            space: Sparse::new(alloc),
            world: None,
            machine: None,
            aside: Aside {
                aml: Vec::new(alloc),
                left: 0,
            },
            image: Image::new(alloc),
            tables: None,
        })
    }

    fn take<R: Files + AllocGlobal>(&mut self, rt: &R, line: &str) -> io::Result<Option<String>> {
        Ok(self.put(rt.alloc(), line)?)
    }

    fn end<R: Files + AllocGlobal>(&mut self, _rt: &R) -> io::Result<Option<String>> {
        Ok(None)
    }
}
