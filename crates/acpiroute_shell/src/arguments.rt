//! Arguments of a control method, as the command line gives them.
ghost use Rattle.std.specs.Prelude.{◌≡◌, IfOk};

use std::alloc::{AllocError, Global};
use std::marker::Model;

/// The bytes of a string or of a buffer.
#[derive(Debug, Drop)]
pub struct ArgumentBytes {
    list: Vec<u8>,
}

impl Model for ArgumentBytes {
    ghost use Rattle.std.specs.Prelude.{List, ℕ};

    ghost Value = { List ℕ };

    ghost view = { λ b. b.list.items };
}

impl ArgumentBytes {
    /// These bytes. It takes no memory.
    pub fn from_vec(list: Vec<u8>) -> ArgumentBytes
        ensures { result ≡ list.items }
    {
        ArgumentBytes { list }
    }

    /// A copy of these bytes, or that memory runs out.
    pub fn from_slice(alloc: Global, bytes: &[u8]) -> Result<ArgumentBytes, AllocError>
        ensures { IfOk result (λ b. b ≡ bytes.now) }
    {
        Ok(ArgumentBytes {
            list: Vec::from_slice(alloc, bytes)?,
        })
    }

    /// The bytes.
    pub fn as_slice(&self) -> &[u8]
        ensures { result.now ≡ self.now }
    {
        &self.list
    }
}

/// An argument of a control method.
#[derive(Debug, Drop)]
pub enum Argument {
    /// An integer.
    Integer(u64),
    /// A string with these bytes.
    Text(ArgumentBytes),
    /// A buffer with these bytes.
    Bytes(ArgumentBytes),
}

/// Arguments, as a control method takes them.
#[derive(Debug, Drop)]
pub struct Arguments {
    list: Vec<Argument>,
}

impl Model for Arguments {
    ghost use Rattle.std.specs.Prelude.{List};
    ghost use Rattle.acpiroute_shell.specs.declared.arguments.Argument.{Argument};

    ghost Value = { List Argument };

    ghost view = { λ a. a.list.items };
}

impl Arguments {
    /// These arguments. It takes no memory.
    pub fn from_vec(list: Vec<Argument>) -> Arguments
        ensures { result ≡ list.items }
    {
        Arguments { list }
    }

    /// The arguments.
    pub fn as_slice(&self) -> &[Argument]
        ensures { result.now ≡ self.now }
    {
        &self.list
    }
}
