//! Paths and numbers, put behind a text.
ghost use Rattle.acpiroute_shell.specs.Hexadecimal.{hexadecimal};
ghost use Rattle.std.specs.Prelude.{◌≡◌, ◌++◌, OnOk, decimal};
ghost use Rattle.aml_path.specs.Text.{text_of};

use aml_path::Path;
use route_report::path_text;
use std::alloc::{AllocError, Global};
use std::io::Write;

/// A path, put behind a text.
pub fn put_path(alloc: Global, text: &mut Vec<u8>, path: &Path) -> Result<(), AllocError>
    ensures { OnOk result (text.new.items ≡ text.old.items ++ text_of path.now) }
{
    let path = path_text(alloc, path)?;
    text.extend_from_slice(path.as_bytes())
}

/// A number in decimal digits, put behind a text.
pub fn put_number(text: &mut Vec<u8>, number: u64) -> Result<(), AllocError>
    ensures { OnOk result (text.new.items ≡ text.old.items ++ decimal number) }
{
    let mut buffer = itoa::Buffer::new();
    text.extend_from_slice(buffer.format(number).as_bytes())
}

/// A number in hexadecimal digits, upper case and without zeros in front, put behind a text.
pub fn put_hexadecimal(text: &mut Vec<u8>, number: u64) -> Result<(), AllocError>
    ensures { OnOk result (text.new.items ≡ text.old.items ++ hexadecimal number) }
{
    match write!(text, "{number:X}") {
        Ok(()) => Ok(()),
        Err(_) => Err(AllocError),
    }
}
