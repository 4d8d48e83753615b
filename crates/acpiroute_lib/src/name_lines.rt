//! The names of a namespace, put line by line behind a text.
ghost use Rattle.std.specs.Prelude.{◌≡◌, ◌++◌, IfOk, OnOk, codes, decimal, map};
ghost use Rattle.aml_path.specs.Text.{text_of};
ghost use Rattle.acpi_machine.specs.Kinds.{kind_seen};
ghost use Rattle.acpiroute_lib.specs.NameLines.{kind_text, name_line, name_lines};

use acpi_machine::Kind;
use acpiroute_shell::{put_number, put_path};
use aml_path::Path;
use std::alloc::{AllocError, Global};

/// A method, and how many arguments it takes.
fn put_method(text: &mut Vec<u8>, arguments: u8) -> Result<(), AllocError>
    ensures { OnOk result (text.new.items ≡ text.old.items ++ (codes "Method " ++ decimal arguments)) }
{
    text.extend_from_slice(b"Method ")?;
    put_number(text, u64::from(arguments))
}

/// An alias, and the path that it stands for.
fn put_alias(alloc: Global, text: &mut Vec<u8>, target: &Path) -> Result<(), AllocError>
    ensures { OnOk result (text.new.items ≡ text.old.items ++ (codes "Alias " ++ text_of target.now)) }
{
    text.extend_from_slice(b"Alias ")?;
    put_path(alloc, text, target)
}

fn put_kind(alloc: Global, text: &mut Vec<u8>, kind: Kind<'_>) -> Result<(), AllocError>
    ensures { OnOk result (text.new.items ≡ text.old.items ++ kind_text (kind_seen kind.entry)) }
{
    match kind {
        Kind::Scope => text.extend_from_slice(b"Scope"),
        Kind::Device => text.extend_from_slice(b"Device"),
        Kind::Processor => text.extend_from_slice(b"Processor"),
        Kind::PowerResource => text.extend_from_slice(b"PowerRes"),
        Kind::ThermalZone => text.extend_from_slice(b"ThermalZone"),
        Kind::Method(arguments) => put_method(text, arguments),
        Kind::Uninitialized => text.extend_from_slice(b"Uninitialized"),
        Kind::Integer => text.extend_from_slice(b"Integer"),
        Kind::String => text.extend_from_slice(b"String"),
        Kind::Buffer => text.extend_from_slice(b"Buffer"),
        Kind::Package => text.extend_from_slice(b"Package"),
        Kind::Reference => text.extend_from_slice(b"Reference"),
        Kind::FieldUnit => text.extend_from_slice(b"FieldUnit"),
        Kind::BufferField => text.extend_from_slice(b"BufferField"),
        Kind::Region => text.extend_from_slice(b"Region"),
        Kind::Mutex => text.extend_from_slice(b"Mutex"),
        Kind::Event => text.extend_from_slice(b"Event"),
        Kind::Alias(target) => put_alias(alloc, text, target),
    }
}

/// `P K`, a path and the kind of what stands there.
fn put_name(
    alloc: Global,
    text: &mut Vec<u8>,
    path: &Path,
    kind: Kind<'_>,
) -> Result<(), AllocError>
    ensures { OnOk result (text.new.items ≡ text.old.items ++ name_line (path.now, kind_seen kind.entry)) }
{
    put_path(alloc, text, path)?;
    text.extend_from_slice(b" ")?;
    put_kind(alloc, text, kind)?;
    text.extend_from_slice(b"\n")
}

/// The lines of some names.
pub(crate) fn name_lines(alloc: Global, nodes: &[(Path, Kind<'_>)]) -> Result<Vec<u8>, AllocError>
    ensures { IfOk result (λ text. text.items ≡ name_lines (map (λ node. (node.0, kind_seen node.1)) nodes.now)) }
{
    let mut text = Vec::new(alloc);
    for (path, kind) in nodes {
        put_name(alloc, &mut text, path, *kind)?;
    }
    Ok(text)
}
