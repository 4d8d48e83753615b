//! The line that tells of a refusal. None of this takes memory.
ghost use Rattle.std.specs.Prelude.{◌≡◌, OnOk};
ghost use Rattle.std.specs.Io.KnownBytes.{Appends};
ghost use Rattle.acpiroute_shell.specs.ErrorLines.{line_with, error_line, evaluation_detail, resource_detail};
ghost use Rattle.acpiroute_shell.specs.ErrorLines.{routing_detail, report_detail, input_detail};

use ar_space::{EvaluationFault, InputFault, Refusal, ReportFault, ResourceFault, RoutingFault};
use std::io;
use std::io::Write;

/// The line of an evaluation's refusal, with the opcode of a term that isn't evaluated.
fn evaluation_line<E: Write>(errors: &mut E, number: u8, fault: &EvaluationFault) -> io::Result<()>
    ensures { OnOk result (Appends (E.contents errors.old) (E.contents errors.new)
        (line_with number (evaluation_detail fault.now))) }
{
    match fault {
        EvaluationFault::Unsupported(opcode) => {
            let opcode = *opcode;
            writeln!(errors, "refused {number} op {opcode:04X}")
        }
        _ => writeln!(errors, "refused {number}"),
    }
}

/// The line of resources' refusal, with the tag of a descriptor that isn't taken.
fn resource_line<E: Write>(errors: &mut E, number: u8, fault: &ResourceFault) -> io::Result<()>
    ensures { OnOk result (Appends (E.contents errors.old) (E.contents errors.new)
        (line_with number (resource_detail fault.now))) }
{
    match fault {
        ResourceFault::Descriptor(tag) => {
            let tag = *tag;
            writeln!(errors, "refused {number} tag {tag}")
        }
        _ => writeln!(errors, "refused {number}"),
    }
}

/// The line of routing's refusal, with the path of a link that offers nothing.
fn routing_line<E: Write>(errors: &mut E, number: u8, fault: &RoutingFault) -> io::Result<()>
    ensures { OnOk result (Appends (E.contents errors.old) (E.contents errors.new)
        (line_with number (routing_detail fault.now))) }
{
    match fault {
        RoutingFault::NoOffer(path) | RoutingFault::Avoided(path) => {
            let path = path.as_str();
            writeln!(errors, "refused {number} {path}")
        }
        _ => writeln!(errors, "refused {number}"),
    }
}

/// The line of a report's refusal, with the number of its line.
fn report_line<E: Write>(errors: &mut E, number: u8, fault: &ReportFault) -> io::Result<()>
    ensures { OnOk result (Appends (E.contents errors.old) (E.contents errors.new)
        (line_with number (report_detail fault.now))) }
{
    match fault {
        ReportFault::BadLine(line) => {
            let line = *line;
            writeln!(errors, "refused {number} line {line}")
        }
    }
}

/// The line of an input's refusal, with the number of a line of the machine text.
fn input_line<E: Write>(errors: &mut E, number: u8, fault: &InputFault) -> io::Result<()>
    ensures { OnOk result (Appends (E.contents errors.old) (E.contents errors.new)
        (line_with number (input_detail fault.now))) }
{
    match fault {
        InputFault::MachineLine(n) => {
            let n = *n;
            writeln!(errors, "refused {number} line {n}")
        }
        _ => writeln!(errors, "refused {number}"),
    }
}

/// Writes the line of a refusal: `refused R`, and behind it what a reader may look for, an offset, an opcode, a
/// descriptor's tag, a line or a path. An error where the writer fails.
pub fn write_error_line<E: Write>(errors: &mut E, refusal: &Refusal) -> io::Result<()>
    ensures { OnOk result (Appends (E.contents errors.old) (E.contents errors.new) (error_line refusal.now)) }
{
    let number = refusal.number();
    match refusal {
        Refusal::Term(_, offset) => {
            let offset = *offset;
            writeln!(errors, "refused {number} at {offset}")
        }
        Refusal::Evaluation(fault) => evaluation_line(errors, number, fault),
        Refusal::Resource(fault) => resource_line(errors, number, fault),
        Refusal::Routing(fault) => routing_line(errors, number, fault),
        Refusal::Report(fault) => report_line(errors, number, fault),
        Refusal::Input(fault) => input_line(errors, number, fault),
        _ => writeln!(errors, "refused {number}"),
    }
}
