//! Refusals by their names, and the lines that tell of them.
use acpiroute_lib::write_error_line;
use ar_space::{
    EvaluationFault, InputFault, PathText, Refusal, ReportFault, ResourceFault, RoutingFault,
    TableFault, TermFault,
};
use std::alloc::{AllocError, Global};
use std::io;

/// The refusal of this name that has nothing further to say.
fn bare(name: &str) -> Option<Refusal> {
    match name {
        "missing byte" => Some(Refusal::Table(TableFault::NotInImage)),
        "out of memory" => Some(Refusal::OutOfMemory),
        "out of steps" => Some(Refusal::Evaluation(EvaluationFault::OutOfSteps)),
        "no end tag" => Some(Refusal::Resource(ResourceFault::NoEnd)),
        "too many links" => Some(Refusal::Routing(RoutingFault::TooMany)),
        _ => None,
    }
}

/// The refusal of this name at a place: an offset, or a line.
fn placed(name: &str, place: usize) -> Option<Refusal> {
    match name {
        "bad opcode" => Some(Refusal::Term(TermFault::BadOpcode, place)),
        "not in a body" => Some(Refusal::Term(TermFault::NotInBody, place)),
        "bad report" => Some(Refusal::Report(ReportFault::BadLine(place))),
        "bad machine text" => Some(Refusal::Input(InputFault::MachineLine(place))),
        _ => None,
    }
}

/// The refusal of this name that tells a number in hexadecimal digits: a term's opcode, or a descriptor's tag.
fn coded(name: &str, digits: &str) -> Option<Refusal> {
    match name {
        "opcode" => {
            let opcode = u16::from_str_radix(digits, 16).ok()?;
            Some(Refusal::Evaluation(EvaluationFault::Unsupported(opcode)))
        }
        "descriptor" => {
            let tag = u8::from_str_radix(digits, 16).ok()?;
            Some(Refusal::Resource(ResourceFault::Descriptor(tag)))
        }
        _ => None,
    }
}

/// The refusal of this name over a link device.
fn linked(alloc: Global, name: &str, path: &str) -> Result<Option<Refusal>, AllocError> {
    let path = PathText::new(alloc, path.to_string(alloc)?)?;
    Ok(match name {
        "no offer" => Some(Refusal::Routing(RoutingFault::NoOffer(path))),
        "avoided" => Some(Refusal::Routing(RoutingFault::Avoided(path))),
        _ => None,
    })
}

/// The refusal that a row names.
fn refusal_named(alloc: Global, text: &str) -> Result<Option<Refusal>, AllocError> {
    if let Some(found) = bare(text) {
        return Ok(Some(found));
    }
    if let Some((name, path)) = text.split_once(" of ") {
        return linked(alloc, name, path);
    }
    if let Some((name, place)) = text.split_once(" at ") {
        let place = place.parse::<usize>().ok();
        return Ok(place.and_then(|place| placed(name, place)));
    }
    let (name, digits) = text.split_once(' ').unwrap_or((text, ""));
    Ok(coded(name, digits))
}

/// The line that tells of a refusal, and nothing else.
fn told(errors: &mut Vec<u8>, refusal: &Refusal) -> io::Result<()> {
    write_error_line(errors, refusal)
}

/// The line that tells of the refusal of this name, without its line feed.
pub fn line_of(alloc: Global, name: &str) -> io::Result<String> {
    let Some(refusal) = refusal_named(alloc, name)? else {
        return Ok("no such refusal".to_string(alloc)?);
    };
    let mut errors = Vec::new(alloc);
    told(&mut errors, &refusal)?;
    let line = str::from_utf8(errors.as_slice()).unwrap_or("no text");
    match line.strip_suffix("\n") {
        Some(line) => Ok(line.to_string(alloc)?),
        None => Ok("no line feed".to_string(alloc)?),
    }
}
