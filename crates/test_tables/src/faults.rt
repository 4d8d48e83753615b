//! Refusals by their names, their numbers and what they say.

use ar_space::{
    EvaluationFault, FieldFault, InputFault, MachineFault, NameFault, NamespaceFault, PathText,
    Refusal, ReportFault, ResourceFault, RoutingFault, RoutingTableFault, SpaceFault, TableFault,
    TermFault, ValueFault,
};
use std::alloc::{AllocError, Global};
use test_rows::Exchange;

/// The faults of an access.
const SPACE: [(&str, SpaceFault); 2] = [
    ("no register", SpaceFault::NoRegister),
    ("device", SpaceFault::Device),
];

/// The faults of a table.
const TABLE: [(&str, TableFault); 6] = [
    ("bad signature", TableFault::BadSignature),
    ("bad checksum", TableFault::BadChecksum),
    ("bad length", TableFault::BadLength),
    ("not in image", TableFault::NotInImage),
    ("no FADT", TableFault::NoFadt),
    ("no DSDT", TableFault::NoDsdt),
];

/// The faults of a name.
const NAME: [(&str, NameFault); 2] = [
    ("bad name", NameFault::BadName),
    ("above root", NameFault::AboveRoot),
];

/// The faults of AML bytes.
const TERM: [(&str, TermFault); 5] = [
    ("bad opcode", TermFault::BadOpcode),
    ("bad package length", TermFault::BadPkgLength),
    ("truncated", TermFault::Truncated),
    ("too deep", TermFault::TooDeep),
    ("not in body", TermFault::NotInBody),
];

/// The faults of a value.
const VALUE: [(&str, ValueFault); 3] = [
    ("wrong type", ValueFault::WrongType),
    ("empty value", ValueFault::EmptyValue),
    ("divide by zero", ValueFault::DivideByZero),
];

/// The faults of a field.
const FIELD: [(&str, FieldFault); 2] = [
    ("field limit", FieldFault::FieldLimit),
    ("region limit", FieldFault::RegionLimit),
];

/// The faults of the namespace.
const NAMESPACE: [(&str, NamespaceFault); 2] = [
    ("exists", NamespaceFault::Exists),
    ("not found", NamespaceFault::NotFound),
];

/// The faults of an evaluation that are a name alone.
const EVALUATION: [(&str, EvaluationFault); 12] = [
    ("out of steps", EvaluationFault::OutOfSteps),
    ("call depth", EvaluationFault::CallDepth),
    ("arity changed", EvaluationFault::ArityChanged),
    ("space kind", EvaluationFault::SpaceKind),
    ("dead reference", EvaluationFault::DeadReference),
    ("no value", EvaluationFault::NoValue),
    ("fatal", EvaluationFault::Fatal),
    ("deep PCI", EvaluationFault::DeepPci),
    ("not acquired", EvaluationFault::NotAcquired),
    ("index limit", EvaluationFault::IndexLimit),
    ("object limit", EvaluationFault::ObjectLimit),
    ("depth setting", EvaluationFault::DepthSetting),
];

/// The faults of resource descriptors that are a name alone.
const RESOURCE: [(&str, ResourceFault); 7] = [
    ("edge", ResourceFault::Edge),
    ("exclusive", ResourceFault::Exclusive),
    ("dependent", ResourceFault::Dependent),
    ("several", ResourceFault::Several),
    ("no end", ResourceFault::NoEnd),
    ("no interrupt", ResourceFault::NoInterrupt),
    ("source", ResourceFault::Source),
];

/// The faults of a routing table.
const ROUTING_TABLE: [(&str, RoutingTableFault); 5] = [
    ("not package", RoutingTableFault::NotPackage),
    ("bad entry", RoutingTableFault::BadEntry),
    ("bad pin", RoutingTableFault::BadPin),
    ("not a link", RoutingTableFault::NotALink),
    ("source index", RoutingTableFault::SourceIndex),
];

/// The faults of input and output that are a name alone.
const INPUT: [(&str, InputFault); 3] = [
    ("read fault", InputFault::ReadFault),
    ("write fault", InputFault::WriteFault),
    ("text too long", InputFault::TextTooLong),
];

/// What all that is left stands for, and `other` where it is none of these names.
fn fault<T: Copy>(asked: &mut Exchange, names: &[(&str, T)], other: T) -> T {
    let name = asked.rest();
    asked.one_of(names, name, other)
}

/// A fault of AML bytes, with its offset: `bad opcode 7`.
fn term(asked: &mut Exchange) -> Refusal {
    let text = asked.rest();
    let (name, offset) = text.rsplit_once(' ').unwrap_or((text, ""));
    let fault = asked.one_of(&TERM, name, TermFault::Truncated);
    Refusal::Term(fault, asked.digits(offset, 10, u64::MAX) as usize)
}

/// A fault of an evaluation: a name, or `unsupported` and an opcode.
fn evaluation(asked: &mut Exchange) -> EvaluationFault {
    if asked.takes("unsupported ") {
        EvaluationFault::Unsupported(asked.hexadecimal(0xFFFF) as u16)
    } else {
        fault(asked, &EVALUATION, EvaluationFault::Fatal)
    }
}

/// A fault of a whole machine.
fn machine(asked: &mut Exchange) -> Refusal {
    match asked.rest() {
        "spent" => Refusal::Machine(MachineFault::Spent),
        "out of memory" => Refusal::OutOfMemory,
        _ => {
            asked.misunderstand();
            Refusal::OutOfMemory
        }
    }
}

/// A fault of resource descriptors: a name, or `descriptor` and a tag.
fn resource(asked: &mut Exchange) -> ResourceFault {
    if asked.takes("descriptor ") {
        ResourceFault::Descriptor(asked.number(0xFF) as u8)
    } else {
        fault(asked, &RESOURCE, ResourceFault::Edge)
    }
}

/// The text of a path, of its own.
fn own_path(alloc: Global, text: &str) -> Result<PathText, AllocError> {
    PathText::new(alloc, text.to_string(alloc)?)
}

/// The text of a path, if there is memory for it.
pub fn path_text(asked: &mut Exchange, text: &str) -> Option<PathText> {
    let path = own_path(asked.alloc(), text).ok();
    if path.is_none() {
        asked.run_out();
    }
    path
}

/// A fault of routing that names a path: `no offer PATH`, `avoided PATH`.
fn routing_of_path(asked: &mut Exchange, text: &str) -> RoutingFault {
    let (name, path) = text.rsplit_once(' ').unwrap_or((text, ""));
    match (name, path_text(asked, path)) {
        ("no offer", Some(path)) => RoutingFault::NoOffer(path),
        ("avoided", Some(path)) => RoutingFault::Avoided(path),
        _ => {
            asked.misunderstand();
            RoutingFault::MixedPolarity
        }
    }
}

/// A fault of routing.
fn routing(asked: &mut Exchange) -> RoutingFault {
    match asked.rest() {
        "mixed polarity" => RoutingFault::MixedPolarity,
        "too many" => RoutingFault::TooMany,
        text => routing_of_path(asked, text),
    }
}

/// A fault of a report, with its line: `bad line 4`.
fn report(asked: &mut Exchange) -> ReportFault {
    if !asked.takes("bad line ") {
        asked.misunderstand();
    }
    ReportFault::BadLine(asked.number(u64::MAX) as usize)
}

/// A fault of input or output: a name, or `machine line` and its number.
fn input(asked: &mut Exchange) -> InputFault {
    if asked.takes("machine line ") {
        InputFault::MachineLine(asked.number(u64::MAX) as usize)
    } else {
        fault(asked, &INPUT, InputFault::ReadFault)
    }
}

/// The kind of a refusal.
#[derive(Clone, Copy)]
enum Kind {
    Space,
    Table,
    Name,
    Term,
    Value,
    Field,
    Namespace,
    Evaluation,
    Machine,
    Resource,
    RoutingTable,
    Routing,
    Report,
    Input,
}

/// The kinds of refusals.
const KINDS: [(&str, Kind); 14] = [
    ("space", Kind::Space),
    ("table", Kind::Table),
    ("name", Kind::Name),
    ("term", Kind::Term),
    ("value", Kind::Value),
    ("field", Kind::Field),
    ("namespace", Kind::Namespace),
    ("evaluation", Kind::Evaluation),
    ("machine", Kind::Machine),
    ("resource", Kind::Resource),
    ("routing table", Kind::RoutingTable),
    ("routing", Kind::Routing),
    ("report", Kind::Report),
    ("input", Kind::Input),
];

/// The refusal of a kind whose faults are names alone.
fn named(asked: &mut Exchange, kind: Kind) -> Refusal {
    match kind {
        Kind::Space => Refusal::Space(fault(asked, &SPACE, SpaceFault::Device)),
        Kind::Table => Refusal::Table(fault(asked, &TABLE, TableFault::BadLength)),
        Kind::Name => Refusal::Name(fault(asked, &NAME, NameFault::BadName)),
        Kind::Value => Refusal::Value(fault(asked, &VALUE, ValueFault::WrongType)),
        Kind::Field => Refusal::Field(fault(asked, &FIELD, FieldFault::FieldLimit)),
        Kind::Namespace => Refusal::Namespace(fault(asked, &NAMESPACE, NamespaceFault::Exists)),
        Kind::RoutingTable => {
            Refusal::RoutingTable(fault(asked, &ROUTING_TABLE, RoutingTableFault::BadPin))
        }
        _ => machine(asked),
    }
}

/// The refusal `KIND: FAULT`.
fn refusal(asked: &mut Exchange) -> Refusal {
    let kind = asked.until(": ");
    let kind = asked.one_of(&KINDS, kind, Kind::Machine);
    match kind {
        Kind::Term => term(asked),
        Kind::Evaluation => Refusal::Evaluation(evaluation(asked)),
        Kind::Resource => Refusal::Resource(resource(asked)),
        Kind::Routing => Refusal::Routing(routing(asked)),
        Kind::Report => Refusal::Report(report(asked)),
        Kind::Input => Refusal::Input(input(asked)),
        _ => named(asked, kind),
    }
}

/// `number KIND: FAULT`: the number of a refusal.
pub fn number(asked: &mut Exchange) {
    let refusal = refusal(asked);
    asked.say_number(u64::from(refusal.number()));
}

/// `says KIND: FAULT`: what a refusal says.
pub fn says(asked: &mut Exchange) {
    let refusal = refusal(asked);
    let text = format!(in asked.alloc(); "{refusal}");
    asked.say_text(text);
}
