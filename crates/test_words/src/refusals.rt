//! Refusals.
use ar_space::{EvaluationFault, InputFault, Refusal, ReportFault, ResourceFault, Result};
use test_rows::Exchange;

/// Answers that a term is not evaluated: by the refusal's number, and by the opcode.
fn refuse_opcode(asked: &mut Exchange, number: u8, opcode: u16) {
    asked.say("refused");
    asked.say_number(u64::from(number));
    asked.say("opcode");
    asked.say_hexadecimal(u64::from(opcode));
}

/// The offset, the line or the descriptor that a refusal names.
fn named_place(refusal: &Refusal) -> Option<(&'static str, u64)> {
    match refusal {
        Refusal::Term(_, offset) => Some(("at", *offset as u64)),
        Refusal::Input(InputFault::MachineLine(line)) => Some(("at line", *line as u64)),
        Refusal::Report(ReportFault::BadLine(line)) => Some(("at line", *line as u64)),
        Refusal::Resource(ResourceFault::Descriptor(tag)) => {
            Some(("at descriptor", u64::from(*tag)))
        }
        _ => None,
    }
}

/// Answers that a call refuses: by the refusal's number, and by the offset, the line, the descriptor or the opcode that
/// it names.
pub fn refuse(asked: &mut Exchange, refusal: Refusal) {
    let number = refusal.number();
    if let Refusal::Evaluation(EvaluationFault::Unsupported(opcode)) = &refusal {
        refuse_opcode(asked, number, *opcode);
        return;
    }
    match named_place(&refusal) {
        Some((place, at)) => asked.refuse_at(number, place, at),
        None => asked.refuse(number),
    }
}

/// Answers what a call that only does something gives.
pub fn say_done(asked: &mut Exchange, outcome: Result<()>) {
    if let Err(refusal) = outcome {
        refuse(asked, refusal);
    }
}
