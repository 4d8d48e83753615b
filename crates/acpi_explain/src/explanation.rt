//! Why a run was refused, as a value.
ghost use Rattle.std.specs.Prelude.{IfOk, Some};
ghost use Rattle.acpi_explain.specs.Explaining.{IsExplanation};
ghost use Rattle.acpi_explain.specs.Told.{shown_access};

use crate::explaining::{help_lines, refused_text};
use crate::help::help_for;
use crate::stage::Stage;
use crate::told::shown_access;
use crate::trace_lines::trace_text;
use acpiroute_shell::Evaluation;
use aml_world::Trace;
use ar_space::Refusal;
use std::alloc::{AllocError, Global};
use std::fmt;
use watched_space::Accessed;

/// Why a run was refused. `{}` prints the lines that `acpiroute why` writes; where that takes memory, it was taken when
/// the value was made.
///
/// ```
/// if let Err(refusal) = machine.initialize(alloc, mode) {
///     let last = machine.space().last();
///     let why = Explanation::new(alloc, refusal, None, last, machine.world().trace(), evaluation)?;
///     print!(rt; "{why}")?;
/// }
/// ```
#[derive(Debug, Drop)]
pub struct Explanation {
    /// What refused it.
    pub refusal: Refusal,
    /// What was done then, where that is known.
    pub stage: Option<Stage>,
    /// The last access, where it tells something of the refusal.
    pub access: Option<Accessed>,
    /// The lines, in ASCII, each with its line feed.
    pub text: Vec<u8>,
}

impl Explanation {
    /// Explains the refusal of a run that was evaluated like this. `stage` is what was done then, as `refused_table`,
    /// `refused_call` and `refused_object` find it; `last` is the last access of the run, and `trace` where its
    /// evaluation was refused. A trace that was cut, since memory ran out, is told as that.
    pub fn new(
        alloc: Global,
        refusal: Refusal,
        stage: Option<Stage>,
        last: Option<Accessed>,
        trace: &Trace,
        evaluation: Evaluation,
    ) -> Result<Explanation, AllocError>
        ensures { IfOk result (IsExplanation refusal stage (shown_access refusal last) evaluation.steps) }
    {
        let access = shown_access(&refusal, last);
        let help = help_lines(
            alloc,
            &help_for(refusal.number(), evaluation.settings.profile),
        )?;
        let traced = trace_text(alloc, trace, &stage, evaluation.steps)?;
        let text = refused_text(alloc, &refusal, &help, &stage, &traced, access)?;
        Ok(Explanation {
            refusal,
            stage,
            access,
            text,
        })
    }
}

impl fmt::Display for Explanation {
    ghost output = { λ x. Some x.text.items };

    fn fmt<W: fmt::Write>(&self, f: &mut fmt::Formatter<W>) -> fmt::Result {
        match str::from_utf8(&self.text) {
            Ok(text) => f.write_str(text),
            Err(_) => Err(fmt::Error),
        }
    }
}
