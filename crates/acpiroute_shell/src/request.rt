//! What a run is to do.

use crate::arguments::Arguments;
use crate::interrupts::Interrupts;
use aml_world::EvaluationSettings;
use ar_space::PathText;
use route_report::Mode;

/// How AML is evaluated.
#[derive(Clone, Copy, Debug)]
pub struct Evaluation {
    /// In which profile, and how deep.
    pub settings: EvaluationSettings,
    /// The budget of steps for each table and each evaluation, from 1 to 1,000,000,000.
    pub steps: u64,
    /// How many accesses of registers are made in all, each further one being refused as `Device`; all of them where
    /// this is none.
    pub accesses: Option<u64>,
}

/// The options of `route` that have no value.
#[derive(Clone, Copy, Debug)]
pub struct Flags {
    /// Set no link device.
    pub dry: bool,
    /// Give none an interrupt of another device.
    pub spare: bool,
    /// Let link devices share interrupts as little as they can.
    pub spread: bool,
    /// Write lines for a kernel.
    pub kernel: bool,
}

/// What is asked of an initialized machine.
#[derive(Debug, Drop)]
pub enum Question {
    /// What `route` does, with the options of its request.
    Route {
        avoid: Interrupts,
        flags: Flags,
    },
    /// What `eval` does, with the text of a path and with arguments.
    Eval {
        path: PathText,
        arguments: Arguments,
    },
}

/// A run of `route` or of `eval` of which something is to be told.
#[derive(Debug, Drop)]
pub struct Asking {
    pub mode: Mode,
    pub evaluation: Evaluation,
    pub question: Question,
}

/// What the words of the command line ask for.
#[derive(Debug, Drop)]
pub enum Request {
    /// Route the interrupts of a machine in this mode, its AML evaluated like this, give no link device an interrupt of
    /// those to avoid, and do what the flags say.
    Route {
        mode: Mode,
        evaluation: Evaluation,
        avoid: Interrupts,
        flags: Flags,
    },
    /// Write the names of a machine, its tables evaluated like this.
    Names {
        evaluation: Evaluation,
    },
    /// Evaluate the object of a machine whose path this text is, with these arguments, at most seven, in this mode
    /// and like this.
    Eval {
        mode: Mode,
        evaluation: Evaluation,
        path: PathText,
        arguments: Arguments,
    },
    /// Tell how such a run ends, and why.
    Why(Asking),
    /// Tell which registers are missing for such a run.
    Registers(Asking),
    /// Read a report, and say whether its claim is valid.
    Check,
}

/// What the words of the command line come to.
#[derive(Debug, Drop)]
pub enum Asked {
    /// They ask for this.
    For(Request),
    /// The text of `--avoid` isn't 1 to 255 numbers below 2^32 that commas separate, and nothing else is wrong with
    /// the words.
    BadAvoid,
}
