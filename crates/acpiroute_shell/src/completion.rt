//! How an answer came out.
ghost use Rattle.std.specs.Prelude.{◌≡◌};
ghost use Rattle.acpiroute_shell.specs.Written.{status_of};

/// How an answer came out, beside its text. Each has an exit status.
#[derive(Clone, Copy, Debug, PartialEq, Eq)]
pub enum Completion {
    /// All went well: 0.
    Done,
    /// The report was written, and a setting of a link device was refused: 3.
    SettingRefused,
    /// The claim of a report isn't valid: 4.
    ClaimInvalid,
}

impl Completion {
    /// The exit status.
    pub fn status(self) -> u8
        ensures { result ≡ status_of self }
    {
        match self {
            Completion::Done => 0,
            Completion::SettingRefused => 3,
            Completion::ClaimInvalid => 4,
        }
    }
}
