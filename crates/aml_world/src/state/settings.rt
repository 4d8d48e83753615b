//! What a world is made with, and nothing changes.
ghost use Rattle.std.specs.Prelude.{◌≡◌};
ghost use Rattle.aml_world.specs.state.Settings.{deepest, settings_of};

use crate::state::profile::Profile;

/// How deep calls and terms may be one inside another. What goes deeper is refused as `DepthSetting`.
///
/// A scan of a list of terms takes stack for each level of terms, and a call takes memory. So a caller with little of
/// either allows fewer.
#[derive(Clone, Copy, Debug, PartialEq, Eq)]
pub struct Nesting {
    /// How many control methods may be called one inside another. More than 32 may never be: the next one is refused as
    /// `CallDepth`.
    pub calls: usize,
    /// How many terms may be one inside another in a list that is scanned, the outermost counted. More than 64 may
    /// never be: the next one is refused as `TooDeep`.
    pub levels: usize,
}

impl Nesting {
    /// The default: as deep as calls and terms may ever be, 32 and 64.
    pub fn deepest() -> Nesting
        ensures { result ≡ deepest }
    {
        Nesting {
            calls: 32,
            levels: 64,
        }
    }
}

/// What a world is made with: which terms it evaluates, and how deep.
#[derive(Clone, Copy, Debug, PartialEq, Eq)]
pub struct EvaluationSettings {
    pub profile: Profile,
    pub nesting: Nesting,
}

impl EvaluationSettings {
    /// The settings of a profile, as deep as calls and terms may ever be.
    pub fn of(profile: Profile) -> EvaluationSettings
        ensures { result ≡ settings_of profile }
    {
        EvaluationSettings {
            profile,
            nesting: Nesting::deepest(),
        }
    }
}
