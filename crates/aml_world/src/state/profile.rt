//! How much is taken of what the tables of a machine have.
ghost use Rattle.std.specs.Prelude.{◌≡◌};
ghost use Rattle.aml_world.specs.state.Profiles.{is_wide};

/// What a world evaluates, and what a machine takes of its resources.
#[derive(Clone, Copy, Debug, PartialEq, Eq)]
pub enum Profile {
    /// The default. Match, ToDecimalString, ToHexString, ToString, Mid, FromBCD, ToBCD, Signal, Wait, Reset, BankField,
    /// and lists of fields with a Connection are refused as `Unsupported`, exclusive offers as `Exclusive`, a `_HID`
    /// that is a control method as `NotALink`, and PCI_Config behind a PCI-to-PCI bridge as `DeepPci`.
    Core,
    /// These are evaluated, taken, called and reached. Timer, Load, LoadTable and DataRegion stay `Unsupported`.
    /// Loading goes on behind an item of a list at module level that is refused for a fault of a value, of a name, or
    /// of what a field or a reference leads to, and initializing behind such a call.
    Wide,
}

impl Profile {
    /// Whether this is the wide profile.
    pub fn is_wide(self) -> bool
        ensures { result ≡ is_wide self }
    {
        match self {
            Profile::Core => false,
            Profile::Wide => true,
        }
    }
}
