//! What is wrong with a claim.
ghost use Rattle.std.specs.Prelude.{◌≡◌};
ghost use Rattle.route_check.specs.Flaws.{number_of};

use thiserror::Error;

/// Why a claim isn't valid. Each flaw has a number of its own.
#[derive(Clone, Copy, Debug, PartialEq, Eq, Error)]
pub enum Flaw {
    #[error("a link is given an interrupt that it doesn't offer")]
    NotOffered,
    #[error("a link is given none, or what is given or in the set is no link")]
    LinkMissing,
    #[error("a link or an interrupt is named twice")]
    Repeated,
    #[error("the busiest interrupt serves another number of sources")]
    BusiestWrong,
    #[error("a link of the set offers an interrupt outside it")]
    OfferOutsideSet,
    #[error("the set's interrupts have room for all of its sources")]
    CountTooSmall,
    #[error("the set has no interrupt")]
    SetEmpty,
    #[error("links share interrupts more than they have to")]
    NotLeastShared,
}

impl Flaw {
    /// The number of the flaw.
    pub fn number(&self) -> u8
        ensures { result ≡ number_of self.now }
    {
        match self {
            Flaw::NotOffered => 1,
            Flaw::LinkMissing => 2,
            Flaw::Repeated => 3,
            Flaw::BusiestWrong => 4,
            Flaw::OfferOutsideSet => 5,
            Flaw::CountTooSmall => 6,
            Flaw::SetEmpty => 7,
            Flaw::NotLeastShared => 8,
        }
    }
}
