//! The tests of a claim, one after the other.
ghost use Rattle.std.specs.Prelude.{◌≡◌, ◌↔◌, IsOk, IsErr, IfOk, IfErr, OnOk, true};
ghost use Rattle.route_check.specs.Valid.{Valid, IsProved};
ghost use Rattle.route_check.specs.Flaws.{IsFirstFlaw};
ghost use Rattle.route_check.specs.Shared.{Holds};

use crate::bound::{has_interrupt, is_crowded, offers_inside};
use crate::claim::Claim;
use crate::flaw::Flaw;
use crate::known::none_missing;
use crate::loads::is_busiest_right;
use crate::offered::all_offered;
use crate::repeated::none_repeated;
use crate::shared::is_shared;
use std::alloc::{AllocError, Global};

/// Whether a claim is valid, or else its first flaw. It takes no memory.
///
/// The tests come in this order: `Repeated`, `LinkMissing`, `NotOffered`, `BusiestWrong`, and where the busiest
/// interrupt serves a source, `SetEmpty`, `OfferOutsideSet`, `CountTooSmall`. Of a valid claim it is proved that the
/// gives are an assignment of its links, that its busiest is theirs, and that no assignment has a less busy one. An
/// interrupt that is avoided counts in no offer, and the System Control Interrupt is one source of its own.
///
/// Lists that ascend are compared neighbour by neighbour and searched by halves, so that a long report takes no long
/// time; lists in any other order are compared pair by pair.
///
/// ```
/// let claim = route_report::read(alloc, text)?;
/// match check(&claim) {
///     Ok(_) => println!(rt; "no assignment is less busy")?,
///     Err(flaw) => println!(rt; "no {}", flaw.number())?,
/// }
/// ```
pub fn check(claim: &Claim) -> Result<(), Flaw>
    ensures ok { IsOk result ↔ Valid claim.now }
    ensures flaw { IfErr result (λ f. IsFirstFlaw claim.now f) }
    ensures proved { OnOk result (IsProved claim.now) }
{
    if !none_repeated(claim) {
        return Err(Flaw::Repeated);
    }
    if !none_missing(claim) {
        return Err(Flaw::LinkMissing);
    }
    if !all_offered(claim) {
        return Err(Flaw::NotOffered);
    }
    if !is_busiest_right(claim) {
        return Err(Flaw::BusiestWrong);
    }
    if claim.busiest() == 0 {
        return Ok(());
    }
    if !has_interrupt(claim) {
        return Err(Flaw::SetEmpty);
    }
    if !offers_inside(claim) {
        return Err(Flaw::OfferOutsideSet);
    }
    if !is_crowded(claim) {
        return Err(Flaw::CountTooSmall);
    }
    Ok(())
}

/// Whether a claim holds: whether it is valid, as `check` says, and where it claims so, whether its links share
/// interrupts as little as they can; or else its first flaw. That last test, `NotLeastShared`, takes memory: an error
/// means that memory ran out for it, so that the claim is valid and claims so.
///
/// ```
/// let claim = route_report::read(alloc, text)?;
/// let verdict = check_all(alloc, &claim)?;
/// ```
pub fn check_all(alloc: Global, claim: &Claim) -> Result<Result<(), Flaw>, AllocError>
    ensures ok { IfOk result (λ verdict. IsOk verdict ↔ Holds claim.now) }
    ensures flaw { IfOk result (λ verdict. IfErr verdict (λ f. IsFirstFlaw claim.now f)) }
    ensures memory { IsErr result → Valid claim.now × (claim.now.spread ≡ true) }
{
    if let Err(flaw) = check(claim) {
        return Ok(Err(flaw));
    }
    if claim.spread() && !is_shared(alloc, claim)? {
        return Ok(Err(Flaw::NotLeastShared));
    }
    Ok(Ok(()))
}
