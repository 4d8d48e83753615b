//! The lines of link devices.
ghost use Rattle.std.specs.Prelude.{◌≡◌, All, Ok, IfOk, map, option_map};
ghost use Rattle.ar_space.specs.Outcome.{Answers, seen};
ghost use Rattle.route_report.specs.Readable.{IsReadableOffer};
ghost use Rattle.acpi_configure.specs.Lines.{row_of};

use acpi_links::PresentLink;
use acpi_resources::{InterruptNumbers, Offer};
use aml_path::Path;
use ar_space::Result;
use route_report::LinkLine;
use std::alloc::{AllocError, Global};

/// A line for each present link.
pub(crate) fn link_lines(alloc: Global, links: &[PresentLink]) -> Result<Vec<LinkLine>>
    ensures lines { Answers (seen (λ list. list.items) result) (Ok (map row_of links.now)) }
    ensures offers { IfOk result (λ list. All (λ l. IsReadableOffer l.offers) list.items) }
{
    let mut list = Vec::new(alloc);
    for (path, offer, now) in links {
        let line = link_line(alloc, path, offer, now)?;
        list.push(line)?;
    }
    Ok(list)
}

#[tactic(auto, using(crate::proofs::Readables::readable_offer))]
fn link_line(
    alloc: Global,
    path: &Path,
    offer: &Offer,
    now: &Option<InterruptNumbers>,
) -> Result<LinkLine>
    ensures line { Answers result (Ok (row_of (path.now, offer.now, now.now))) }
    ensures offers { IfOk result (λ line. IsReadableOffer line.offers) }
{
    let path = path.copy(alloc)?;
    let offers = Vec::from_slice(alloc, offer.numbers())?;
    let now = numbers_now(alloc, now)?;
    Ok(LinkLine {
        path,
        form: offer.form(),
        polarity: offer.polarity(),
        offers,
        now,
    })
}

pub(crate) fn numbers_now(
    alloc: Global,
    now: &Option<InterruptNumbers>,
) -> Result<Option<Vec<u32>>, AllocError>
    ensures { IfOk result (λ list. option_map (λ v. v.items) list ≡ now.now) }
{
    match now {
        None => Ok(None),
        Some(numbers) => Ok(Some(Vec::from_slice(alloc, numbers.as_slice())?)),
    }
}
