//! All lines of a report.
ghost use Rattle.std.specs.Prelude.{◌≡◌, ◌∷◌, ◌<◌, ◌-◌, ◌^◌, length};
ghost use Rattle.ar_space.specs.Outcome.{Answers};
ghost use Rattle.route_report.specs.Lines.{lines};
ghost use Rattle.route_report.specs.Reading.{lines_read, claim_of_text, first_said};

use crate::draft::Draft;
use crate::heading::heading;
use crate::line::line;
use crate::version::Version;
use crate::words::bad_line;
use ar_space::Result;
use route_check::Claim;
use std::alloc::Global;
use text_words::cut_at;

/// The first line of a text that isn't empty, and what follows it.
#[tactic(auto, using(crate::proofs::Texts::first_of_lines, crate::proofs::Texts::only_line))]
fn first_line(text: &[u8]) -> (&[u8], &[u8])
    requires { 0 < length text.now }
    ensures lines { lines text.now ≡ result.0.now ∷ lines result.1.now }
    ensures shorter { length result.1.now < length text.now }
{
    match cut_at(b'\n', text) {
        (line, Some(rest)) => (line, rest),
        (_, None) => (text, b""),
    }
}

/// The lines from the second on, of a report of this version.
fn lines_read(alloc: Global, version: Version, text: &[u8]) -> Result<Claim>
    requires { length text.now < 2 ^ 64 - 1 }
    ensures { Answers result (lines_read 2 (lines text.now) (first_said version)) }
{
    let mut draft = Draft::new(alloc, version);
    let mut n = 2;
    let mut rest = text;
    while !rest.is_empty() {
        let (first, after) = first_line(rest);
        line(alloc, n, first, &mut draft)?;
        rest = after;
        n += 1;
    }
    draft.claim(n)
}

/// What a report claims: the links with their offers, the wired interrupts, the interrupt that the System Control
/// Interrupt is wired to, the interrupts that are avoided or spared, what each link is given, how busy the busiest
/// interrupt is, why none is less busy, and whether links are said to share interrupts as little as they can. Whether
/// the claim holds is for `route_check` to say.
///
/// Each list of the claim is in order, whatever the order of the lines: paths in path order, numbers ascending. What
/// stands twice stays twice, so that `check` finds it.
///
/// The first line is `acpiroute 1`, `acpiroute 2` or `acpiroute 3`; the others come in any order, and the last may
/// lack its LF. Lines whose first word is `mode`, `ioapic`, `override`, `pin`, `set` or `after` are passed over.
/// `sci` and `avoid` stand from version 2 on, where each of them stands once: in version 1 nothing is avoided, and
/// the System Control Interrupt is no source of its own. `spared`, `unread`, `first` and `spread` stand in version 3
/// alone, one of the last two once: the interrupts of `spared` are given to no link, as avoided ones, and `unread`
/// claims nothing. `link`, `wired`, `sci`, `avoid`, `spared`, `unread`, `first`, `spread`, `give`, `busiest` and
/// `bound` have the form in which `print` writes them, but that what follows the word `now` of a link isn't looked
/// at, and that either list of a bound may be in any order, and its numbers may be missing. The numbers of a link
/// ascend, and there is one at least; those of `avoid` ascend too. Numbers are below 2^32, without leading zeros.
///
/// `BadLine` with the number of a line, from 1, is the first one that is none of these, a second `sci`, `avoid`,
/// `first` or `spread`, `busiest` or `bound`, the 257th link or the 4097th wired interrupt; where one of `busiest`,
/// `bound`, from version 2 on `sci` and `avoid`, and in version 3 `first` or `spread` is missing it is the number of
/// lines plus one. `OutOfMemory` where memory runs out.
///
/// ```
/// let claim = read(alloc, text)?;
/// println!(rt; "{} links, busiest {}", claim.links.len(), claim.busiest)?;
/// ```
pub fn read(alloc: Global, text: &[u8]) -> Result<Claim>
    ensures { Answers result (claim_of_text text.now) }
{
    if text.is_empty() {
        return Err(bad_line(1));
    }
    let (first, rest) = first_line(text);
    let version = heading(1, first)?;
    lines_read(alloc, version, rest)
}
