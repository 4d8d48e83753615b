//! The first of the assignments within a limit.
ghost use Rattle.std.specs.Prelude.{◌≡◌, ◌≤◌, ◌<◌, IfSome, length};

use crate::loads::wired_sources;
use crate::placing::place_link;
use crate::rooms::{Rooms, count};
use route_model::Link;

/// The first link from a place on that has an interrupt.
fn holder(choice: &[Option<u32>], from: usize, n: u32) -> Option<usize>
    ensures { IfSome result (λ j. (from ≤ j) × (j < length choice.now)) }
{
    for j in from..choice.len() {
        if choice[j] == Some(n) {
            return Some(j);
        }
    }
    None
}

/// Gives a link another interrupt, if those after it can be placed then.
fn shift(
    wired: &[(u32, u32)],
    links: &[Link],
    choice: &mut [Option<u32>],
    reached: &mut [bool],
    limit: usize,
    link: usize,
    n: u32,
) -> bool
    requires choices { length choice.old ≡ length links.now }
    requires marks { length reached.old ≡ length links.now }
    requires link { link < length links.now }
{
    let old = choice[link];
    choice[link] = Some(n);
    if count(choice, n) <= limit.saturating_sub(wired_sources(wired, n)) {
        return true;
    }
    if let Some(j) = holder(choice, link + 1, n) {
        choice[j] = None;
        let (fixed, rest) = choice.split_at_mut(link + 1);
        let rooms = Rooms {
            limit,
            wired,
            fixed,
        };
        if place_link(
            &rooms,
            &links[link + 1..],
            rest,
            &mut reached[link + 1..],
            j - (link + 1),
        ) {
            return true;
        }
        choice[j] = Some(n);
    }
    choice[link] = old;
    false
}

/// Gives a link the first interrupt with which those after it can be placed.
fn fix(
    wired: &[(u32, u32)],
    links: &[Link],
    choice: &mut [Option<u32>],
    reached: &mut [bool],
    limit: usize,
    link: usize,
)
    requires choices { length choice.old ≡ length links.now }
    requires marks { length reached.old ≡ length links.now }
    requires link { link < length links.now }
{
    let offers = links[link].offers();
    for n in offers {
        if choice[link] == Some(*n) || shift(wired, links, choice, reached, limit, link, *n) {
            return;
        }
    }
}

/// Gives the links, one after the other, the first interrupts with which those after them can be placed.
pub(crate) fn fix_all(
    wired: &[(u32, u32)],
    links: &[Link],
    choice: &mut [Option<u32>],
    reached: &mut [bool],
    limit: usize,
)
    requires choices { length choice.old ≡ length links.now }
    requires marks { length reached.old ≡ length links.now }
{
    for link in 0..links.len() {
        fix(wired, links, choice, reached, limit, link);
    }
}
