//! Places one more link, for which others are moved depth first.
ghost use Rattle.std.specs.Prelude.{◌≡◌, ◌<◌, length};

use crate::rooms::{Rooms, count};
use route_model::Link;

/// The first of some interrupts that has room.
fn first_free(rooms: &Rooms<'_>, offers: &[u32], choice: &[Option<u32>]) -> Option<u32> {
    for n in offers {
        if count(choice, *n) < rooms.of(*n) {
            return Some(*n);
        }
    }
    None
}

/// Finds an interrupt for a link, for which at most so many others are moved one after the other, but none that was
/// reached.
///
/// An interrupt that has room is looked for before any link is moved: without that, a chain through all links would be
/// tried for each of them.
fn place(
    rooms: &Rooms<'_>,
    links: &[Link],
    choice: &mut [Option<u32>],
    reached: &mut [bool],
    link: usize,
    others: usize,
) -> bool
    requires choices { length choice.old ≡ length links.now }
    requires marks { length reached.old ≡ length links.now }
    requires link { link < length links.now }
{
    reached[link] = true;
    let offers = links[link].offers();
    match first_free(rooms, offers, choice) {
        Some(n) => {
            choice[link] = Some(n);
            return true;
        }
        None => {}
    }
    if others == 0 {
        return false;
    }
    for n in offers {
        for j in 0..choice.len() {
            if !reached[j]
                && choice[j] == Some(*n)
                && place(rooms, links, choice, reached, j, others - 1)
            {
                choice[link] = Some(*n);
                return true;
            }
        }
    }
    false
}

/// Finds an interrupt for the one link that has none, for which others may be moved. Where there is none, `reached`
/// marks links that offer full interrupts alone, and all links that have one of these.
pub(crate) fn place_link(
    rooms: &Rooms<'_>,
    links: &[Link],
    choice: &mut [Option<u32>],
    reached: &mut [bool],
    link: usize,
) -> bool
    requires choices { length choice.old ≡ length links.now }
    requires marks { length reached.old ≡ length links.now }
    requires link { link < length links.now }
{
    reached.fill(false);
    place(rooms, links, choice, reached, link, links.len())
}
