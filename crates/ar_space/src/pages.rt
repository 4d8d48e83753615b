//! Pages by number.
ghost use Rattle.std.specs.Prelude.{◌≡◌, ◌+◌, ◌*◌, ◌<◌, ◌≤◌, ℕ, [], length, Some, None, OnOk, OnErr, IfOk, IsOkUnless};
ghost use Rattle.std.specs.Prelude.{is_some, true, min, if◌then◌else◌};
ghost use Rattle.std.specs.Option.{option_copied};
ghost use Rattle.std.specs.FinMap as map;
ghost use Rattle.std.specs.Ordering.{nat_cmp};
ghost use Rattle.std.specs.BTreeMap.{is_at};
ghost use Rattle.std.specs.Map.{lookup};
ghost use Rattle.ar_space.specs.declared.refusal.Refusal.TheVariants.{OutOfMemory};
ghost use Rattle.ar_space.specs.PagePlaces.{place_of};
ghost use Rattle.ar_space.specs.Runs.{with_bytes, number_from};

use crate::page::{PLACES, Page};
use crate::refusal::{Refusal, Result};
use std::alloc::Global;
use std::collections::BTreeMap;

/// Pages by number, in the order in which they were made. A page that is new takes one search of the tree, and bytes
/// that come one after the other take one for each page rather than for each of them.
#[derive(Drop)]
pub(crate) struct Pages {
    /// All pages, each with its number.
    made: Vec<(u64, Page)>,
    /// Where the page with a number stands among them.
    places: BTreeMap<u64, usize>,
    /// The number of the page that was sought last to put bytes into it.
    last_number: u64,
    /// Where that page stands.
    last: usize,
    ghost placed: { (k : ℕ) → lookup (is_at (nat_cmp k)) places.entries ≡ place_of made.items k },
    ghost last_is: { last < length made.items → place_of made.items last_number ≡ Some last },
}

impl Pages {
    ghost use Rattle.ar_space.specs.Pages.{all_pages, map_of_pages, StoodOrNew};

    /// No pages. It takes no memory.
    pub(crate) fn new(alloc: Global) -> Pages
        ensures pages { all_pages result ≡ [] }
        ensures map { map_of_pages (all_pages result) ≡ map.empty }
    {
        Pages {
            made: Vec::new(alloc),
            places: BTreeMap::new(alloc),
            last_number: 0,
            last: 0,
        }
    }

    /// The most bytes that the pages have, or `usize::MAX` where that is less.
    pub(crate) fn most_bytes(&self) -> usize
        ensures { result ≡ min (length (all_pages self.now) * 64) usize.MAX }
    {
        self.made.len().saturating_mul(PLACES)
    }

    /// Whether a number is that of the page that was sought last. Only while there is no page does none stand there.
    fn is_last(&self, number: u64) -> bool
        ensures { result ≡ true → place_of (all_pages self.now) number ≡ Some self.now.last }
    {
        number == self.last_number && self.last < self.made.len()
    }

    /// Where the page with a number stands.
    fn place(&self, number: u64) -> Option<usize>
        ensures { result ≡ place_of (all_pages self.now) number }
    {
        if self.is_last(number) {
            Some(self.last)
        } else {
            self.places.get(&number).copied()
        }
    }

    /// The page with a number.
    #[tactic(auto, using(crate::proofs::PagePlaces::within))]
    pub(crate) fn get(&self, number: u64) -> Option<&Page>
        ensures { option_copied result ≡ lookup (is_at (nat_cmp number)) (all_pages self.now) }
    {
        match self.place(number) {
            Some(place) => Some(&self.made[place].1),
            None => None,
        }
    }

    /// Where the page with a number stands, which is made without bytes if there is none: the last one from then on.
    /// Only want of memory for a new page refuses it, and then nothing changes.
    fn find_or_make(&mut self, number: u64) -> Result<usize>
        ensures place { IfOk result (λ place. place_of (all_pages self.new) number ≡ Some place) }
        ensures made { OnOk result (StoodOrNew number (all_pages self.old) (all_pages self.new)) }
        ensures err { OnErr result (all_pages self.new ≡ all_pages self.old) }
        ensures memory { IsOkUnless result OutOfMemory }
    {
        // The number is inserted before it is known whether its page stands, so a new page takes one search.
        let next = self.made.len();
        match self.places.insert(number, next)? {
            None => {
                if let Err(error) = self.made.reserve(1) {
                    self.places.remove(&number);
                    return Err(Refusal::from(error));
                }
                self.made.push_reserved((number, Page::new()));
                self.last_number = number;
                self.last = next;
                Ok(next)
            }
            Some(place) => {
                // It stands, so this takes no memory.
                self.places.insert(number, place)?;
                self.last_number = number;
                self.last = place;
                Ok(place)
            }
        }
    }

    /// As `find_or_make`, with no search where it is the last one already.
    fn place_to_put(&mut self, number: u64) -> Result<usize>
        ensures place { IfOk result (λ place. place_of (all_pages self.new) number ≡ Some place) }
        ensures made { OnOk result (StoodOrNew number (all_pages self.old) (all_pages self.new)) }
        ensures err { OnErr result (all_pages self.new ≡ all_pages self.old) }
        ensures memory { IsOkUnless result OutOfMemory }
    {
        if self.is_last(number) {
            return Ok(self.last);
        }
        self.find_or_make(number)
    }

    /// Puts bytes from a place of a page on. Only want of memory for a new page refuses it, and then nothing changes.
    #[tactic(auto, using(crate::proofs::PagePlaces::within))]
    pub(crate) fn put_all(&mut self, number: u64, at: usize, bytes: &[u8]) -> Result<()>
        requires { (at < 64) × (at + length bytes.now ≤ 64) }
        ensures ok { OnOk result (map_of_pages (all_pages self.new) ≡
            with_bytes (map_of_pages (all_pages self.old)) (64 * number + at) bytes.now) }
        ensures pages { OnOk result (length (all_pages self.new) ≡
            length (all_pages self.old) + (if is_some (place_of (all_pages self.old) number) then 0 else 1)) }
        ensures err { OnErr result (all_pages self.new ≡ all_pages self.old) }
        ensures memory { IsOkUnless result OutOfMemory }
    {
        let place = self.place_to_put(number)?;
        self.made[place].1.put_all(at, bytes);
        Ok(())
    }

    /// Puts bytes over those that stand from a place of a page on: `false`, and no change, where one of them doesn't
    /// stand.
    #[tactic(auto, using(crate::proofs::PagePlaces::within))]
    pub(crate) fn replace_all(&mut self, number: u64, at: usize, bytes: &[u8]) -> bool
        requires count { (0 < length bytes.now) × (length bytes.now ≤ 8) }
        requires room { (at < 64) × (at + length bytes.now ≤ 64) }
        ensures stood { result ≡ is_some (number_from (map.get (map_of_pages (all_pages self.old))) (64 * number + at)
            (length bytes.now)) }
        ensures new { map_of_pages (all_pages self.new) ≡
            (if result then with_bytes (map_of_pages (all_pages self.old)) (64 * number + at) bytes.now else
            map_of_pages (all_pages self.old)) }
    {
        match self.place(number) {
            Some(place) => self.made[place].1.replace_all(at, bytes),
            None => false,
        }
    }
}
