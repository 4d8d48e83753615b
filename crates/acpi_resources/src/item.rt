//! Resource items (ACPI 6.5, 6.4.2 and 6.4.3), read from bytes.
ghost use Rattle.std.specs.Prelude.{◌≡◌, ◌≢◌, MatchOption};
ghost use Rattle.std.specs.Int.RustNames.{bit_and};
ghost use Rattle.acpi_resources.specs.Items.{first_item, items_of, large_item, with_body};
ghost use Rattle.std.specs.Iterator.{YieldsFirst, item_count};

use byteorder::{ByteOrder, LittleEndian};
use std::marker::Model;

/// The bit of an item's first byte that is set in large items.
const LARGE: u8 = 0x80;
/// The bits of a small item's first byte that are its length.
const SMALL_LENGTH: u8 = 0x07;

/// A resource item: its first byte, and the bytes that its length counts.
#[derive(Drop)]
pub(crate) struct Item<'a> {
    pub(crate) tag: u8,
    pub(crate) body: &'a [u8],
}

impl<'a> Model for Item<'a> {
    ghost use Rattle.std.specs.Prelude.{◌≡◌, length};
    ghost use Rattle.std.specs.Int.RustNames.{bit_and};
    ghost use Rattle.acpi_resources.specs.Items.{ResourceItem};

    ghost Value = { ResourceItem };

    ghost view = { λ a. record { tag = a.tag; body = a.body.now } };

    ghost invariant = { λ a. bit_and a.tag 0x80 ≡ 0 → length a.body.now ≡ bit_and a.tag 0x07 };
}

/// The item that bytes begin with and the bytes behind it, or `None` where the bytes end before it does.
#[tactic(auto, unfolding(crate::specs::Items::first_item))]
pub(crate) fn split_item(bytes: &[u8]) -> Option<(Item<'_>, &[u8])>
    ensures { MatchOption result (first_item bytes.now ≡ None)
        (λ found. first_item bytes.now ≡ Some (found.0, found.1.now)) }
{
    let (first, behind) = bytes.split_first()?;
    let tag = *first;
    if tag & LARGE == 0 {
        split_body(tag, usize::from(tag & SMALL_LENGTH), behind)
    } else {
        split_large(tag, behind)
    }
}

/// The large item whose first byte stands before `bytes`.
#[tactic(auto, unfolding(crate::specs::Items::large_item))]
fn split_large(tag: u8, bytes: &[u8]) -> Option<(Item<'_>, &[u8])>
    requires { bit_and tag LARGE ≢ 0 }
    ensures { MatchOption result (large_item tag bytes.now ≡ None)
        (λ found. large_item tag bytes.now ≡ Some (found.0, found.1.now)) }
{
    if bytes.len() < 2 {
        return None;
    }
    let length = LittleEndian::read_u16(bytes);
    split_body(tag, usize::from(length), &bytes[2..])
}

/// The item whose body is the first `count` of the bytes.
#[tactic(auto, unfolding(crate::specs::Items::with_body))]
fn split_body(tag: u8, count: usize, bytes: &[u8]) -> Option<(Item<'_>, &[u8])>
    requires { bit_and tag LARGE ≡ 0 → count ≡ bit_and tag SMALL_LENGTH }
    ensures { MatchOption result (with_body tag count bytes.now ≡ None)
        (λ found. with_body tag count bytes.now ≡ Some (found.0, found.1.now)) }
{
    if count > bytes.len() {
        return None;
    }
    let (body, behind) = bytes.split_at(count);
    Some((Item { tag, body }, behind))
}

/// The items that bytes begin with, one after another, up to one that ends past them.
#[derive(Drop)]
pub(crate) struct Items<'a> {
    rest: &'a [u8],
}

impl<'a> Model for Items<'a> {
    ghost use Rattle.std.specs.Prelude.{List};
    ghost use Rattle.acpi_resources.specs.Items.{ResourceItem, items_of};

    ghost Value = { List ResourceItem };

    ghost view = { λ a. items_of a.rest.now };
}

impl<'a> Items<'a> {
    pub(crate) fn new(bytes: &'a [u8]) -> Items<'a>
        ensures { result ≡ items_of bytes.now }
    {
        Items { rest: bytes }
    }
}

impl<'a> Iterator for Items<'a> {
    type Item = Item<'a>;

    ghost next_gives = { YieldsFirst (λ rest. rest) };

    ghost remaining = { item_count (λ rest. rest) };

    #[tactic(auto, using(crate::proofs::Splitting::items_of_none, crate::proofs::Splitting::items_of_some))]
    fn next(&mut self) -> Option<Item<'a>> {
        let (item, rest) = split_item(self.rest)?;
        self.rest = rest;
        Some(item)
    }
}
