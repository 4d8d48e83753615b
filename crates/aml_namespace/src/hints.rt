//! Hints of where nodes lie, by their parents and segments.
ghost use Rattle.std.specs.Prelude.{◌≡◌, IsOkUnless};
ghost use Rattle.ar_space.specs.declared.refusal.Refusal.TheVariants.{OutOfMemory};
ghost use Rattle.aml_namespace.specs.Places.{place_of};

use aml_path::Seg;
use ar_space::Result;
use std::alloc::Global;

/// The key of no node.
const FREE: usize = usize::MAX;

/// How many places are looked at for one hint.
pub(crate) const PROBES: usize = 8;

/// The least length of a table that isn't empty.
const LEAST: usize = 16;

/// Keys of nodes, at places that the parents' numbers and the segments choose.
///
/// Nothing is promised of what it holds, since the node under a key is read before the hint is believed. A key whose
/// node was removed, one that was never noted, or many nodes that would lie at one place cost a search by the index,
/// and nothing else.
#[derive(Drop)]
pub(crate) struct Hints {
    /// No key, or as many as a power of two.
    keys: Vec<usize>,
    /// How many were noted since the table was last renewed.
    noted: usize,
}

impl Hints {
    /// No hint. It takes no memory.
    pub(crate) fn new(alloc: Global) -> Hints {
        Hints {
            keys: Vec::new(alloc),
            noted: 0,
        }
    }

    /// The key at a place, if one was noted there. The places go round.
    pub(crate) fn key_at(&self, place: usize) -> Option<usize> {
        match self.keys.get(self.place_within(place)) {
            Some(key) if *key != FREE => Some(*key),
            _ => None,
        }
    }

    /// A place within the table.
    fn place_within(&self, place: usize) -> usize {
        place & self.keys.len().wrapping_sub(1)
    }

    /// Notes the key of a node, in a place that is free or in that of an older hint.
    pub(crate) fn note(&mut self, parent: u64, segment: Seg, key: usize) {
        let place = self.place_for(first_place(parent, segment), key);
        let within = self.place_within(place);
        if let Some(held) = self.keys.get_mut(within) {
            if *held == FREE {
                self.noted = self.noted.saturating_add(1);
            }
            *held = key;
        }
    }

    /// The place for a key: the first of some that is free or has this key already, or else the first of all.
    fn place_for(&self, first: usize, key: usize) -> usize {
        for step in 0..PROBES {
            let place = first.wrapping_add(step);
            match self.key_at(place) {
                Some(held) if held != key => {}
                _ => return place,
            }
        }
        first
    }

    /// Whether the table is to be renewed before more is noted. So there are free places, at which a search for a
    /// hint stops early.
    pub(crate) fn is_full(&self) -> bool {
        self.noted >= self.keys.len() / 2
    }

    /// Forgets all hints, and makes room for those of so many nodes. Where there is no memory for them, nothing
    /// changes.
    ///
    /// A table whose nodes were removed keeps its length, so it doesn't grow with what was ever declared. Either way
    /// as many nodes as a quarter of the length can be noted before it is full again, which pays for noting all anew.
    pub(crate) fn renew(&mut self, nodes: usize) -> Result<()>
        ensures memory { IsOkUnless result OutOfMemory }
    {
        let length = self.keys.len();
        let wanted = if nodes > length / 4 {
            length.saturating_mul(2).max(LEAST)
        } else {
            length
        };
        self.keys.resize(wanted, FREE)?;
        self.keys.fill(FREE);
        self.noted = 0;
        Ok(())
    }
}

/// The first place to look at for the node below a parent by a segment. The number and the segment are multiplied by
/// an odd number without a pattern. The last bits of the place, which a small table uses, come from the segment and
/// the last bits of the number.
#[tactic(auto, unfolding(crate::specs::Places::place_of))]
pub(crate) fn first_place(parent: u64, segment: Seg) -> usize
    ensures { result ≡ place_of parent segment }
{
    let mixed = parent.rotate_left(32) ^ u64::from(u32::from_le_bytes(segment.bytes()));
    (mixed.wrapping_mul(0x9E37_79B9_7F4A_7C15) >> 32) as usize
}
