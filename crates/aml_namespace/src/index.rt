//! An index of nodes by their parents and segments.
ghost use Rattle.std.specs.Prelude.{◌≡◌, ◌<◌, ◌+◌, ◌^◌, ℕ, [], ◌∷◌, Some, None, Ok, true, false, is_some, OnOk, OnErr};
ghost use Rattle.std.specs.Prelude.{IfOk, IsOkUnless, MatchOption, cond, option_map};
ghost use Rattle.std.specs.List.Sorted.{IsStrictlySortedBy};
ghost use Rattle.std.specs.Map.{keys_of};
ghost use Rattle.std.specs.Ordering.{eq_by_cmp};
ghost use Rattle.ar_space.specs.Outcome.{Answers, seen};
ghost use Rattle.aml_path.specs.declared.segment.Seg.{Seg};
ghost use Rattle.ar_space.specs.declared.refusal.Refusal.TheVariants.{OutOfMemory};
ghost use Rattle.aml_namespace.specs.Places.{may_be, place_of};
ghost use Rattle.aml_namespace.specs.Tree.{index_cmp, child_in, segments_below, PlacesMarked};

use crate::hints::first_place;
use crate::parents::Parents;
use crate::taken_places::TakenPlaces;
use aml_objects::NodeId;
use aml_path::Seg;
use ar_space::Result;
use std::alloc::Global;
use std::collections::BTreeMap;
use std::marker::Model;

/// The nodes by their parents' numbers and their segments, seen as the list of all in this order.
///
/// Which nodes are parents, and at which places names may be, are kept beside it, so that little is searched for in
/// vain.
#[derive(Drop)]
pub(crate) struct Index {
    places: BTreeMap<(u64, Seg), NodeId>,
    parents: Parents,
    taken: TakenPlaces,
}

impl Model for Index {
    ghost use Rattle.std.specs.Prelude.{ℕ, List};
    ghost use Rattle.aml_path.specs.declared.segment.Seg.{Seg as Segment};
    ghost use Rattle.aml_objects.specs.declared.node.NodeId.{NodeId as Id};

    ghost Value = { List ((ℕ × Segment) × Id) };

    ghost use Rattle.aml_namespace.specs.Tree.{ParentsMarked, PlacesMarked};

    ghost view = { λ i. i.places.entries };

    ghost invariant = { λ i. ParentsMarked i.parents i.places.entries × PlacesMarked i.taken i.places.entries };
}

impl Index {
    /// No node.
    pub(crate) fn new(alloc: Global) -> Result<Index>
        ensures empty { IfOk result (λ index. index ≡ []) }
        ensures memory { IsOkUnless result OutOfMemory }
    {
        let parents = Parents::new(alloc)?;
        Ok(Index {
            places: BTreeMap::new(alloc),
            parents,
            taken: TakenPlaces::new(alloc),
        })
    }

    /// The nodes, in order.
    pub(crate) fn places(&self) -> &BTreeMap<(u64, Seg), NodeId>
        ensures { result.now.entries ≡ self.now }
    {
        &self.places
    }

    /// Whether a node may have a child with this segment. Most of those that have none are known by this. It takes no
    /// memory.
    pub(crate) fn may_have_child(&self, parent: u64, segment: Seg) -> bool
        ensures { result ≡ false → child_in self.now parent segment ≡ None }
    {
        self.parents.contains(parent) && self.taken.contains(first_place(parent, segment))
    }

    /// The child of a node that has this segment. It takes no memory.
    pub(crate) fn find(&self, parent: u64, segment: Seg) -> Option<NodeId>
        ensures { option_map (λ id. id.number) result ≡ child_in self.now parent segment }
    {
        self.places.get(&(parent, segment)).copied()
    }

    /// Puts a node below a parent by a segment. Where there is no memory for it, nothing changes.
    pub(crate) fn insert(&mut self, parent: u64, segment: Seg, id: NodeId) -> Result<()>
        ensures children { OnOk result ((p : ℕ) (s : Seg) → child_in self.new p s ≡
            cond (eq_by_cmp index_cmp (parent, segment) (p, s)) (Some id.number) (child_in self.old p s)) }
        ensures unchanged { OnErr result (self.new ≡ self.old) }
        ensures memory { IsOkUnless result OutOfMemory }
    {
        make_room(&mut self.taken, &self.places)?;
        self.places.insert((parent, segment), id)?;
        self.parents.insert(parent);
        self.taken.insert(first_place(parent, segment));
        Ok(())
    }

    /// Takes out what lies below a parent by a segment. It takes no memory.
    pub(crate) fn remove(&mut self, parent: u64, segment: Seg)
        ensures { (p : ℕ) (s : Seg) → child_in self.new p s ≡ cond (eq_by_cmp index_cmp (parent, segment) (p, s)) None
            (child_in self.old p s) }
    {
        self.places.remove(&(parent, segment));
    }

    /// A child of a node with its segment, if the node has one: which of them, the contract leaves open. It takes no
    /// memory.
    pub(crate) fn first_child(&self, parent: u64) -> Option<(Seg, NodeId)>
        ensures { MatchOption result ((s : Seg) → child_in self.now parent s ≡ None)
            (λ first. child_in self.now parent first.0 ≡ Some first.1.number) }
    {
        if !self.parents.contains(parent) {
            return None;
        }
        let mut from = self.places.range((parent, least_segment())..);
        match from.next() {
            None => None,
            Some((place, id)) => {
                if place.0 == parent {
                    Some((place.1, *id))
                } else {
                    None
                }
            }
        }
    }

    /// The segments of a node's children, in order.
    pub(crate) fn children_of(&self, alloc: Global, parent: u64) -> Result<Vec<Seg>>
        requires { parent + 1 < 2 ^ 64 }
        ensures children { Answers (seen (λ list. list.items) result) (Ok (segments_below parent self.now)) }
        ensures ordered { IsStrictlySortedBy index_cmp (keys_of self.now) }
    {
        let from = (parent, least_segment());
        let to = (parent + 1, least_segment());
        let mut list = Vec::new(alloc);
        for (place, _) in self.places.range(from..to) {
            list.push(place.1)?;
        }
        Ok(list)
    }
}

/// Makes room for one more mark: once there are many, all are made anew.
fn make_room(taken: &mut TakenPlaces, places: &BTreeMap<(u64, Seg), NodeId>) -> Result<()>
    requires { PlacesMarked taken.old places.now.entries }
    ensures marked { PlacesMarked taken.new places.now.entries }
    ensures memory { IsOkUnless result OutOfMemory }
{
    if taken.is_full() {
        taken.renew(places.len())?;
        mark_all(taken, places);
    }
    Ok(())
}

/// Marks all places where nodes are.
fn mark_all(taken: &mut TakenPlaces, places: &BTreeMap<(u64, Seg), NodeId>)
    ensures { PlacesMarked taken.new places.now.entries }
{
    for (place, _) in places {
        taken.insert(first_place(place.0, place.1));
    }
}

/// The least segment that there is.
fn least_segment() -> Seg
    ensures { result.bytes ≡ 65 ∷ 48 ∷ 48 ∷ 48 ∷ [] }
{
    Seg::known(*b"A000")
}
