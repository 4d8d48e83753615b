//! The first least assignment of a problem, as a matching in its graph.
ghost use Rattle.std.specs.Prelude.{◌≡◌, ◌<◌, ℕ, IfOk, IsSome, Some, length};
ghost use Rattle.route_model.specs.Links.{offers_of};
ghost use Rattle.route_model.specs.Routing.{busiest, IsFirstLeast};
ghost use Rattle.route_model.specs.Placement.{placement_of, place_of, IsWhole};
ghost use Rattle.route_solve.specs.Fits.{IsSolvable};
ghost use Rattle.route_solve.specs.Graphs.{AreBuffers, AreSized, IsEmpty, IsGreatestWired, IsLeastLimitFor};
ghost use Rattle.route_solve.specs.Graphs.{Represents};
ghost use Rattle.route_solve.specs.Named.{name_of, named};

use crate::fill::place_all;
use crate::first::fix_all;
use crate::graph::Graph;
use crate::hall::HallSearch;
use crate::matching::Matching;
use crate::problem::Problem;
use crate::search::Search;
use std::alloc::{AllocError, Global};

/// A problem with the interrupts that its links offer.
#[derive(Clone, Copy)]
pub(crate) struct Offered<'a> {
    /// The problem.
    pub problem: &'a Problem,
    /// The offered interrupts, ascending.
    pub numbers: &'a [u32],
    /// For each of these a row of bits, one for each link that offers it.
    pub rows: &'a [u64],
}

/// What the searches write to.
#[derive(Drop)]
pub(crate) struct Buffers {
    /// How many of the links that were fixed have each interrupt.
    pub kept: Vec<usize>,
    /// The search for augmenting paths.
    pub search: Search,
    /// The search for a Hall set.
    pub hall: HallSearch,
}

impl Buffers {
    /// Takes memory for so many links and interrupts.
    pub(crate) fn new(alloc: Global, links: usize, interrupts: usize) -> Result<Buffers, AllocError>
        ensures { IfOk result (λ buffers. AreSized links interrupts buffers) }
    {
        Ok(Buffers {
            kept: vec![in alloc; 0; interrupts]?,
            search: Search::new(alloc, interrupts)?,
            hall: HallSearch::new(alloc, links, interrupts)?,
        })
    }
}

/// The number of the interrupt of a link that has one.
fn number_held(numbers: &[u32], choice: &[Option<usize>], link: usize) -> u32
    requires link { link < length choice.now }
    requires placed { IsSome (place_of choice.now link) }
    requires known { (i : ℕ) → place_of choice.now link ≡ Some i → i < length numbers.now }
    ensures { name_of numbers.now (place_of choice.now link) ≡ Some result }
{
    match choice[link] {
        Some(i) => numbers[i],
        None => 0,
    }
}

/// Writes out the numbers of the interrupts that the links have.
fn write_out(numbers: &[u32], choice: &[Option<usize>], given: &mut [u32])
    requires lengths { length given.old ≡ length choice.now }
    requires whole { IsWhole choice.now }
    requires known { (k i : ℕ) → place_of choice.now k ≡ Some i → i < length numbers.now }
    ensures { placement_of given.new ≡ named numbers.now choice.now }
{
    for k in 0..choice.len() {
        given[k] = number_held(numbers, choice, k);
    }
}

/// Finds the first least assignment of a problem, and gives how many sources its busiest interrupt serves.
pub(crate) fn assign(
    offered: &Offered<'_>,
    graph: &Graph<'_>,
    matching: &mut Matching,
    buffers: &mut Buffers,
    given: &mut [u32],
) -> usize
    requires fits { IsSolvable offered.now.problem.now }
    requires graph { Represents graph.now offered.now }
    requires all { graph.now.low ≡ 0 }
    requires floor { IsGreatestWired offered.now.problem.now.wired graph.now.limit }
    requires matching { IsEmpty graph.now matching.old }
    requires sized { AreBuffers graph.now buffers.old }
    requires answers { length given.old ≡ length offered.now.problem.now.links }
    ensures first_least { IsFirstLeast (offers_of offered.now.problem.now.links)
        offered.now.problem.now.wired given.new }
    ensures busiest { busiest offered.now.problem.now.wired given.new ≡ result }
    ensures limit { IsLeastLimitFor offered.now.problem.now graph.now.limit result buffers.new.hall.reached.items }
{
    let limit = place_all(graph, matching, buffers);
    let within = Graph { limit, ..*graph };
    fix_all(&within, matching, &mut buffers.kept, &mut buffers.search);
    write_out(offered.numbers, &matching.choice, given);
    limit
}
