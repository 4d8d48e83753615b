//! The public calls: memory first, then a search that takes none.
ghost use Rattle.std.specs.Prelude.{◌≡◌, ◌≤◌, ◌⊎◌, ℕ, List, IfOk, MatchOption, None, true, length, map, replicate};
ghost use Rattle.std.specs.Prelude.{sum_by};
ghost use Rattle.std.specs.List.{range_with_len};
ghost use Rattle.std.specs.List.Sorted.{IsStrictlyIncreasing};
ghost use Rattle.route_model.specs.Links.{offers_of};
ghost use Rattle.route_model.specs.Routing.{busiest, IsAssignment, IsFirstLeast};
ghost use Rattle.route_model.specs.Placement.{Offers};
ghost use Rattle.route_solve.specs.Fits.{Fits, IsSolvable};
ghost use Rattle.route_solve.specs.Graphs.{AreSized, IsGreatestWired, IsNumbering};
ghost use Rattle.route_solve.specs.Marks.{HasAll};
ghost use Rattle.route_numbers.specs.Numbers.{is_offered};
ghost use Rattle.route_solve.specs.Rows.{IsRow};
ghost use Rattle.route_model.specs.Bound.{IsLowerBound};
ghost use Rattle.route_solve.specs.Shown.{Shown};

use crate::answer::Answer;
use crate::assign::{Buffers, Offered, assign};
use crate::buffers::{all_interrupts, all_places};
use crate::graph::Graph;
use crate::matching::Matching;
use crate::problem::Problem;
use crate::rows::{all_rows, row_at};
use crate::set::show;
use crate::sources::all_sources;
use route_numbers::{all_offered, all_places_offered, place_among};
use std::alloc::{AllocError, Global};

/// The greatest number of sources that are wired to one interrupt.
fn greatest_wired(wired: &[(u32, u32)]) -> usize
    requires counts { sum_by (λ w. w.1) wired.now ≤ 4096 }
    requires up { IsStrictlyIncreasing (map (λ w. w.0) wired.now) }
    ensures { IsGreatestWired wired.now result }
{
    let mut greatest = 0;
    for w in wired {
        let count = w.1 as usize;
        if count > greatest {
            greatest = count;
        }
    }
    greatest
}

/// A search for the first least assignment of a problem, with all the memory that it takes.
#[derive(Drop)]
pub struct Solver<'a> {
    problem: &'a Problem,
    /// The interrupts that links offer, ascending.
    numbers: Vec<u32>,
    /// The row of each of these, four words long.
    rows: Vec<u64>,
    /// For each link the places of what it offers.
    offers: Vec<Vec<usize>>,
    /// How many sources are wired to each interrupt.
    sources: Vec<usize>,
    /// The interrupts that the links have so far.
    matching: Matching,
    /// What the searches write to.
    buffers: Buffers,
    /// Room for the choice.
    given: Vec<u32>,
    /// All places, of which those of the set stay.
    places: Vec<usize>,
    /// All interrupts, of which those of the set stay.
    interrupts: Vec<u32>,
    ghost fits: { IsSolvable problem.now },
    ghost graph: { IsNumbering problem.now numbers.items offers.items rows.items sources.items },
    ghost unplaced: { matching.choice.items ≡ replicate (length problem.now.links) None },
    ghost uncounted: { matching.counts.items ≡ replicate (length numbers.items) 0 },
    ghost sized: { AreSized (length problem.now.links) (length numbers.items) buffers },
    ghost answers: { length given.items ≡ length problem.now.links },
    ghost all_there: { places.items ≡ range_with_len 0 (length problem.now.links) },
    ghost ascending: { IsStrictlyIncreasing interrupts.items },
    ghost all: { HasAll (offers_of problem.now.links) problem.now.wired interrupts.items },
}

impl<'a> Solver<'a> {
    /// Takes all memory for a search. The problem must be one that `fits`.
    pub fn new(alloc: Global, problem: &'a Problem) -> Result<Solver<'a>, AllocError>
        requires { Fits problem.now }
        ensures { IfOk result (λ solver. solver.problem.now ≡ problem.now) }
    {
        let links = problem.links();
        let n = links.len();
        let places = all_places(alloc, n)?;
        let numbers = all_offered(alloc, links)?;
        let interrupts = all_interrupts(alloc, &numbers, problem.wired())?;
        let offers = all_places_offered(alloc, &numbers, links)?;
        let rows = all_rows(alloc, &numbers, &offers)?;
        let sources = all_sources(alloc, &numbers, problem.wired())?;
        let m = numbers.len();
        let matching = Matching::new(alloc, n, m)?;
        let buffers = Buffers::new(alloc, n, m)?;
        Ok(Solver {
            problem,
            numbers,
            rows,
            offers,
            sources,
            matching,
            buffers,
            given: vec![in alloc; 0; n]?,
            places,
            interrupts,
        })
    }

    /// The row of an interrupt, four words with the lowest bit first: bit i is set exactly where link i of the problem,
    /// counted from 0, offers it. None where no link does. It takes no memory.
    pub fn row(&self, n: u32) -> Option<[u64; 4]>
        ensures { MatchOption result ((l : ℕ) → Offers (offers_of self.now.problem.now.links) l n →
            ⊥) (λ row. (is_offered (offers_of self.now.problem.now.links) n ≡ true) ×
            IsRow (offers_of self.now.problem.now.links) n row) }
    {
        match place_among(&self.numbers, n) {
            Some(i) => Some(row_at(&self.rows, i)),
            None => None,
        }
    }

    /// Finds the first least assignment, and the set that shows why none is less busy. It takes no memory.
    pub fn search(self) -> Answer
        ensures least { (b : List ℕ) → IsAssignment (offers_of self.entry.problem.now.links) b →
            result.busiest ≤ busiest self.entry.problem.now.wired b }
        ensures busiest { busiest self.entry.problem.now.wired result.choice ≡ result.busiest }
        ensures first_least { IsFirstLeast (offers_of self.entry.problem.now.links)
            self.entry.problem.now.wired result.choice }
        ensures shown { Shown (offers_of self.entry.problem.now.links) self.entry.problem.now.wired result.busiest
            result.links result.interrupts }
        ensures bound { (result.busiest ≡ 0) ⊎ IsLowerBound (offers_of self.entry.problem.now.links)
            self.entry.problem.now.wired result.busiest result.links result.interrupts }
    {
        let Solver {
            problem,
            numbers,
            rows,
            offers,
            sources,
            mut matching,
            mut buffers,
            mut given,
            mut places,
            mut interrupts,
        } = self;
        let offered = Offered {
            problem,
            numbers: &numbers,
            rows: &rows,
        };
        let graph = Graph {
            offers: &offers,
            rows: &rows,
            sources: &sources,
            limit: greatest_wired(problem.wired()),
            low: 0,
        };
        let limit = assign(&offered, &graph, &mut matching, &mut buffers, &mut given);
        show(
            &offered,
            &buffers.hall.reached,
            graph.limit,
            limit,
            &mut places,
            &mut interrupts,
        );
        Answer {
            choice: given,
            busiest: limit as u32,
            links: places,
            interrupts,
        }
    }
}

/// The first least assignment of a problem that `fits`, and the set that shows why none is less busy: `Solver::new`,
/// then `Solver::search`.
///
/// ```
/// if fits(&problem) {
///     let answer = solve(alloc, &problem)?;
///     println!(rt; "busiest {}", answer.busiest)?;
/// }
/// ```
pub fn solve(alloc: Global, problem: &Problem) -> Result<Answer, AllocError>
    requires { Fits problem.now }
    ensures least { IfOk result (λ a. (b : List ℕ) → IsAssignment (offers_of problem.now.links) b →
        a.busiest ≤ busiest problem.now.wired b) }
    ensures busiest { IfOk result (λ a. busiest problem.now.wired a.choice ≡ a.busiest) }
    ensures first_least { IfOk result (λ a. IsFirstLeast (offers_of problem.now.links) problem.now.wired a.choice) }
    ensures shown { IfOk result (λ a. Shown (offers_of problem.now.links) problem.now.wired a.busiest
        a.links a.interrupts) }
    ensures bound { IfOk result (λ a. (a.busiest ≡ 0) ⊎ IsLowerBound (offers_of problem.now.links) problem.now.wired
        a.busiest a.links a.interrupts) }
{
    let solver = Solver::new(alloc, problem)?;
    Ok(solver.search())
}
