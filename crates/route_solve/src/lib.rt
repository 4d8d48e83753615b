//! Chooses an interrupt for each link so that the busiest interrupt serves as few sources as any assignment allows,
//! and of such assignments the first, compared link by link in path order, smaller number first. It also returns the
//! links and interrupts that show why no assignment is less busy. Begin with `solve`.
//!
//! It is a matching in a bipartite graph: links on one side, interrupts on the other, and an edge where a link offers
//! an interrupt (`Offers`). Within a limit an interrupt has a capacity: the limit less the sources that are wired to
//! it (`room_of`). Hall's theorem with capacities: all links can be placed within a limit (`CanPlace`) exactly if no
//! set of links is larger than the total capacity of what it offers. Proved for each problem are a placement at the
//! least limit (`IsFirstLeast`, `busiest`), and an obstacle at one less (`Shown`): nothing, where the limit is 0; one
//! interrupt with so many wired sources and no link, where the limit is the greatest wired count; else a larger set,
//! a Hall set (`IsCrowdedSet`). In the last two cases the set is a certificate (`IsLowerBound`): counting is enough
//! to check it. It shows that no choice is less busy, and not that this one is the first. Of the many Hall sets it is
//! one that the problem alone determines: the links that a search reaches from the last link at which no augmenting
//! path begins (`IsCertificate`).
//!
//! There are two passes. `fill` begins at the greatest wired count and places the links in path order, each along an
//! augmenting path; where there is none, the limit grows by one. `first` goes over the links again, and gives each
//! the smallest interrupt with which all later links can still be placed. A problem has at most 256 links, 255 offers
//! of each, and 4,096 wired sources.
//!
//! From the bottom: the offered interrupts by their places in ascending order (`numbers`), a row of bits for each
//! (`rows`), and how many sources are wired to it (`sources`); the graph of these (`graph`) and a matching in it
//! (`matching`); a search for augmenting paths, back from the interrupts that have room (`left`, `ways`, `search`),
//! and the moves of links along one (`moves`); a breadth-first search from a link at which no augmenting path begins,
//! for the Hall set (`hall`); the least limit within which all can be placed (`fill`), the first of the assignments
//! within it (`first`), and both of them for a problem (`assign`); the set (`set`), memory (`buffers`), and the
//! public calls (`solver`) on a problem that fits (`problem`, `conditions`) with what they return (`answer`); and the
//! laws of both (`laws`).
#![tactic(auto)]

mod answer;
mod assign;
mod buffers;
mod conditions;
mod fill;
mod first;
mod graph;
mod hall;
pub mod laws;
mod left;
mod matching;
mod moves;
mod problem;
mod rows;
mod search;
mod set;
mod solver;
mod sources;
mod ways;

pub use answer::Answer;
pub use conditions::fits;
pub use problem::Problem;
pub use solver::{Solver, solve};
