//! Lets links share interrupts as little as they can: a solver, which begins with any assignment, and a check of any
//! choice, from the offers and the wired counts alone. Begin with `solve_spread` and `is_least_shared`.
//!
//! Links and interrupts are a bipartite graph, with an edge where a link offers an interrupt (`Offers`). An assignment
//! is a semi-matching in it: each link has one interrupt, and an interrupt may have many links. The load of an
//! interrupt is the number of its links and of the sources that are wired to it. Least shared is what is known as an
//! optimal semi-matching, here with these wired base loads (`IsLeastShared`): for each k, the sum over interrupts of
//! max(0, load - k) is the least of any assignment.
//!
//! Laws (`laws`) say what follows. Where an assignment is least shared, the loads of no other come first, both sorted
//! from the greatest down (`a_least_sharing_is_first_by_sorted_loads`); where those of no other do, it is least
//! shared (`the_first_by_sorted_loads_is_a_least_sharing`). Its busiest interrupt is then no busier than that of any
//! other (`a_least_sharing_is_least`). Wherever there is an assignment, one is least shared
//! (`there_is_a_least_sharing`).
//!
//! An assignment that isn't least shared has a cost-reducing path: links of which each can go to the interrupt of the
//! next, and the last one (`Way`) to an interrupt that serves at least two sources less than that of the first. Where
//! all of them move, the first interrupt serves one source less and the last one more. A search goes over the
//! interrupts from the highest down, and raises what their links offer to the height of the link, by one at most; an
//! offer that is lower by two at least ends a path, and links move along it. Then comes another search, until there is
//! no path. What the last search raised is the certificate (`IsLevelled`): with some interrupts counted as one source
//! higher, no link offers one that is lower than its own. It shows that the assignment is least shared
//! (`laws::raised_loads_show_a_least_sharing`). A check is one search.
//!
//! From the bottom: how many sources each offered interrupt serves (`sources`), the interrupts being known by their
//! places (`route_numbers`); the links of each interrupt (`holders`); the interrupts in the order of a search
//! (`order`); a search for a path (`marking`); the moves of links along one (`assignment`); searches and moves until
//! there is no path, memory, and the public calls (`sharing`); and the laws (`laws`).
#![tactic(auto)]

mod assignment;
mod holders;
pub mod laws;
mod marking;
mod order;
mod sharing;
mod sources;

pub use sharing::{is_least_shared, solve_spread};
