//! For measuring parts of the program by themselves: `timing machine-text` reads a machine text from the standard
//! input and prints the address of its RSDP; `timing solver TIMES` reads links and wired interrupts, solves the
//! problem so many times, once where no number is given, and prints how many sources the busiest interrupt of its
//! first least assignment serves; `timing earlier-solver TIMES` does the same by the earlier solver, which is there
//! for tests; `timing spread TIMES` moves links so often from that assignment to one under which they share as little
//! as they can, and `timing spread-check TIMES` tests that one so often; `timing spread-first TIMES` tests so often
//! the assignment that gives each link its first offer, of any number of links.
#![tactic(auto)]

mod links;

ghost use Rattle.route_solve.specs.Fits.{Fits};

use crate::links::problem;
use machine_text::read_machine;
use route_solve::{Answer, Problem, fits, solve};
use route_spread::{is_least_shared, solve_spread};
use route_try::earlier;
use std::alloc::{AllocError, Global};
use std::env;
use std::io::Read;

/// What a machine text comes to.
fn machine_line(alloc: Global, text: &[u8]) -> anyhow::Result<String> {
    Ok(match read_machine(alloc, text) {
        Ok(machine) => format!(in alloc; "rsdp {:X}", machine.rsdp)?,
        Err(refusal) => format!(in alloc; "refused {}", refusal.number())?,
    })
}

/// A solver.
#[derive(Clone, Copy)]
enum Which {
    Now,
    Earlier,
}

/// What a solver answers.
fn solved(alloc: Global, which: Which, problem: &Problem) -> Result<Answer, AllocError>
    requires { Fits problem.now }
{
    match which {
        Which::Now => solve(alloc, problem),
        Which::Earlier => earlier::solve(alloc, problem),
    }
}

/// What a least sharing comes to, found so many times from the first least assignment.
fn spread_line(alloc: Global, text: &[u8], times: u32) -> anyhow::Result<String> {
    let problem = problem(alloc, text)?;
    if !fits(&problem) {
        return Ok("not a problem that fits".to_string(alloc)?);
    }
    let first = solve(alloc, &problem)?.choice;
    let mut moved = 0;
    for _ in 0..times {
        let choice = solve_spread(alloc, &problem.links, &problem.wired, &first)?;
        moved = first
            .iter()
            .zip(choice.iter())
            .filter(|(a, b)| **a != **b)
            .count();
    }
    Ok(format!(in alloc; "moved {moved}")?)
}

/// Whether the least sharing that is found passes its test, so many times.
fn spread_check_line(alloc: Global, text: &[u8], times: u32) -> anyhow::Result<String> {
    let problem = problem(alloc, text)?;
    if !fits(&problem) {
        return Ok("not a problem that fits".to_string(alloc)?);
    }
    let first = solve(alloc, &problem)?.choice;
    let choice = solve_spread(alloc, &problem.links, &problem.wired, &first)?;
    let mut least = true;
    for _ in 0..times {
        least = is_least_shared(alloc, &problem.links, &problem.wired, &choice)?;
    }
    Ok(format!(in alloc; "least {least}")?)
}

/// Whether links share as little as they can where each is given its first offer, tested so many times.
fn spread_first_line(alloc: Global, text: &[u8], times: u32) -> anyhow::Result<String> {
    let problem = problem(alloc, text)?;
    let mut choice: Vec<u32> = Vec::new(alloc);
    for link in &problem.links {
        choice.push(link.offers().first().copied().unwrap_or(0))?;
    }
    let mut least = true;
    for _ in 0..times {
        least = is_least_shared(alloc, &problem.links, &problem.wired, &choice)?;
    }
    Ok(format!(in alloc; "least {least}")?)
}

/// What links come to, solved so many times.
fn solver_line(alloc: Global, text: &[u8], which: Which, times: u32) -> anyhow::Result<String> {
    let problem = problem(alloc, text)?;
    if !fits(&problem) {
        return Ok("not a problem that fits".to_string(alloc)?);
    }
    let mut busiest = 0;
    for _ in 0..times {
        busiest = solved(alloc, which, &problem)?.busiest;
    }
    Ok(format!(in alloc; "busiest {busiest}")?)
}

/// What the words of the command line ask for.
fn line(alloc: Global, words: &[String], text: &[u8]) -> anyhow::Result<String> {
    let word = words.get(1).map_or("", |word| word.as_str());
    let times = words.get(2).map_or("1", |word| word.as_str());
    let times = u32::from_str_radix(times, 10).unwrap_or(0);
    match word {
        "machine-text" => machine_line(alloc, text),
        "solver" => solver_line(alloc, text, Which::Now, times),
        "earlier-solver" => solver_line(alloc, text, Which::Earlier, times),
        "spread" => spread_line(alloc, text, times),
        "spread-check" => spread_check_line(alloc, text, times),
        "spread-first" => spread_first_line(alloc, text, times),
        _ => Ok(
            "machine-text, solver, earlier-solver, spread, spread-check or spread-first?".to_string(
                alloc,
            )?,
        ),
    }
}

fn main(rt: HostRuntime) -> anyhow::Result<()> {
    let alloc = rt.alloc();
    let words: Vec<String> = env::args(&rt)?.collect(alloc)?;
    let mut text = Vec::new(alloc);
    rt.reader().read_to_end(&mut text)?;
    let line = line(alloc, &words, &text)?;
    println!(rt; "{line}")?;
    Ok(())
}
