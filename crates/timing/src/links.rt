//! Links as lines of the numbers that they offer, and wired interrupts as a number and a count behind `wired`.
use aml_path::{Path, Seg};
use ar_space::Result;
use route_model::Link;
use route_solve::Problem;
use std::alloc::{AllocError, Global};

/// The number that digits write.
fn number(digits: &[u8]) -> u32 {
    let mut n: u32 = 0;
    for digit in digits {
        n = n
            .wrapping_mul(10)
            .wrapping_add(u32::from(digit.wrapping_sub(b'0')));
    }
    n
}

/// The numbers of a line.
fn numbers(alloc: Global, line: &[u8]) -> Result<Vec<u32>, AllocError> {
    let mut numbers: Vec<u32> = Vec::new(alloc);
    for word in line.split(|b| *b == b' ') {
        numbers.push(number(word))?;
    }
    Ok(numbers)
}

/// The path of the link at a place: `\L000`, `\L001` and so on, which are in path order.
fn path(alloc: Global, place: usize) -> Result<Path> {
    let digit = |n: usize| b'0' + (n % 10) as u8;
    let name = [b'L', digit(place / 100), digit(place / 10), digit(place)];
    Path::root(alloc).child(alloc, Seg::new(name)?)
}

/// Adds the link or the wired interrupt of a line.
fn add_line(alloc: Global, problem: &mut Problem, line: &[u8]) -> Result<()> {
    match line.strip_prefix(b"wired ") {
        Some(rest) => {
            let words = numbers(alloc, rest)?;
            if let [interrupt, count] = words.as_slice() {
                problem.wired.push((*interrupt, *count))?;
            }
        }
        None => {
            let path = path(alloc, problem.links.len())?;
            problem.links.push(Link::new(path, numbers(alloc, line)?))?;
        }
    }
    Ok(())
}

/// The problem of these lines.
pub(crate) fn problem(alloc: Global, text: &[u8]) -> Result<Problem> {
    let mut problem = Problem {
        links: Vec::new(alloc),
        wired: Vec::new(alloc),
    };
    for line in text.split(|b| *b == b'\n') {
        if !line.is_empty() {
            add_line(alloc, &mut problem, line)?;
        }
    }
    Ok(problem)
}
