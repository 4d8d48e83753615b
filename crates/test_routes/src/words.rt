//! The words of a question: numbers, paths, and lists of them.
use aml_path::Path;
use route_check::Bound;
use test_rows::Exchange;
use test_words::{add, path, path_of};

/// Passes over a word.
pub fn pass(asked: &mut Exchange, word: &str) {
    if asked.word() != word {
        asked.misunderstand();
    }
}

/// What the next word stands for, and `other` where it is none of these names.
pub fn named<T: Copy>(asked: &mut Exchange, names: &[(&str, T)], other: T) -> T {
    let name = asked.word();
    asked.one_of(names, name, other)
}

/// A number below 2^32.
pub fn number_of(asked: &mut Exchange, text: &str) -> u32 {
    asked.digits(text, 10, 0xFFFF_FFFF) as u32
}

/// The next word as a number below 2^32.
pub fn number(asked: &mut Exchange) -> u32 {
    asked.number(0xFFFF_FFFF) as u32
}

/// Adds a number, or all of `FIRST..LAST`.
fn add_numbers(asked: &mut Exchange, numbers: &mut Vec<u32>, word: &str) {
    let (first, last) = word.split_once("..").unwrap_or((word, word));
    let first = number_of(asked, first);
    let last = number_of(asked, last);
    for number in first..=last {
        add(asked, numbers, number);
    }
}

/// Numbers and ranges of them; `-` for none.
pub fn numbers_of(asked: &mut Exchange, text: &str) -> Vec<u32> {
    let mut numbers = Vec::new(asked.alloc());
    if text != "-" {
        for word in text.split(' ') {
            add_numbers(asked, &mut numbers, word);
        }
    }
    numbers
}

/// The numbers that are left.
pub fn numbers(asked: &mut Exchange) -> Vec<u32> {
    let text = asked.rest();
    numbers_of(asked, text)
}

/// The source of the System Control Interrupt: a number, or `none`.
pub fn source(asked: &mut Exchange) -> Option<u32> {
    if asked.takes("none") {
        None
    } else {
        Some(number(asked))
    }
}

/// Absolute paths; `-` for none.
fn paths_of(asked: &mut Exchange, text: &str) -> Vec<Path> {
    let mut paths = Vec::new(asked.alloc());
    if text != "-" {
        for word in text.split(' ') {
            let path = path_of(asked, word);
            add(asked, &mut paths, path);
        }
    }
    paths
}

/// `N COUNT`: adds an interrupt with a number of sources.
pub fn add_wired(asked: &mut Exchange, wired: &mut Vec<(u32, u32)>) {
    let interrupt = number(asked);
    let count = number(asked);
    add(asked, wired, (interrupt, count));
}

/// `PATH N`: adds a link with the interrupt that it is given.
pub fn add_give(asked: &mut Exchange, gives: &mut Vec<(Path, u32)>) {
    let link = path(asked);
    let interrupt = number(asked);
    add(asked, gives, (link, interrupt));
}

/// A set: `LINKS over INTERRUPTS`.
fn set(asked: &mut Exchange) -> Bound {
    let links = asked.until(" over ");
    Bound {
        links: paths_of(asked, links),
        interrupts: numbers(asked),
    }
}

/// `none`, or `LINKS over INTERRUPTS`: makes this the set.
pub fn set_bound(asked: &mut Exchange, bound: &mut Option<Bound>) {
    *bound = if asked.takes("none") {
        None
    } else {
        Some(set(asked))
    };
}
