//! Links and reports that are too large to be written out.
use crate::texts::put;
use crate::words::{number, number_of, numbers_of};
use route_model::Link;
use std::alloc::AllocError;
use test_rows::Exchange;
use test_words::{add, path_of};

/// Adds a link `\L000`, `\L001` and so on, with the interrupts that a text has.
fn add_numbered(asked: &mut Exchange, links: &mut Vec<Link>, number: u32, offers: &str) {
    match format!(in asked.alloc(); "\\L{number:03}") {
        Ok(name) => {
            let path = path_of(asked, name.as_str());
            let offers = numbers_of(asked, offers);
            add(asked, links, Link::new(path, offers));
        }
        Err(_) => asked.run_out(),
    }
}

/// `links COUNT offer N..`: so many links `\L000`, `\L001` and so on, which offer the same.
pub fn add_links(asked: &mut Exchange, links: &mut Vec<Link>) {
    let count = asked.until(" offer ");
    let count = number_of(asked, count);
    let offers = asked.rest();
    for number in 0..count {
        add_numbered(asked, links, number, offers);
    }
}

/// Puts a text that had to be made behind the text of a report.
fn put_made(asked: &mut Exchange, text: &mut Vec<u8>, made: Result<String, AllocError>) {
    match made {
        Ok(made) => put(asked, text, made.as_bytes()),
        Err(_) => asked.run_out(),
    }
}

/// Puts a number with a blank before it.
fn put_number(asked: &mut Exchange, text: &mut Vec<u8>, number: u32) {
    let word = format!(in asked.alloc(); " {number}");
    put_made(asked, text, word);
}

/// Puts the path of the link of a number with a blank before it.
fn put_path(asked: &mut Exchange, text: &mut Vec<u8>, number: u32) {
    let word = format!(in asked.alloc(); " \\L{number:03}");
    put_made(asked, text, word);
}

/// Puts the numbers 1 to 255.
fn put_offers(asked: &mut Exchange, text: &mut Vec<u8>) {
    for number in 1..256u32 {
        put_number(asked, text, number);
    }
}

/// Puts the line of a link.
fn put_link(asked: &mut Exchange, text: &mut Vec<u8>, number: u32, offers: &[u8]) {
    put(asked, text, b"link");
    put_path(asked, text, number);
    put(asked, text, b" small low offers");
    put(asked, text, offers);
    put(asked, text, b" now -\n");
}

/// Puts the lines of these links, which offer 1 to 255.
fn put_links(asked: &mut Exchange, text: &mut Vec<u8>, links: u32) {
    let mut offers = Vec::new(asked.alloc());
    put_offers(asked, &mut offers);
    for number in 1..=links {
        put_link(asked, text, number, offers.as_slice());
    }
}

/// Puts the lines that give each interrupt, from 1 on, to two links.
fn put_gives(asked: &mut Exchange, text: &mut Vec<u8>, links: u32) {
    for number in 1..=links {
        put(asked, text, b"give");
        put_path(asked, text, number);
        put_number(asked, text, number.div_ceil(2));
        put(asked, text, b"\n");
    }
}

/// Puts the line of a bound of these links over 1 to 255.
fn put_bound(asked: &mut Exchange, text: &mut Vec<u8>, links: u32) {
    put(asked, text, b"bound");
    for number in 1..=links {
        put_path(asked, text, number);
    }
    put(asked, text, b" over");
    put_offers(asked, text);
    put(asked, text, b"\n");
}

/// `crowd COUNT`: a report of so many links, from `\L001` on.
pub fn crowd(asked: &mut Exchange, text: &mut Vec<u8>) {
    let links = number(asked);
    put(asked, text, b"acpiroute 1\n");
    put_links(asked, text, links);
    put_gives(asked, text, links);
    put(asked, text, b"busiest 2\n");
    put_bound(asked, text, links);
}
