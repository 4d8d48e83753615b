//! Accesses in words.
use crate::places::say_place;
use ar_space::{Place, Width};
use space_trace::Access;
use test_rows::Exchange;

/// Answers where an access is, and how many bits it has.
fn say_register(asked: &mut Exchange, place: Place, width: Width) {
    say_place(asked, place);
    asked.say_number(u64::from(width.bits()));
}

/// Answers an access.
fn say_access(asked: &mut Exchange, access: Access) {
    match access {
        Access::Read(at, width) => {
            asked.push("read");
            say_register(asked, at, width);
        }
        Access::Write(at, width, value) => {
            asked.push("write");
            say_register(asked, at, width);
            asked.say_hexadecimal(value);
        }
    }
}

/// Answers accesses in their order, or `none`.
pub fn say_accesses(asked: &mut Exchange, made: &[Access]) {
    if made.is_empty() {
        asked.say("none");
    }
    for access in made {
        asked.separate(", ");
        say_access(asked, *access);
    }
}
