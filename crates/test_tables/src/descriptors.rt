//! Questions of resource descriptors: what a link device may be set to, and what it is set to.

use crate::answers::{given, say_numbers};
use crate::row::Row;
use acpi_resources::{Form, InterruptNumbers, Offer, Polarity, current, possible, setting};
use test_rows::Exchange;
use test_words::refuse;

/// An interrupt's number.
fn interrupt(asked: &mut Exchange) -> u32 {
    asked.number(0xFFFF_FFFF) as u32
}

/// `possible BYTES`: the offer of possible resources; `possible text`: that of the text.
fn offered(asked: &mut Exchange, offer: &mut Option<Offer>, text: &[u8]) {
    let is_text = asked.takes("text");
    let bytes = asked.bytes();
    let outcome = possible(asked.alloc(), if is_text { text } else { bytes.as_slice() });
    *offer = given(asked, outcome);
}

/// `setting N`: the bytes that set a link device to an interrupt of the offer.
fn setting_to(asked: &mut Exchange, offer: &Offer) {
    let number = interrupt(asked);
    if !offer.contains(number) {
        asked.misunderstand();
        return;
    }
    match setting(asked.alloc(), offer, number) {
        Ok(bytes) => asked.say_bytes(bytes.as_slice()),
        Err(refusal) => refuse(asked, refusal),
    }
}

/// Which descriptor an offer is.
fn form(offer: &Offer) -> &'static str {
    match offer.form() {
        Form::Small => "small",
        Form::Extended => "extended",
    }
}

/// At which level the interrupts of an offer are signaled.
fn polarity(offer: &Offer) -> &'static str {
    match offer.polarity() {
        Polarity::Low => "low",
        Polarity::High => "high",
    }
}

/// A question of an offer.
#[derive(Clone, Copy)]
pub enum OfferAsk {
    Numbers,
    Form,
    Polarity,
    Flags,
    Contains,
    Setting,
}

/// `contains N`: whether an offer has an interrupt.
fn contains(asked: &mut Exchange, offer: &Offer) {
    let number = interrupt(asked);
    asked.say_whether(offer.contains(number));
}

/// Answers a question of an offer.
fn of_offer(asked: &mut Exchange, offer: &Offer, ask: OfferAsk) {
    match ask {
        OfferAsk::Numbers => say_numbers(asked, offer.numbers()),
        OfferAsk::Form => asked.say(form(offer)),
        OfferAsk::Polarity => asked.say(polarity(offer)),
        OfferAsk::Flags => asked.say_bytes(&[offer.flags()]),
        OfferAsk::Contains => contains(asked, offer),
        OfferAsk::Setting => setting_to(asked, offer),
    }
}

/// Answers a question of the offer that was read.
pub fn answer_of_offer(asked: &mut Exchange, offer: &Option<Offer>, ask: OfferAsk) {
    match offer {
        Some(offer) => of_offer(asked, offer, ask),
        None => asked.misunderstand(),
    }
}

/// `current BYTES`: the interrupts that a link device is set to.
fn set_to(asked: &mut Exchange, set: &mut Option<InterruptNumbers>) {
    let bytes = asked.bytes();
    let outcome = current(asked.alloc(), bytes.as_slice());
    *set = given(asked, outcome);
    if let Some(numbers) = set {
        say_numbers(asked, numbers.as_slice());
    }
}

/// `set-count`: how many interrupts a link device is set to.
fn set_count(asked: &mut Exchange, set: &Option<InterruptNumbers>) {
    match set {
        Some(set) => asked.say_number(set.as_slice().len() as u64),
        None => asked.misunderstand(),
    }
}

/// `set-taken`: the interrupts that the list gives up when it is taken apart.
fn set_taken(asked: &mut Exchange, set: &mut Option<InterruptNumbers>) {
    match set.take() {
        Some(set) => say_numbers(asked, set.into_vec().as_slice()),
        None => asked.misunderstand(),
    }
}

/// A question of resource descriptors.
#[derive(Clone, Copy)]
pub enum Ask {
    Possible,
    Current,
    SetCount,
    SetTaken,
}

/// Answers a question of resource descriptors.
pub fn answer(asked: &mut Exchange, row: &mut Row, ask: Ask) {
    match ask {
        Ask::Possible => offered(asked, &mut row.offer, row.text.as_slice()),
        Ask::Current => set_to(asked, &mut row.set),
        Ask::SetCount => set_count(asked, &row.set),
        Ask::SetTaken => set_taken(asked, &mut row.set),
    }
}
