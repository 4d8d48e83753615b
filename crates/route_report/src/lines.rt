//! The lines of a report, put behind a text.
ghost use Rattle.std.specs.Prelude.{◌≡◌, ◌<◌, ◌^◌, All, ◌++◌, ◌∷◌, [], Some, OnOk, map, option_map, option_to_list};
ghost use Rattle.std.specs.Prelude.{codes, decimal};
ghost use Rattle.route_check.specs.Claims.{interrupts_of_bound};
ghost use Rattle.route_report.specs.Lines.{spaced, line_text, text_of_lines};
ghost use Rattle.route_report.specs.Reports.{after_state};
ghost use Rattle.route_report.specs.Readable.{spared_devices, unread_devices};
ghost use Rattle.route_report.specs.Printing.{mode_word, form_word, polarity_word, pin_word, heading_words, mode_words};
ghost use Rattle.route_report.specs.Printing.{io_apic_words, override_words, source_words, sci_words, avoid_words};
ghost use Rattle.route_report.specs.Printing.{spared_words, unread_words, rule_words, option_lines, now_words};
ghost use Rattle.route_report.specs.Printing.{link_words, wired_words, route_words, pin_words, give_words};
ghost use Rattle.route_report.specs.Printing.{busiest_words, path_words, set_of_bound, bound_words, outcome_words};
ghost use Rattle.route_report.specs.Printing.{set_words, state_words, after_words};

use crate::put;
use crate::report::{
    After, AfterLine, IoApicLine, LinkLine, OptionLines, OverrideLine, PinLine, PinName, PinRoute,
    Rule, SetLine, SetOutcome, SparedLine, UnreadLine,
};
use acpi_resources::{Form, Polarity};
use aml_path::Path;
use ar_tables::Mode;
use route_check::Bound;
use std::alloc::{AllocError, Global};

/// What one line of a report says.
pub(crate) trait Line {
    ghost use Rattle.std.specs.Prelude.{ℕ, List, ◌≡◌, ◌++◌, OnOk};
    ghost use Rattle.route_report.specs.Lines.{line_text};

    /// The words of the line.
    ghost words: { Self → List (List ℕ) };

    /// The numbers of what is claimed have 32 bits.
    ghost Small: { Self → Type 0 };

    /// Puts the line behind a text.
    fn put(&self, alloc: Global, text: &mut Vec<u8>) -> Result<(), AllocError>
        ensures text { OnOk result (text.new.items ≡ text.old.items ++ line_text (words self.now)) }
        ensures small { OnOk result (Small self.now) };
}

/// Puts lines behind a text, one after the other.
pub(crate) fn put_all<L: Line>(
    alloc: Global,
    text: &mut Vec<u8>,
    lines: &[L],
) -> Result<(), AllocError>
    ensures text { OnOk result (text.new.items ≡ text.old.items ++ text_of_lines (map L.words lines.now)) }
    ensures small { OnOk result (All L.Small lines.now) }
{
    for line in lines {
        line.put(alloc, text)?;
    }
    Ok(())
}

/// `acpiroute 2`, or `acpiroute 3` where options add lines
pub(crate) fn put_heading(
    text: &mut Vec<u8>,
    options: &Option<OptionLines>,
) -> Result<(), AllocError>
    ensures { OnOk result (text.new.items ≡ text.old.items ++ line_text (heading_words options.now)) }
{
    match options {
        None => text.extend_from_slice(b"acpiroute 2\n"),
        Some(_) => text.extend_from_slice(b"acpiroute 3\n"),
    }
}

fn mode_word(mode: Mode) -> &'static [u8]
    ensures { result.now ≡ mode_word mode }
{
    match mode {
        Mode::Apic => b"apic",
        Mode::Pic => b"pic",
    }
}

/// `mode apic` or `mode pic`
pub(crate) fn put_mode(text: &mut Vec<u8>, mode: Mode) -> Result<(), AllocError>
    ensures { OnOk result (text.new.items ≡ text.old.items ++ line_text (mode_words mode)) }
{
    text.extend_from_slice(b"mode")?;
    put::word(text, mode_word(mode))?;
    put::end(text)
}

/// `ioapic I at A base G`
impl Line for IoApicLine {
    ghost words = { io_apic_words };

    ghost Small = { λ _. Unit {0} };

    fn put(&self, alloc: Global, text: &mut Vec<u8>) -> Result<(), AllocError> {
        text.extend_from_slice(b"ioapic")?;
        put::number(text, u32::from(self.id))?;
        text.extend_from_slice(b" at")?;
        put::address(alloc, text, self.address)?;
        text.extend_from_slice(b" base")?;
        put::number(text, self.gsi_base)?;
        put::end(text)
    }
}

/// `override S to G flags F`
impl Line for OverrideLine {
    ghost words = { override_words };

    ghost Small = { λ _. Unit {0} };

    fn put(&self, alloc: Global, text: &mut Vec<u8>) -> Result<(), AllocError> {
        text.extend_from_slice(b"override")?;
        put::number(text, u32::from(self.source))?;
        text.extend_from_slice(b" to")?;
        put::number(text, self.gsi)?;
        text.extend_from_slice(b" flags")?;
        put::flags(alloc, text, self.flags)?;
        put::end(text)
    }
}

/// The interrupt that the System Control Interrupt is wired to; `none` where there is none.
fn put_source(text: &mut Vec<u8>, sci: Option<u32>) -> Result<(), AllocError>
    ensures text { OnOk result (text.new.items ≡ text.old.items ++ spaced (source_words sci)) }
    ensures small { All (λ n. n < 2 ^ 32) (option_to_list sci) }
{
    match sci {
        Some(interrupt) => put::number(text, interrupt),
        None => put::word(text, b"none"),
    }
}

/// `sci N` or `sci none`
#[tactic(auto, using(crate::proofs::Putting::putting))]
pub(crate) fn put_sci(text: &mut Vec<u8>, sci: Option<u32>) -> Result<(), AllocError>
    ensures text { OnOk result (text.new.items ≡ text.old.items ++ line_text (sci_words sci)) }
    ensures small { All (λ n. n < 2 ^ 32) (option_to_list sci) }
{
    text.extend_from_slice(b"sci")?;
    put_source(text, sci)?;
    put::end(text)
}

/// `avoid N..`, or `avoid -`
#[tactic(auto, using(crate::proofs::Putting::putting))]
pub(crate) fn put_avoid(text: &mut Vec<u8>, avoid: &[u32]) -> Result<(), AllocError>
    ensures text { OnOk result (text.new.items ≡ text.old.items ++ line_text (avoid_words avoid.now)) }
    ensures small { All (λ n. n < 2 ^ 32) avoid.now }
{
    text.extend_from_slice(b"avoid")?;
    put::some_numbers(text, avoid)?;
    put::end(text)
}

/// `spared D N..`
impl Line for SparedLine {
    ghost words = { spared_words };

    ghost Small = { λ s. All (λ n. n < 2 ^ 32) s.interrupts };

    #[tactic(auto, using(crate::proofs::Putting::putting))]
    fn put(&self, alloc: Global, text: &mut Vec<u8>) -> Result<(), AllocError> {
        text.extend_from_slice(b"spared")?;
        put::path(alloc, text, &self.device)?;
        put::numbers(text, &self.interrupts)?;
        put::end(text)
    }
}

/// `unread D R`
impl Line for UnreadLine {
    ghost words = { unread_words };

    ghost Small = { λ u. u.refusal < 2 ^ 32 };

    fn put(&self, alloc: Global, text: &mut Vec<u8>) -> Result<(), AllocError> {
        text.extend_from_slice(b"unread")?;
        put::path(alloc, text, &self.device)?;
        put::number(text, u32::from(self.refusal))?;
        put::end(text)
    }
}

/// `first` or `spread`
fn put_rule(text: &mut Vec<u8>, rule: Rule) -> Result<(), AllocError>
    ensures { OnOk result (text.new.items ≡ text.old.items ++ line_text (rule_words rule)) }
{
    match rule {
        Rule::First => text.extend_from_slice(b"first\n"),
        Rule::Spread => text.extend_from_slice(b"spread\n"),
    }
}

/// `spared D N..` and `unread D R`, one for each such device, and the rule of the choice.
fn put_each_option(
    alloc: Global,
    text: &mut Vec<u8>,
    options: &OptionLines,
) -> Result<(), AllocError>
    ensures text { OnOk result (text.new.items ≡ text.old.items ++ text_of_lines (option_lines (Some options.now))) }
    ensures spared { OnOk result (All (λ s. All (λ n. n < 2 ^ 32) s.interrupts) options.now.spared) }
    ensures unread { OnOk result (All (λ u. u.refusal < 2 ^ 32) options.now.unread) }
{
    put_all(alloc, text, &options.spared)?;
    put_all(alloc, text, &options.unread)?;
    put_rule(text, options.rule)?;
    Ok(())
}

/// The lines of version 3 alone, where there are any, but for those for a kernel.
pub(crate) fn put_options(
    alloc: Global,
    text: &mut Vec<u8>,
    options: &Option<OptionLines>,
) -> Result<(), AllocError>
    ensures text { OnOk result (text.new.items ≡ text.old.items ++ text_of_lines (option_lines options.now)) }
    ensures spared { OnOk result (All (λ s. All (λ n. n < 2 ^ 32) s.interrupts) (spared_devices options.now)) }
    ensures unread { OnOk result (All (λ u. u.refusal < 2 ^ 32) (unread_devices options.now)) }
{
    match options {
        Some(options) => put_each_option(alloc, text, options),
        None => Ok(()),
    }
}

/// `wired N C`
impl Line for (u32, u32) {
    ghost words = { wired_words };

    ghost Small = { λ w. (w.0 < 2 ^ 32) × (w.1 < 2 ^ 32) };

    fn put(&self, alloc: Global, text: &mut Vec<u8>) -> Result<(), AllocError> {
        text.extend_from_slice(b"wired")?;
        put::number(text, self.0)?;
        put::number(text, self.1)?;
        put::end(text)
    }
}

fn form_word(form: Form) -> &'static [u8]
    ensures { result.now ≡ form_word form }
{
    match form {
        Form::Small => b"small",
        Form::Extended => b"extended",
    }
}

pub(crate) fn polarity_word(polarity: Polarity) -> &'static [u8]
    ensures { result.now ≡ polarity_word polarity }
{
    match polarity {
        Polarity::Low => b"low",
        Polarity::High => b"high",
    }
}

/// `N.. now V`
fn put_offers(text: &mut Vec<u8>, offers: &[u32], now: &Option<Vec<u32>>) -> Result<(), AllocError>
    ensures small { All (λ n. n < 2 ^ 32) offers.now }
    ensures text { OnOk result (text.new.items ≡ text.old.items ++
        spaced (map decimal offers.now ++ codes "now" ∷ now_words (option_map (λ v. v.items) now.now))) }
{
    put::numbers(text, offers)?;
    text.extend_from_slice(b" now")?;
    put::current(text, now)?;
    Ok(())
}

/// `link P small low offers N.. now V`
impl Line for LinkLine {
    ghost words = { link_words };

    ghost Small = { λ l. All (λ n. n < 2 ^ 32) l.offers };

    #[tactic(auto, using(crate::proofs::Putting::putting))]
    fn put(&self, alloc: Global, text: &mut Vec<u8>) -> Result<(), AllocError> {
        text.extend_from_slice(b"link")?;
        put::path(alloc, text, &self.path)?;
        put::word(text, form_word(self.form))?;
        put::word(text, polarity_word(self.polarity))?;
        text.extend_from_slice(b" offers")?;
        put_offers(text, &self.offers, &self.now)?;
        put::end(text)
    }
}

fn pin_word(pin: PinName) -> &'static [u8]
    ensures { result.now ≡ pin_word pin }
{
    match pin {
        PinName::A => b"A",
        PinName::B => b"B",
        PinName::C => b"C",
        PinName::D => b"D",
    }
}

/// Where a pin leads.
fn put_route(alloc: Global, text: &mut Vec<u8>, route: &PinRoute) -> Result<(), AllocError>
    ensures { OnOk result (text.new.items ≡ text.old.items ++ spaced (route_words route.now)) }
{
    match route {
        PinRoute::Link(interrupt, link) => {
            put::number(text, *interrupt)?;
            put::path(alloc, text, link)
        }
        PinRoute::Wired(interrupt) => {
            put::number(text, *interrupt)?;
            text.extend_from_slice(b" wired")
        }
        PinRoute::Absent(link) => {
            text.extend_from_slice(b" absent")?;
            put::path(alloc, text, link)
        }
    }
}

/// `pin D n X N P`, `pin D n X N wired`, `pin D n X absent P`
impl Line for PinLine {
    ghost words = { pin_words };

    ghost Small = { λ _. Unit {0} };

    #[tactic(auto, using(crate::proofs::Putting::putting))]
    fn put(&self, alloc: Global, text: &mut Vec<u8>) -> Result<(), AllocError> {
        text.extend_from_slice(b"pin")?;
        put::path(alloc, text, &self.device)?;
        put::number(text, u32::from(self.number))?;
        put::word(text, pin_word(self.pin))?;
        put_route(alloc, text, &self.route)?;
        put::end(text)
    }
}

/// `give P N`
impl Line for (Path, u32) {
    ghost words = { give_words };

    ghost Small = { λ g. g.1 < 2 ^ 32 };

    fn put(&self, alloc: Global, text: &mut Vec<u8>) -> Result<(), AllocError> {
        text.extend_from_slice(b"give")?;
        put::path(alloc, text, &self.0)?;
        put::number(text, self.1)?;
        put::end(text)
    }
}

/// `busiest K`
pub(crate) fn put_busiest(text: &mut Vec<u8>, busiest: u32) -> Result<(), AllocError>
    ensures text { OnOk result (text.new.items ≡ text.old.items ++ line_text (busiest_words busiest)) }
    ensures small { busiest < 2 ^ 32 }
{
    text.extend_from_slice(b"busiest")?;
    put::number(text, busiest)?;
    put::end(text)
}

/// `P.. over N..`
fn put_set(
    alloc: Global,
    text: &mut Vec<u8>,
    links: &[Path],
    interrupts: &[u32],
) -> Result<(), AllocError>
    ensures small { All (λ n. n < 2 ^ 32) interrupts.now }
    ensures text { OnOk result (text.new.items ≡ text.old.items ++
        spaced (path_words links.now ++ codes "over" ∷ map decimal interrupts.now)) }
{
    put::some_paths(alloc, text, links)?;
    text.extend_from_slice(b" over")?;
    put::numbers(text, interrupts)?;
    Ok(())
}

/// `none`, or `P.. over N..`
fn put_set_of_bound(
    alloc: Global,
    text: &mut Vec<u8>,
    bound: &Option<Bound>,
) -> Result<(), AllocError>
    ensures text { OnOk result (text.new.items ≡ text.old.items ++ spaced (set_of_bound bound.now)) }
    ensures small { OnOk result (All (λ n. n < 2 ^ 32) (interrupts_of_bound bound.now)) }
{
    match bound {
        Some(set) => put_set(alloc, text, &set.links, &set.interrupts),
        None => text.extend_from_slice(b" none"),
    }
}

/// `bound none` or `bound P.. over N..`
#[tactic(auto, using(crate::proofs::Putting::putting))]
pub(crate) fn put_bound(
    alloc: Global,
    text: &mut Vec<u8>,
    bound: &Option<Bound>,
) -> Result<(), AllocError>
    ensures text { OnOk result (text.new.items ≡ text.old.items ++ line_text (bound_words bound.now)) }
    ensures small { OnOk result (All (λ n. n < 2 ^ 32) (interrupts_of_bound bound.now)) }
{
    text.extend_from_slice(b"bound")?;
    put_set_of_bound(alloc, text, bound)?;
    put::end(text)
}

/// What came of setting a link.
fn put_outcome(text: &mut Vec<u8>, outcome: SetOutcome) -> Result<(), AllocError>
    ensures { OnOk result (text.new.items ≡ text.old.items ++ spaced (outcome_words outcome)) }
{
    match outcome {
        SetOutcome::Done => text.extend_from_slice(b" ok"),
        SetOutcome::NoSetting => text.extend_from_slice(b" none"),
        SetOutcome::Refused(number) => put_refused(text, number),
    }
}

/// `refused R`
pub(crate) fn put_refused(text: &mut Vec<u8>, number: u8) -> Result<(), AllocError>
    ensures { OnOk result (text.new.items ≡ text.old.items ++ spaced (codes "refused" ∷ decimal number ∷ [])) }
{
    text.extend_from_slice(b" refused")?;
    put::number(text, u32::from(number))
}

/// `set P ok`, `set P none`, `set P refused R`
impl Line for SetLine {
    ghost words = { set_words };

    ghost Small = { λ _. Unit {0} };

    #[tactic(auto, using(crate::proofs::Putting::putting))]
    fn put(&self, alloc: Global, text: &mut Vec<u8>) -> Result<(), AllocError> {
        text.extend_from_slice(b"set")?;
        put::path(alloc, text, &self.path)?;
        put_outcome(text, self.outcome)?;
        put::end(text)
    }
}

/// What a link is set to after the choice.
fn put_state(text: &mut Vec<u8>, state: &After) -> Result<(), AllocError>
    ensures { OnOk result (text.new.items ≡ text.old.items ++ spaced (state_words (after_state state.now))) }
{
    match state {
        After::Now(now) => put::current(text, now),
        After::Refused(number) => put_refused(text, *number),
    }
}

/// `after P V`, `after P refused R`
impl Line for AfterLine {
    ghost words = { after_words };

    ghost Small = { λ _. Unit {0} };

    #[tactic(auto, using(crate::proofs::Putting::putting))]
    fn put(&self, alloc: Global, text: &mut Vec<u8>) -> Result<(), AllocError> {
        text.extend_from_slice(b"after")?;
        put::path(alloc, text, &self.path)?;
        put_state(text, &self.state)?;
        put::end(text)
    }
}
