//! The lines for a kernel, put behind a text: how interrupts are triggered, and the buses of routing tables.
ghost use Rattle.std.specs.Prelude.{◌≡◌, ◌<◌, ◌^◌, All, ◌++◌, ◌∷◌, [], Some, OnOk, codes, decimal};
ghost use Rattle.route_report.specs.Lines.{spaced, line_text, text_of_lines};
ghost use Rattle.route_report.specs.Printing.{trigger_word, how_words, triggered_words, trigger_words};
ghost use Rattle.route_report.specs.Printing.{bus_state_words, bus_words, kernel_lines};
ghost use Rattle.route_report.specs.Readable.{IsSmallSource, IsSmallBus, triggers_told, buses_told};

use crate::lines::{Line, polarity_word, put_all, put_refused};
use crate::put;
use crate::report::{BusLine, BusState, InterruptSource, OptionLines, Trigger, TriggerLine};
use acpi_resources::Polarity;
use std::alloc::{AllocError, Global};

fn trigger_word(trigger: Trigger) -> &'static [u8]
    ensures { result.now ≡ trigger_word trigger }
{
    match trigger {
        Trigger::Level => b"level",
        Trigger::Edge => b"edge",
    }
}

/// How an interrupt is triggered.
fn put_how(text: &mut Vec<u8>, trigger: Trigger, polarity: Polarity) -> Result<(), AllocError>
    ensures { OnOk result (text.new.items ≡ text.old.items ++ spaced (how_words trigger polarity)) }
{
    put::word(text, trigger_word(trigger))?;
    put::word(text, polarity_word(polarity))
}

/// What has an interrupt.
fn put_source(alloc: Global, text: &mut Vec<u8>, source: &InterruptSource) -> Result<(), AllocError>
    ensures text { OnOk result (text.new.items ≡ text.old.items ++ spaced (triggered_words source.now)) }
    ensures small { OnOk result (IsSmallSource source.now) }
{
    match source {
        InterruptSource::Link(path) => {
            text.extend_from_slice(b" link")?;
            put::path(alloc, text, path)
        }
        InterruptSource::Wired(interrupt) => {
            text.extend_from_slice(b" wired")?;
            put::number(text, *interrupt)
        }
        InterruptSource::Sci(interrupt) => {
            text.extend_from_slice(b" sci")?;
            put::number(text, *interrupt)
        }
    }
}

/// `trigger link P level high`, `trigger wired N level high`, `trigger sci N level high`
impl Line for TriggerLine {
    ghost words = { trigger_words };

    ghost Small = { λ t. IsSmallSource t.source };

    #[tactic(auto, using(crate::proofs::Putting::putting))]
    fn put(&self, alloc: Global, text: &mut Vec<u8>) -> Result<(), AllocError> {
        text.extend_from_slice(b"trigger")?;
        put_source(alloc, text, &self.source)?;
        put_how(text, self.trigger, self.polarity)?;
        put::end(text)
    }
}

/// The segment group and the bus, or the number of the refusal.
fn put_bus(text: &mut Vec<u8>, state: BusState) -> Result<(), AllocError>
    ensures text { OnOk result (text.new.items ≡ text.old.items ++ spaced (bus_state_words state)) }
    ensures small { OnOk result (IsSmallBus state) }
{
    match state {
        BusState::Known { segment, bus } => {
            put::number(text, u32::from(segment))?;
            put::number(text, u32::from(bus))
        }
        BusState::Refused(number) => put_refused(text, number),
    }
}

/// `bus D S B`, `bus D refused R`
impl Line for BusLine {
    ghost words = { bus_words };

    ghost Small = { λ b. IsSmallBus b.state };

    #[tactic(auto, using(crate::proofs::Putting::putting))]
    fn put(&self, alloc: Global, text: &mut Vec<u8>) -> Result<(), AllocError> {
        text.extend_from_slice(b"bus")?;
        put::path(alloc, text, &self.device)?;
        put_bus(text, self.state)?;
        put::end(text)
    }
}

/// `trigger` and `bus`, one line after the other.
fn put_each(alloc: Global, text: &mut Vec<u8>, options: &OptionLines) -> Result<(), AllocError>
    ensures text { OnOk result (text.new.items ≡ text.old.items ++ text_of_lines (kernel_lines (Some options.now))) }
    ensures triggers { OnOk result (All (λ t. IsSmallSource t.source) options.now.triggers) }
    ensures buses { OnOk result (All (λ b. IsSmallBus b.state) options.now.buses) }
{
    put_all(alloc, text, &options.triggers)?;
    put_all(alloc, text, &options.buses)?;
    Ok(())
}

/// The lines for a kernel, where there are any.
pub(crate) fn put_kernel(
    alloc: Global,
    text: &mut Vec<u8>,
    options: &Option<OptionLines>,
) -> Result<(), AllocError>
    ensures text { OnOk result (text.new.items ≡ text.old.items ++ text_of_lines (kernel_lines options.now)) }
    ensures triggers { OnOk result (All (λ t. IsSmallSource t.source) (triggers_told options.now)) }
    ensures buses { OnOk result (All (λ b. IsSmallBus b.state) (buses_told options.now)) }
{
    match options {
        Some(options) => put_each(alloc, text, options),
        None => Ok(()),
    }
}
