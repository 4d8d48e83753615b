//! A report as text.
ghost use Rattle.std.specs.Prelude.{◌≡◌, ◌<◌, ◌^◌, ◌++◌, All, OnOk, IfOk, Ok, option_to_list};
ghost use Rattle.route_check.specs.Claims.{interrupts_of_bound};
ghost use Rattle.ar_space.specs.Outcome.{Answers, seen};
ghost use Rattle.route_report.specs.Lines.{text_of_lines};
ghost use Rattle.route_report.specs.Printing.{found_lines, chosen_lines, text_of_report};
ghost use Rattle.route_report.specs.Reading.{claim_of_text};
ghost use Rattle.route_report.specs.Readable.{IsReadable, claim_of_report, spared_devices, unread_devices};
ghost use Rattle.route_report.specs.Readable.{IsSmallSource, IsSmallBus, triggers_told, buses_told};

use crate::kernel_lines::put_kernel;
use crate::lines::{
    put_all, put_avoid, put_bound, put_busiest, put_heading, put_mode, put_options, put_sci,
};
use crate::report::Report;
use aml_path::laws::text_is_read_back;
use ar_space::Result;
use std::alloc::{AllocError, Global};

/// The lines of what was found.
fn put_found(alloc: Global, text: &mut Vec<u8>, report: &Report) -> Result<(), AllocError>
    ensures text { OnOk result (text.new.items ≡ text.old.items ++ text_of_lines (found_lines report.now)) }
    ensures sci { OnOk result (All (λ n. n < 2 ^ 32) (option_to_list report.now.sci)) }
    ensures avoid { OnOk result (All (λ n. n < 2 ^ 32) report.now.avoid) }
    ensures spared { OnOk result (All (λ s. All (λ n. n < 2 ^ 32) s.interrupts) (spared_devices report.now.options)) }
    ensures unread { OnOk result (All (λ u. u.refusal < 2 ^ 32) (unread_devices report.now.options)) }
    ensures offers { OnOk result (All (λ l. All (λ n. n < 2 ^ 32) l.offers) report.now.links) }
    ensures wired { OnOk result (All (λ w. (w.0 < 2 ^ 32) × (w.1 < 2 ^ 32)) report.now.wired) }
{
    put_heading(text, &report.options)?;
    put_mode(text, report.mode)?;
    put_all(alloc, text, &report.io_apics)?;
    put_all(alloc, text, &report.overrides)?;
    put_sci(text, report.sci)?;
    put_avoid(text, &report.avoid)?;
    put_options(alloc, text, &report.options)?;
    put_all(alloc, text, &report.links)?;
    put_all(alloc, text, &report.wired)?;
    put_all(alloc, text, &report.pins)?;
    Ok(())
}

/// The lines of what was chosen.
fn put_chosen(alloc: Global, text: &mut Vec<u8>, report: &Report) -> Result<(), AllocError>
    ensures text { OnOk result (text.new.items ≡ text.old.items ++ text_of_lines (chosen_lines report.now)) }
    ensures gives { OnOk result (All (λ g. g.1 < 2 ^ 32) report.now.gives) }
    ensures busiest { OnOk result (report.now.busiest < 2 ^ 32) }
    ensures interrupts { OnOk result (All (λ n. n < 2 ^ 32) (interrupts_of_bound report.now.bound)) }
    ensures triggers { OnOk result (All (λ t. IsSmallSource t.source) (triggers_told report.now.options)) }
    ensures buses { OnOk result (All (λ b. IsSmallBus b.state) (buses_told report.now.options)) }
{
    put_all(alloc, text, &report.gives)?;
    put_busiest(text, report.busiest)?;
    put_bound(alloc, text, &report.bound)?;
    put_all(alloc, text, &report.sets)?;
    put_all(alloc, text, &report.afters)?;
    put_kernel(alloc, text, &report.options)?;
    Ok(())
}

/// The text of a report.
///
/// Its words are parted by single blanks, its lines end with LF, numbers are decimal. The lines, in this order:
///
/// - `acpiroute 2`: a report of version 2; `acpiroute 3` where the report has lines of options.
/// - `mode apic` or `mode pic`.
/// - `ioapic I at A base G` for each I/O APIC, A in eight hexadecimal digits.
/// - `override S to G flags F` for each interrupt source override, F in four hexadecimal digits.
/// - `sci N`, the interrupt that the System Control Interrupt is wired to, or `sci none`.
/// - `avoid N..`, the interrupts that no link is given, or `avoid -`.
/// - In version 3, `spared D N..` for each device whose interrupts no link is given, `unread D R` for each whose
/// interrupts couldn't be read, and `first` or `spread`, the rule of the choice.
/// - `link P small low offers N.. now V` for each present link: `small` or `extended`, `low` or `high`; the offers
/// are the whole offer, avoided interrupts among them; V is the numbers that it is set to, `-` for no number, `none`
/// without `_CRS`.
/// - `wired N C` for each interrupt with the number of pins that are wired to it.
/// - `pin D n X N P`, `pin D n X N wired` or `pin D n X absent P` for each pin: D has the routing table, n is the
/// device number, X is A to D, N the interrupt, P the link.
/// - `give P N` for each present link.
/// - `busiest K`.
/// - `bound none` or `bound P.. over N..`, `-` for no link.
/// - `set P ok`, `set P none` or `set P refused R` for each link that was to be set.
/// - `after P V` or `after P refused R` for each of these.
/// - For a kernel, `trigger link P level high` for each present link, `trigger wired N level high` for each interrupt
/// that pins are wired to, and `trigger sci N level high` for the System Control Interrupt, or `edge`, or `low`; and
/// `bus D S B` for each device with a routing table, S its segment group and B its bus, or `bus D refused R`.
///
/// `read` gives the report's own claim of this text, its lists in order, where it has at most 256 links, each with an
/// offer in ascending order, at most 4096 wired interrupts, the avoided interrupts in ascending order, each once, and
/// at least one interrupt of each device whose interrupts are spared. `OutOfMemory` where memory runs out.
///
/// ```
/// let report = acpi_configure::configure(alloc, &mut machine, true, &[])?;
/// let text = print(alloc, &report)?;
/// output.write_all(text.as_slice())?;
/// ```
pub fn print(alloc: Global, report: &Report) -> Result<Vec<u8>>
    ensures text { Answers (seen (λ v. v.items) result) (Ok (text_of_report report.now)) }
    ensures read_back { IfOk result (λ v. IsReadable report.now →
        claim_of_text v.items ≡ Ok (claim_of_report report.now)) }
{
    let mut text = Vec::new(alloc);
    put_found(alloc, &mut text, report)?;
    put_chosen(alloc, &mut text, report)?;
    // the law that reading the paths of this text rests on
    text_is_read_back();
    Ok(text)
}
