//! All lines of the machine text.
ghost use Rattle.std.specs.Prelude.{◌≡◌, ◌∷◌, ◌<◌, length};
ghost use Rattle.std.specs.Str.Lines.{lines, strip_carriage_return};
ghost use Rattle.ar_space.specs.Outcome.{Answers, seen};
ghost use Rattle.machine_text.specs.MachineText.{lines_read, finished, machine_text};

use crate::draft::Draft;
use crate::line::line;
use crate::osi_texts::OsiTexts;
use crate::words::bad_line;
use ar_space::{Result, Sparse};
use std::alloc::Global;
use text_words::cut_at;

/// What a machine text says: the address of the RSDP, the bytes of the machine, whose memory is the image of its
/// tables, and the texts that `_OSI` knows.
#[derive(Drop)]
pub struct MachineText {
    pub rsdp: u64,
    pub space: Sparse,
    pub osi: OsiTexts,
}

/// The first line of a text that isn't empty, and what follows it.
#[tactic(auto, using(crate::proofs::Reading::first_of_lines, crate::proofs::Reading::only_line))]
fn first_line(text: &[u8]) -> (&[u8], &[u8])
    requires { 0 < length text.now }
    ensures lines { lines text.now ≡ result.0.now ∷ lines result.1.now }
    ensures shorter { length result.1.now < length text.now }
{
    match cut_at(b'\n', text) {
        (line, Some(rest)) => (without_return(line), rest),
        (_, None) => (text, b""),
    }
}

/// Dropped where it stands before a line feed.
const RETURN: u8 = b'\r';

fn without_return(line: &[u8]) -> &[u8]
    ensures { result.now ≡ strip_carriage_return line.now }
{
    if !line.is_empty() && line[line.len() - 1] == RETURN {
        &line[..line.len() - 1]
    } else {
        line
    }
}

/// All lines of a text, into the draft.
fn lines_read(alloc: Global, text: &[u8], draft: &mut Draft) -> Result<()>
    ensures { Answers (seen (λ _. draft.new) result) (lines_read 1 (lines text.now) draft.old) }
{
    let mut buffer = Vec::new(alloc);
    let mut n = 1;
    let mut rest = text;
    while !rest.is_empty() {
        let (first, after) = first_line(rest);
        line(alloc, n, first, draft, &mut buffer)?;
        rest = after;
        n += 1;
    }
    Ok(())
}

/// What all lines said.
#[tactic(auto, using(ar_space::proofs::Outcomes::answering))]
fn finished(draft: Draft) -> Result<MachineText>
    ensures { Answers result (finished draft) }
{
    match draft.rsdp {
        Some(rsdp) => Ok(MachineText {
            rsdp,
            space: draft.space,
            osi: draft.osi,
        }),
        None => Err(bad_line(0)),
    }
}

/// What a machine text says.
///
/// Lines end with LF, which the last may lack; a CR before it is dropped. Words are parted by single blanks. An empty
/// line and a line that begins with `#` say nothing. Numbers are 1 to 16 hexadecimal digits, of either case. The lines:
///
/// - `rsdp A`: the address of the RSDP; exactly once.
/// - `mem A bytes..`: bytes of memory from the address A on. Each word is an even number of digits, at least two.
/// - `io P bytes..`: bytes of I/O ports from the port P on, to FFFF.
/// - `pci S B D F R bytes..`: bytes of PCI configuration space from a register on: segment group, bus, device (to 1F),
///   function (to 7), register (to FFF).
/// - `osi text`: a text that `_OSI` knows, the rest of the line, 1 to 255 bytes of ASCII, on at most 64 lines.
///
/// A later byte replaces an earlier one at the same place. `MachineLine` with the number of the line, from 1, is the
/// first line that is none of these or whose bytes run past the last place; with 0 where all lines are good and none is
/// `rsdp`. `OutOfMemory` where memory runs out.
#[tactic(auto, using(ar_space::proofs::Outcomes::answering), unfolding(crate::specs::MachineText::machine_text))]
pub fn read_machine(alloc: Global, text: &[u8]) -> Result<MachineText>
    ensures { Answers result (machine_text text.now) }
{
    let mut draft = Draft::new(alloc);
    lines_read(alloc, text, &mut draft)?;
    finished(draft)
}
