//! Whole lists of terms, gone over without trees.
ghost use Rattle.std.specs.Prelude.{◌≡◌, ◌++◌};
ghost use Rattle.ar_space.specs.Outcome.{Answers, seen};
ghost use Rattle.aml_grammar.specs.declared.context.Position.TheVariants as positions;
ghost use Rattle.aml_grammar.specs.Grammar.{term_list, by_arities, items, term_at, outermost, beginning};
ghost use Rattle.aml_grammar.specs.Grammar.{term_list_within, levels_allowed, within, refusal_within, fault_within};
ghost use Rattle.aml_scan.specs.Scanned.{noted};

use crate::before::Before;
use crate::reader::Reader;
use crate::terms::items;
use aml_arities::{ArgumentCounts, Arities};
use aml_grammar::{Context, Mark, Position};
use aml_path::Path;
use ar_space::{EvaluationFault, Refusal, Result, TermFault};
use std::alloc::Global;
use std::marker::Brand;

/// How many terms may be one inside another, the outermost counted.
const MAX_LEVELS: usize = 64;

/// What going over a list of terms leaves.
#[derive(Debug, Drop)]
pub struct Noted {
    /// The calls that have arguments, in the order in which they begin.
    pub marks: Vec<Mark>,
    /// The names that the list declares or an External of it names, with the arguments that they take. A body adds
    /// none.
    pub added: Arities,
}

/// Goes over a list of terms: of a table after its header, or, where `body` is true, of the body of a control method
/// (TermList of ACPI 6.5, 20.2.5). It marks the calls, and notes the names that the list declares. It makes no trees,
/// and takes memory for names, paths and marks alone.
///
/// Names stand in `scope`, and `counts` says how many arguments a name takes; outside a body, names that the list
/// declares itself count too, from where they stand on. The first fault from left to right is refused:
///
/// - `BadName`: bytes that are no name where one must stand, or a declaration of a name without a segment;
/// - `AboveRoot`: a name with more `^` than its scope has parents, where reading resolves it;
/// - `BadOpcode`, `BadPkgLength`, `Truncated`, `TooDeep` or `NotInBody`, with the offset of the fault in `bytes`.
#[tactic(auto, unfolding(aml_grammar::specs::Grammar::term_list))]
pub fn scan<C: ArgumentCounts>(
    alloc: Global,
    bytes: &[u8],
    scope: &Path,
    body: bool,
    counts: &C,
) -> Result<Noted>
    ensures { Answers (seen (λ n. (n.marks.items, C.counts counts.now ++ n.added)) result)
        (noted (term_list by_arities bytes.now scope.now body (C.counts counts.now))) }
{
    scan_behind::<C, Brand>(alloc, MAX_LEVELS, bytes, scope, body, counts)
}

/// The same, where terms may be one inside another within `levels` levels, the outermost counted; more than 64 are 64.
/// A term that is deeper than fewer than 64 levels allow is refused as `DepthSetting`, in place of `TooDeep`.
///
/// Going over a list takes stack for each level, so that fewer levels need less of it.
#[tactic(auto, using(crate::proofs::Within::scanning), unfolding(aml_grammar::specs::Grammar::term_list_within))]
pub fn scan_within<C: ArgumentCounts>(
    alloc: Global,
    levels: usize,
    bytes: &[u8],
    scope: &Path,
    body: bool,
    counts: &C,
) -> Result<Noted>
    ensures { Answers (seen (λ n. (n.marks.items, C.counts counts.now ++ n.added)) result)
        (within levels (noted (term_list_within levels by_arities bytes.now scope.now body (C.counts counts.now)))) }
{
    let allowed = levels_allowed(levels);
    match scan_behind::<C, Brand>(alloc, allowed, bytes, scope, body, counts) {
        Ok(noted) => Ok(noted),
        Err(refusal) => Err(refusal_within(levels, refusal)),
    }
}

/// A setting allows fewer levels, and never more.
fn levels_allowed(levels: usize) -> usize
    ensures { result ≡ levels_allowed levels }
{
    if levels < MAX_LEVELS {
        levels
    } else {
        MAX_LEVELS
    }
}

/// A refusal where so many levels are allowed.
fn refusal_within(levels: usize, refusal: Refusal) -> Refusal
    ensures { result ≡ refusal_within levels refusal }
{
    match refusal {
        Refusal::Term(fault, offset) => fault_within(levels < MAX_LEVELS, fault, offset),
        _ => refusal,
    }
}

/// A fault of a term where fewer levels are allowed than there may be, or not.
fn fault_within(fewer: bool, fault: TermFault, offset: usize) -> Refusal
    ensures { result ≡ fault_within fewer fault offset }
{
    match fault {
        TermFault::TooDeep if fewer => Refusal::Evaluation(EvaluationFault::DepthSetting),
        _ => Refusal::Term(fault, offset),
    }
}

/// Goes over a list within so many levels. `B` gives clauses a name for the counts from before.
#[tactic(auto, using(crate::proofs::Scans::noting))]
fn scan_behind<C: ArgumentCounts, B: Before>(
    alloc: Global,
    levels: usize,
    bytes: &[u8],
    scope: &Path,
    body: bool,
    counts: &C,
) -> Result<Noted>
    requires { C.counts counts.now ≡ B.before }
    ensures { Answers (seen (λ n. (n.marks.items, B.before ++ n.added)) result) (noted (items (term_at by_arities
        levels) positions.ListItem scope.now (outermost body) (beginning bytes.now B.before))) }
{
    let context = Context {
        body,
        in_loop: false,
        item: None,
    };
    let mut reader = Reader::<C, B>::new(alloc, bytes, counts);
    items(&mut reader, levels, Position::ListItem, scope, context)?;
    let (marks, added) = reader.into_noted();
    Ok(Noted { marks, added })
}
