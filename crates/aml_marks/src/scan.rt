//! Scans of whole lists: what they refuse, and the marks by which their bytes are read from then on.
ghost use Rattle.std.specs.Prelude.{◌≡◌, ◌++◌, [], false, OnErr};
ghost use Rattle.ar_space.specs.Outcome.{Answers, seen};
ghost use Rattle.aml_grammar.specs.Grammar.{term_list, by_arities, reading, table_reading};
ghost use Rattle.aml_grammar.specs.Grammar.{term_list_within, within, reading_within, table_reading_within};
ghost use Rattle.aml_marks.specs.Marked.{trees_by};
ghost use Rattle.aml_scan.specs.Scanned.{marked, noted};

use crate::marks::Marks;
use aml_arities::{ArgumentCounts, Arities};
use aml_path::Path;
use aml_scan::{scan, scan_within};
use ar_space::Result;
use std::alloc::Global;

/// Scans a list of terms: of a table after its header, or, where `body` is true, of the body of a control method.
/// From its bytes and the marks that are answered, the terms are read that the grammar gives. It makes no trees, and
/// takes memory for names, paths and marks alone.
///
/// Names stand in `scope`, and `counts` says how many arguments a name takes; outside a body, names that the list
/// declares itself count too, from where they stand on. The first fault from left to right is refused:
///
/// - `BadName`: bytes that are no name where one must stand, or a declaration of a name without a segment;
/// - `AboveRoot`: a name with more `^` than its scope has parents, where reading resolves it;
/// - `BadOpcode`, `BadPkgLength`, `Truncated`, `TooDeep` or `NotInBody`, with the offset of the fault in `bytes`.
#[tactic(auto, using(crate::proofs::Scans::scanning))]
pub fn scan_list<C: ArgumentCounts>(
    alloc: Global,
    bytes: &[u8],
    scope: &Path,
    body: bool,
    counts: &C,
) -> Result<Marks>
    ensures marks { Answers result (marked (term_list by_arities bytes.now scope.now body (C.counts counts.now))) }
    ensures terms { Answers (seen (λ m. trees_by m bytes.now) result)
        (reading bytes.now scope.now body (C.counts counts.now)) }
{
    let noted = scan(alloc, bytes, scope, body, counts)?;
    Marks::new(alloc, noted.marks)
}

/// As `scan_list`, where terms may be one inside another within `levels` levels, the outermost counted; more than 64
/// are 64. A term that is deeper than fewer than 64 levels allow is refused as `DepthSetting`, in place of `TooDeep`.
#[tactic(auto, using(crate::proofs::Within::scanning))]
pub fn scan_list_within<C: ArgumentCounts>(
    alloc: Global,
    levels: usize,
    bytes: &[u8],
    scope: &Path,
    body: bool,
    counts: &C,
) -> Result<Marks>
    ensures marks { Answers result (within levels
        (marked (term_list_within levels by_arities bytes.now scope.now body (C.counts counts.now)))) }
    ensures terms { Answers (seen (λ m. trees_by m bytes.now) result)
        (reading_within levels bytes.now scope.now body (C.counts counts.now)) }
{
    let noted = scan_within(alloc, levels, bytes, scope, body, counts)?;
    Marks::new(alloc, noted.marks)
}

/// What a scan of a table leaves.
#[derive(Debug, Drop)]
pub struct ScannedTable {
    /// The marks of the calls.
    pub marks: Marks,
    /// The names that the table declares or an External of it names, with the arguments that they take.
    pub added: Arities,
}

/// Scans a table after its header, whose names stand at the root, and leaves the argument counts of names that it
/// declares to the caller. It is refused as `scan_list` refuses it.
#[tactic(auto, using(crate::proofs::Scans::scanning))]
pub fn scan_table_apart(alloc: Global, bytes: &[u8], arities: &Arities) -> Result<ScannedTable>
    ensures { Answers (seen (λ t. (t.marks, arities.now ++ t.added)) result)
        (noted (term_list by_arities bytes.now [] false arities.now)) }
{
    let root = Path::root(alloc);
    let noted = scan(alloc, bytes, &root, false, arities)?;
    let marks = Marks::new(alloc, noted.marks)?;
    Ok(ScannedTable {
        marks,
        added: noted.added,
    })
}

/// Scans a table after its header, whose names stand at the root; the argument counts of names that it declares are
/// appended to `arities`. It is refused as `scan_list` refuses it, and then no name takes other arguments.
#[tactic(auto, using(crate::proofs::Scans::scanning))]
pub fn scan_table(alloc: Global, bytes: &[u8], arities: &mut Arities) -> Result<Marks>
    ensures marks { Answers (seen (λ m. (m, arities.new)) result)
        (noted (term_list by_arities bytes.now [] false arities.old)) }
    ensures table { Answers (seen (λ m. (trees_by m bytes.now, arities.new)) result)
        (table_reading bytes.now arities.old) }
    ensures refused { OnErr result (arities.new ≡ arities.old) }
{
    let scanned = scan_table_apart(alloc, bytes, arities)?;
    arities.append(scanned.added)?;
    Ok(scanned.marks)
}

/// As `scan_table`, within so many levels, as `scan_list_within`.
#[tactic(auto, using(crate::proofs::Within::scanning))]
pub fn scan_table_within(
    alloc: Global,
    levels: usize,
    bytes: &[u8],
    arities: &mut Arities,
) -> Result<Marks>
    ensures marks { Answers (seen (λ m. (m, arities.new)) result)
        (within levels (noted (term_list_within levels by_arities bytes.now [] false arities.old))) }
    ensures table { Answers (seen (λ m. (trees_by m bytes.now, arities.new)) result)
        (table_reading_within levels bytes.now arities.old) }
    ensures refused { OnErr result (arities.new ≡ arities.old) }
{
    let root = Path::root(alloc);
    let noted = scan_within(alloc, levels, bytes, &root, false, arities)?;
    let marks = Marks::new(alloc, noted.marks)?;
    arities.append(noted.added)?;
    Ok(marks)
}
