//! What is read is spelled so.
ghost use Rattle.std.specs.Prelude.{◌≡◌, List, Bool, false, ℕ, Ok};
ghost use Rattle.aml_path.specs.declared.segment.Seg.{Seg};
ghost use Rattle.aml_arities.specs.declared.arities.Arity.{Arity};
ghost use Rattle.aml_grammar.specs.Tree.{Tree};
ghost use Rattle.aml_grammar.specs.Grammar.{table_reading, Reads};
ghost use Rattle.aml_scan.specs.Spelling.{IsSpelled};

/// What is read is spelled so: the bytes of a list or a table are the spellings of its terms, one after another, and
/// nothing else.
///
/// A term is spelled by its code, and then by each of its operands by its kind, in the order of the table of terms
/// (ACPI 6.5, 20.2). A package length and a name have several spellings, and any of them is read.
pub fn read_as_spelled()
    ensures list { (bs : List ℕ) (scope : List Seg) (body : Bool) (known : List Arity) (ts : List Tree) →
        Reads bs scope body known ts → IsSpelled body ts bs }
    ensures table { (bs : List ℕ) (known : List Arity) (ts : List Tree) (after : List Arity) →
        table_reading bs known ≡ Ok (ts, after) → IsSpelled false ts bs }
{}
