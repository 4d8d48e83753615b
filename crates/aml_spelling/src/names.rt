//! Which bytes are a name segment, and where names are declared and lists are read (ACPI 6.5, 5.3 and 20.2.2).
ghost use Rattle.std.specs.Prelude.{◌≡◌, ℕ, suc, List, Option, Some, None, true, false, Ok, Err};
ghost use Rattle.ar_space.specs.declared.refusal.NameFault.TheVariants.{BadName};
ghost use Rattle.ar_space.specs.declared.refusal.Refusal.TheVariants as refusals;
ghost use Rattle.aml_grammar.specs.DeclaredNames.{begins_outside};
ghost use Rattle.aml_grammar.specs.Grammar.{scope_of};
ghost use Rattle.aml_path.specs.Paths.{Name};
ghost use Rattle.aml_path.specs.Segments.{seg_of};
ghost use Rattle.aml_path.specs.declared.name.Prefix.TheVariants.{Root, Parents};
ghost use Rattle.aml_path.specs.declared.segment.Seg.{Seg};
ghost use Rattle.aml_spelling.specs.NameSegments.{IsNameSegment};

/// A name segment has four bytes: the first is one of the letters `A` to `Z`, or `_`, and the three others are such
/// letters, `_`, or digits `0` to `9` (ACPI 6.5, 20.2.2). Each such four bytes are a segment; any other bytes are
/// refused as `BadName`. A segment without digits, one that begins with a digit, and lower-case letters are refused by
/// this.
pub fn a_name_segment_has_four_characters()
    ensures segment { (s : Seg) → IsNameSegment s.bytes }
    ensures each { (bytes : List ℕ) → IsNameSegment bytes → (s : Seg) × (seg_of bytes ≡ Ok s) × (s.bytes ≡ bytes) }
    ensures refused { (bytes : List ℕ) → (IsNameSegment bytes → ⊥) → seg_of bytes ≡ Err (refusals.Name BadName) }
{}

/// The list of a term that declares a name, or that gives the name of a scope, is read in the path of this name, and
/// any other list in the scope of its term (ACPI 6.5, 5.3). A name begins outside of its scope where it begins with `\`
/// or `^`: a body declares no such name, as `names_are_refused_exactly_if_faulty` has it. The list of a Device that is
/// read in the scope around it, and a body that declares names outside of its control method, are refused by this.
pub fn lists_are_read_and_names_declared_in_their_scope()
    ensures inner { (scope path : List Seg) → scope_of scope (Some path) ≡ path }
    ensures other { (scope : List Seg) → scope_of scope None ≡ scope }
    ensures root { (n : Name) → n.prefix ≡ Root → begins_outside n ≡ true }
    ensures above { (n : Name) (more : ℕ) → n.prefix ≡ Parents (suc more) → begins_outside n ≡ true }
    ensures within { (n : Name) → n.prefix ≡ Parents 0 → begins_outside n ≡ false }
{}
