//! Terms that are read.
ghost use Rattle.std.specs.Prelude.{◌≡◌, ℕ, List, Bool, Ok};
ghost use Rattle.aml_path.specs.declared.segment.Seg.{Seg};
ghost use Rattle.aml_arities.specs.declared.arities.Arity.{Arity};
ghost use Rattle.aml_grammar.specs.Tree.{Tree};
ghost use Rattle.aml_grammar.specs.Shape.{trees_of};
ghost use Rattle.aml_grammar.specs.Grammar.{Reads, reading_within};
ghost use Rattle.aml_laws.specs.Plain.{AreBytes, PlainTrees};

/// The strings and byte lists of terms that are read of bytes are bytes too: numbers below 256.
#[tactic(auto, using(crate::proofs::ReadTermsHoldBytes::read_terms_plain, crate::proofs::ReadTermsHoldBytes::read_within_plain))]
pub fn terms_of_bytes_hold_bytes()
    ensures plain { (bytes : List ℕ) (scope : List Seg) (body : Bool) (arities : List Arity) (ts : List Tree) →
        AreBytes bytes → Reads bytes scope body arities ts → PlainTrees (trees_of ts) }
    ensures within { (levels : ℕ) (bytes : List ℕ) (scope : List Seg) (body : Bool) (arities : List Arity)
        (ts : List Tree) → AreBytes bytes → reading_within levels bytes scope body arities ≡ Ok ts →
        PlainTrees (trees_of ts) }
{}
