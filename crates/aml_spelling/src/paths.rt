//! How paths are written as text, and which texts are read as a path (ACPI 6.5, 5.3 and 19.2.2).
ghost use Rattle.std.specs.Prelude.{◌≡◌, ◌↔◌, ◌++◌, ◌∷◌, ℕ, List, [], codes, Ok, Err};
ghost use Rattle.ar_space.specs.declared.refusal.NameFault.TheVariants.{BadName};
ghost use Rattle.ar_space.specs.declared.refusal.Refusal.TheVariants as refusals;
ghost use Rattle.aml_path.specs.Text.{text_of, path_of_text};
ghost use Rattle.aml_path.specs.declared.segment.Seg.{Seg};
ghost use Rattle.aml_spelling.specs.PathTexts.{IsPathText};

/// The root is written as `\`, and a name below it as `\` and the four characters of its segment. A name below any
/// other is written as that one, a dot, and its four characters, as `\_SB_.LNKA`. Segments without the `_` at their
/// end, and another character between them, are refused by this.
#[tactic(auto, using(crate::proofs::PathTexts::a_path_is_written_with_all_its_characters))]
pub fn a_path_is_written_with_all_its_characters()
    ensures root { text_of [] ≡ codes "\\" }
    ensures first { (s : Seg) → text_of (s ∷ []) ≡ codes "\\" ++ s.bytes }
    ensures below { (s : Seg) (path : List Seg) (t : Seg) →
        text_of ((s ∷ path) ++ t ∷ []) ≡ text_of (s ∷ path) ++ (codes "." ++ t.bytes) }
    ensures example { (s t : Seg) → s.bytes ≡ codes "_SB_" → t.bytes ≡ codes "LNKA" →
        text_of (s ∷ t ∷ []) ≡ codes "\\_SB_.LNKA" }
{}

/// A text is read as a path exactly if it is `\` and the segments of the path with dots between them, where each may be
/// written without `_` at its end, as in ASL: `\_SB.LNKA` is `\_SB_.LNKA`. Any other text is refused as `BadName`. A
/// segment that is filled with another character, and a text without `\` that is read from the root on, are refused by
/// this.
#[tactic(auto, using(crate::proofs::PathTexts::a_text_is_read_as_the_path_that_it_writes))]
pub fn a_text_is_read_as_the_path_that_it_writes()
    ensures path { (text : List ℕ) (path : List Seg) → (path_of_text text ≡ Ok path) ↔ IsPathText text path }
    ensures other { (text : List ℕ) → ((path : List Seg) → IsPathText text path → ⊥) →
        path_of_text text ≡ Err (refusals.Name BadName) }
{}
