//! Which names stand after an evaluation.
ghost use Rattle.std.specs.Prelude.{◌≡◌, ◌<◌, ℕ, List, [], ◌∷◌, ◌++◌, true, false, Ok, Some};
ghost use Rattle.std.specs.FinMap.{get};
ghost use Rattle.std.specs.declared.cmp.Ordering.TheVariants.{Less, Equal, Greater};
ghost use Rattle.ar_space.specs.Accesses.{Accesses};
ghost use Rattle.aml_path.specs.declared.segment.Seg.{Seg};
ghost use Rattle.aml_path.specs.Paths.{is_below, path_cmp};
ghost use Rattle.aml_path.specs.Segments.{seg_cmp};
ghost use Rattle.aml_grammar.specs.Tree.{Tree, Trees};
ghost use Rattle.aml_world.specs.state.State.{State};
ghost use Rattle.aml_meaning.specs.declared.flow.Flow.{Flow};
ghost use Rattle.aml_meaning.specs.declared.flow.Flow.TheVariants as flow;
ghost use Rattle.aml_meaning.specs.Tasks.{task, in_turn};
ghost use Rattle.aml_meaning.specs.Meaning.{meaning};
ghost use Rattle.aml_laws.specs.Becomes.{Becomes};
ghost use Rattle.aml_laws.specs.Outside.{Outside, Stands, is_open, number_at};
ghost use Rattle.aml_laws.specs.Declares.{Declares, IsItem};
ghost use Rattle.aml_laws.specs.PassedNotes.{PassesNothing};

/// A path is below another one exactly if it is that one with at least one segment behind it (ACPI 6.5, 5.3). So it
/// is not below itself, nor below a path with other segments; and each path but the root is below another one. A
/// namespace in which nothing is below a path is refused by this.
#[tactic(auto, using(crate::proofs::PathsBelow::longer_is_below, crate::proofs::PathsBelow::below_is_longer))]
pub fn a_path_is_below_its_shorter_fronts()
    ensures below { (path : List Seg) (segment : Seg) (rest : List Seg) →
        is_below path (path ++ segment ∷ rest) ≡ true }
    ensures no_other { (path q : List Seg) → is_below path q ≡ true →
        (segment : Seg) × (rest : List Seg) × (q ≡ path ++ segment ∷ rest) }
{}

/// Path order. Of two segments with the same characters in front of one that differs, the segment with the lower
/// character there comes first; segments with the same characters are equal. Of two paths with the same segments in
/// front of one that differs, the path whose segment comes first there comes first. A path comes before each longer
/// path that begins with it (the law `comes_before_those_below` of `aml_path`), and that one behind it. So the order of
/// any two paths is told: it is that in which names are walked, links are asked and the lines of a report stand. An
/// order by falling characters, or by the last character first, is refused by this.
#[tactic(auto, using(crate::proofs::NamesOrdered::same_characters, crate::proofs::NamesOrdered::earlier_segment_first, crate::proofs::NamesOrdered::later_segment_last, crate::proofs::NamesOrdered::longer_last, crate::proofs::NamesOrdered::same_paths))]
pub fn names_are_ordered_by_their_characters()
    ensures segments { (s t : Seg) (front behind after : List ℕ) (a b : ℕ) →
        s.bytes ≡ front ++ a ∷ behind → t.bytes ≡ front ++ b ∷ after → a < b →
        (seg_cmp s t ≡ Less) × (seg_cmp t s ≡ Greater) }
    ensures same_segments { (s t : Seg) → s.bytes ≡ t.bytes → seg_cmp s t ≡ Equal }
    ensures first { (front p q : List Seg) (s t : Seg) → seg_cmp s t ≡ Less →
        path_cmp (front ++ s ∷ p) (front ++ t ∷ q) ≡ Less }
    ensures second { (front p q : List Seg) (s t : Seg) → seg_cmp s t ≡ Greater →
        path_cmp (front ++ s ∷ p) (front ++ t ∷ q) ≡ Greater }
    ensures longer { (path : List Seg) (segment : Seg) (rest : List Seg) →
        path_cmp (path ++ segment ∷ rest) path ≡ Greater }
    ensures same_paths { (path : List Seg) → path_cmp path path ≡ Equal }
{}

/// A path is outside of control methods where at each path above it stands a name, and that of no control method. So
/// the root is, and each path one level below a name that is outside of control methods and is none itself.
#[tactic(auto, using(crate::proofs::OutsideOfMethods::outside_root, crate::proofs::OutsideOfMethods::outside_below))]
pub fn outside_of_control_methods<S>()
    ensures root { (w : State S) → Outside w [] }
    ensures below { (w : State S) (path : List Seg) (segment : Seg) → Outside w path →
        is_open (get w.names.map path) ≡ true → Outside w (path ++ segment ∷ []) }
{}

/// No evaluation removes a name that stands outside of control methods, or declares it anew, nor does it declare a
/// control method above one, however it ends. At the end of a call the names below its control method are removed.
#[tactic(auto, using(crate::proofs::NamesStay::outside_stays, crate::proofs::NamesStay::names_stay, crate::proofs::NamesStay::numbers_stay))]
pub fn names_stay<S>()
    ensures outside { (accesses : Accesses S) (w v : State S) (path : List Seg) → Becomes accesses w v →
        Outside w path → Outside v path }
    ensures stands { (accesses : Accesses S) (w v : State S) (path : List Seg) → Becomes accesses w v →
        Outside w path → Stands w path → Stands v path }
    ensures numbers { (accesses : Accesses S) (w v : State S) (path : List Seg) (number : ℕ) → Becomes accesses w v →
        Outside w path → number_at w path ≡ Some number → number_at v path ≡ Some number }
{}

/// A term that declares a name outside of control methods by one of its operands, and is not refused, leaves it at
/// the path that the operand stands for in its scope (the fields of a list, whose names its elements declare, aren't
/// meant); and a list that is evaluated to its end leaves there the names of all its terms whose paths were outside
/// of control methods when it began, unless something was passed over meanwhile, which the count tells. The list of a
/// device or another scope is evaluated so in the path of that scope.
#[tactic(auto, using(crate::proofs::DeclaredNamesStand::declared_names_stand))]
pub fn declared_names_stand<S>()
    ensures term { (accesses : Accesses S) (scope : List Seg) (depth : ℕ) (t : Tree) (path : List Seg)
        (s : State S × ℕ) (f : Flow) →
        Declares scope t path → Outside s.0 path → (meaning accesses (task scope depth t) s).0 ≡ Ok f →
        Stands (meaning accesses (task scope depth t) s).1.0 path }
    ensures list { (accesses : Accesses S) (scope : List Seg) (depth : ℕ) (t : Tree) (ts : Trees)
        (path : List Seg) (s : State S × ℕ) →
        IsItem t ts → Declares scope t path →
        PassesNothing depth s.0 (in_turn (meaning accesses) scope depth ts s).1.0 → Outside s.0 path →
        (in_turn (meaning accesses) scope depth ts s).0 ≡ Ok flow.Next →
        Stands (in_turn (meaning accesses) scope depth ts s).1.0 path }
{}
