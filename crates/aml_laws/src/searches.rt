//! The search of a name, and the path for which it stands.
ghost use Rattle.std.specs.Prelude.{◌≡◌, ◌<◌, ◌++◌, ◌∷◌, [], ℕ, List, length, take, Ok, Err, Some, None};
ghost use Rattle.std.specs.FinMap.{get};
ghost use Rattle.ar_space.specs.declared.refusal.Refusal.TheVariants.{Namespace};
ghost use Rattle.ar_space.specs.declared.refusal.Refusal.TheVariants as refusal;
ghost use Rattle.ar_space.specs.declared.refusal.NameFault.TheVariants.{BadName, AboveRoot};
ghost use Rattle.ar_space.specs.declared.refusal.NamespaceFault.TheVariants.{NotFound};
ghost use Rattle.ar_space.specs.Outcome.{Outcome};
ghost use Rattle.aml_path.specs.declared.segment.Seg.{Seg};
ghost use Rattle.aml_path.specs.Paths.{Name, resolved};
ghost use Rattle.aml_objects.specs.declared.entry.Entry.{Entry};
ghost use Rattle.aml_namespace.specs.Namespace.{Map};
ghost use Rattle.aml_namespace.specs.Search.{Found, found};
ghost use Rattle.aml_laws.specs.NamesFound.{IsNearest, StandsNowhere, LeadsTo};
ghost use Rattle.aml_laws.specs.NamesWritten.{from_parents, single, StandsFor};

/// A name of one segment and without a prefix is searched for: it finds what stands below the longest front of the
/// scope below which it stands, and is refused as `NotFound` where it stands below none, the root's own names among
/// them. An alias leads to what stands at its path, in one step. A search that begins one level above the scope, that
/// ends before the root, that takes the farthest, or that follows an alias twice, is refused by this.
#[tactic(auto, using(crate::proofs::NamesWritten::a_single_segment))]
pub fn a_searched_name_finds_the_nearest()
    ensures nearest { (names : Map) (scope : List Seg) (s : Seg) (k : ℕ) (entry : Entry) (r : Outcome Found) →
        IsNearest names scope (s ∷ []) k entry → LeadsTo names (take k scope ++ s ∷ []) entry r →
        found names scope (single s) ≡ r }
    ensures nowhere { (names : Map) (scope : List Seg) (s : Seg) → StandsNowhere names scope (s ∷ []) →
        found names scope (single s) ≡ Err (Namespace NotFound) }
{}

/// A name with a prefix or of more segments than one stands for one path (`StandsFor`): it finds what stands there,
/// an alias's target in one step, and nothing else. More `^` than the scope has segments lead above the root, and a
/// name without a prefix and without a segment stands for nothing: both are refused. A search above the scope for
/// such a name and a `\` that begins at the scope are refused by this.
#[tactic(auto, using(crate::proofs::NamesWritten::a_path))]
pub fn any_other_name_stands_at_one_path()
    ensures stands { (names : Map) (scope : List Seg) (name : Name) (path : List Seg) (entry : Entry)
        (r : Outcome Found) → StandsFor scope name path → get names path ≡ Some entry → LeadsTo names path entry r →
        found names scope name ≡ r }
    ensures empty { (names : Map) (scope : List Seg) (name : Name) (path : List Seg) → StandsFor scope name path →
        get names path ≡ None → found names scope name ≡ Err (Namespace NotFound) }
    ensures above { (names : Map) (scope segments : List Seg) (count : ℕ) → length scope < count →
        found names scope (from_parents count segments) ≡ Err (refusal.Name AboveRoot) }
    ensures null { (names : Map) (scope : List Seg) →
        found names scope (from_parents 0 []) ≡ Err (refusal.Name BadName) }
{}

/// A name is declared at one path, without a search: at that of its segments below the root behind a `\`, below what
/// the `^` leave of the scope, or else below the scope, of however many segments it is. More `^` than the scope has
/// segments and a name without a prefix and without a segment are refused. One `^` that leads to the root from
/// wherever it stands is refused by this.
#[tactic(auto, using(crate::proofs::NamesWritten::a_name_is_declared_at_one_path))]
pub fn a_name_is_declared_at_one_path()
    ensures path { (scope : List Seg) (name : Name) (path : List Seg) → StandsFor scope name path →
        resolved name scope ≡ Ok path }
    ensures one { (scope : List Seg) (s : Seg) → resolved (single s) scope ≡ Ok (scope ++ s ∷ []) }
    ensures above { (scope segments : List Seg) (count : ℕ) → length scope < count →
        resolved (from_parents count segments) scope ≡ Err (refusal.Name AboveRoot) }
    ensures null { (scope : List Seg) → resolved (from_parents 0 []) scope ≡ Err (refusal.Name BadName) }
{}
