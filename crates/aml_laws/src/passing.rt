//! What the wide profile passes over at module level.
ghost use Rattle.std.specs.Prelude.{◌≡◌, ◌==◌, ◌<◌, ◌-◌, ◌^◌, ℕ, List, true, false, Err};
ghost use Rattle.std.specs.List.{list_any};
ghost use Rattle.ar_space.specs.Accesses.{Accesses};
ghost use Rattle.ar_space.specs.Numbers.{number_of};
ghost use Rattle.ar_space.specs.declared.integer_width.IntegerWidth.{IntegerWidth};
ghost use Rattle.ar_space.specs.declared.refusal.Refusal.{Refusal};
ghost use Rattle.aml_path.specs.declared.segment.Seg.{Seg};
ghost use Rattle.aml_grammar.specs.Tree.{Tree, Trees, tree};
ghost use Rattle.aml_objects.specs.declared.value.Value.{Value};
ghost use Rattle.aml_world.specs.declared.state.settings.EvaluationSettings.{EvaluationSettings};
ghost use Rattle.aml_world.specs.declared.state.profile.Profile.TheVariants.{Core, Wide};
ghost use Rattle.aml_world.specs.state.Given.{Given};
ghost use Rattle.aml_world.specs.state.PassedOver.{is_passable};
ghost use Rattle.aml_world.specs.state.Noting.{with_passed};
ghost use Rattle.aml_world.specs.state.Predefined.{fresh_as, predefined};
ghost use Rattle.aml_world.specs.state.State.{State};
ghost use Rattle.aml_meaning.specs.Calling.{answered, evaluated, loaded};
ghost use Rattle.aml_meaning.specs.Calls.{invoked};
ghost use Rattle.aml_meaning.specs.Meaning.{meaning};
ghost use Rattle.aml_meaning.specs.Tasks.{Task, task, module_level, in_turn};
ghost use Rattle.aml_laws.specs.Becomes.{Becomes};
ghost use Rattle.aml_laws.specs.PassedNotes.{KeepsTheFirst, with_one_more, GoesOn};
ghost use Rattle.aml_laws.specs.PassedNumbers.{passed_numbers};

/// The refusals that may be passed over are those with eleven numbers, whatever else they tell.
#[tactic(auto, using(crate::proofs::PassableRefusals::passed_by_number))]
pub fn what_may_be_passed_over_is_told_by_its_number()
    ensures numbers { (e : Refusal) → is_passable e ≡ list_any (λ n. n == number_of e) passed_numbers }
{}

/// Where an item of a list at module level is refused so in the wide profile, the list goes on with the next item, in
/// the world that the item left and with the steps that it left; and it is noted with the scope and the refusal. By any
/// other refusal, in the core profile, and in the body of a control method, the list is refused as its item is.
#[tactic(auto, using(crate::proofs::ListsGoOn::passed_list))]
pub fn a_list_goes_on_behind_an_item_that_is_passed_over<S>()
    ensures passed { (accesses : Accesses S) (scope : List Seg) (t : Tree) (ts : Trees) (s after : State S × ℕ)
        (e : Refusal) → s.0.profile ≡ Wide → is_passable e ≡ true →
        meaning accesses (task scope 0 t) s ≡ (Err e, after) →
        in_turn (meaning accesses) scope 0 (tree t ts) s ≡ in_turn (meaning accesses) scope 0 ts
        (with_passed scope e after.0, after.1) }
    ensures ended { (accesses : Accesses S) (scope : List Seg) (depth : ℕ) (t : Tree) (ts : Trees)
        (s after : State S × ℕ) (e : Refusal) → is_passable e ≡ false →
        meaning accesses (task scope depth t) s ≡ (Err e, after) →
        in_turn (meaning accesses) scope depth (tree t ts) s ≡ (Err e, after) }
    ensures in_core { (accesses : Accesses S) (scope : List Seg) (depth : ℕ) (t : Tree) (ts : Trees)
        (s after : State S × ℕ) (e : Refusal) → s.0.profile ≡ Core →
        meaning accesses (task scope depth t) s ≡ (Err e, after) →
        in_turn (meaning accesses) scope depth (tree t ts) s ≡ (Err e, after) }
    ensures in_body { (accesses : Accesses S) (scope : List Seg) (depth : ℕ) (t : Tree) (ts : Trees)
        (s after : State S × ℕ) (e : Refusal) → 0 < depth →
        meaning accesses (task scope depth t) s ≡ (Err e, after) →
        in_turn (meaning accesses) scope depth (tree t ts) s ≡ (Err e, after) }
{}

/// In the wide profile neither a list at module level nor a table is refused by what may be passed over.
#[tactic(auto, using(crate::proofs::ListsGoOn::list_ends_for_good, crate::proofs::TablesRefused::table_ends_for_good))]
pub fn no_list_is_refused_by_what_is_passed_over<S>()
    ensures lists { (accesses : Accesses S) (scope : List Seg) (ts : Trees) (s : State S × ℕ) (e : Refusal) →
        s.0.profile ≡ Wide → (in_turn (meaning accesses) scope 0 ts s).0 ≡ Err e → is_passable e ≡ false }
    ensures tables { (accesses : Accesses S) (bytes : List ℕ) (steps : ℕ) (w : State S) (e : Refusal) →
        w.profile ≡ Wide → (loaded accesses bytes steps w).0 ≡ Err e → is_passable e ≡ false }
{}

/// In the core profile nothing is passed over: no evaluation notes anything, however it ends.
#[tactic(auto, using(crate::proofs::NothingPassed::core_notes_nothing))]
pub fn the_core_profile_passes_nothing_over<S>()
    ensures unchanged { (accesses : Accesses S) (w v : State S) → Becomes accesses w v → w.profile ≡ Core →
        v.passed ≡ w.passed }
{}

/// In the bodies of control methods nothing is passed over, in either profile: a term, a list of terms and a call of a
/// control method note nothing where one is being called, nor does the value of an object or an answer, however it
/// ends. A list in a body that goes on behind a refusal is refused by this.
#[tactic(auto, using(crate::proofs::BodiesPassNothing::body_notes_nothing, crate::proofs::BodiesPassNothing::list_notes_nothing, crate::proofs::BodiesPassNothing::call_notes_nothing, crate::proofs::BodiesPassNothing::value_notes_nothing, crate::proofs::BodiesPassNothing::answer_notes_nothing))]
pub fn control_methods_pass_nothing_over<S>()
    ensures terms { (accesses : Accesses S) (t : Task) (s : State S × ℕ) → module_level t.depth ≡ false →
        (meaning accesses t s).1.0.passed ≡ s.0.passed }
    ensures lists { (accesses : Accesses S) (scope : List Seg) (depth : ℕ) (ts : Trees) (s : State S × ℕ) →
        module_level depth ≡ false → (in_turn (meaning accesses) scope depth ts s).1.0.passed ≡ s.0.passed }
    ensures calls { (accesses : Accesses S) (depth : ℕ) (p : List Seg) (body : List ℕ) (arguments : List Value)
        (s : State S × ℕ) → (invoked (meaning accesses) depth p body arguments s).1.0.passed ≡ s.0.passed }
    ensures values { (accesses : Accesses S) (p : List Seg) (arguments : List Value) (steps : ℕ) (w : State S) →
        (evaluated accesses p arguments steps w).1.passed ≡ w.passed }
    ensures answers { (accesses : Accesses S) (p : List Seg) (arguments : List Given) (steps : ℕ) (w : State S) →
        (answered accesses p arguments steps w).1.passed ≡ w.passed }
{}

/// What is passed over is counted, each once, up to 2^64 - 1; and the first 64 are kept, in order, each with its scope
/// and its refusal: a note adds one to the count, and stands behind those that are kept, where these are fewer than 64.
/// Nothing else of the world changes.
#[tactic(auto, using(crate::proofs::NotesKept::note_is_one_more, crate::proofs::NotesKept::note_of_too_many))]
pub fn what_is_passed_over_is_counted_one_by_one<S>()
    ensures noted { (scope : List Seg) (e : Refusal) (w : State S) → KeepsTheFirst w.passed →
        w.passed.count < 2 ^ 64 - 1 → with_passed scope e w ≡ with_one_more scope e w }
    ensures full { (scope : List Seg) (e : Refusal) (w : State S) → KeepsTheFirst w.passed →
        w.passed.count ≡ 2 ^ 64 - 1 → with_passed scope e w ≡ w }
{}

/// Of what was passed over so many are kept as were counted, or 64 where these are more: after whatever is evaluated
/// from the predefined names on, in either profile, of which none is counted. What is kept stays, in its order, and the
/// count never falls.
#[tactic(auto, using(crate::proofs::BodiesPassNothing::none_at_first, crate::proofs::NotesKept::the_first_that_are_passed_over_are_kept))]
pub fn the_first_that_are_passed_over_are_kept<S>()
    ensures goes_on { (accesses : Accesses S) (w v : State S) → Becomes accesses w v → GoesOn w.passed v.passed }
    ensures kept { (accesses : Accesses S) (w v : State S) → Becomes accesses w v → KeepsTheFirst w.passed →
        KeepsTheFirst v.passed }
    ensures always { (accesses : Accesses S) (settings : EvaluationSettings) (width : IntegerWidth) (osi : List (List ℕ))
        (space : S) (w : State S) → Becomes accesses (predefined (fresh_as settings width osi space)).1 w →
        KeepsTheFirst w.passed }
    ensures none { (settings : EvaluationSettings) (width : IntegerWidth) (osi : List (List ℕ)) (space : S) →
        (predefined (fresh_as settings width osi space)).1.passed.count ≡ 0 }
{}
