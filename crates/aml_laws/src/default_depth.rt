//! The default depth of calls and terms, and what a setting of fewer levels refuses.
ghost use Rattle.std.specs.Prelude.{◌≡◌, ◌↔◌, ◌<◌, ◌≤◌, ℕ, List, [], Bool, false, Ok, Err};
ghost use Rattle.ar_space.specs.declared.integer_width.IntegerWidth.{IntegerWidth};
ghost use Rattle.ar_space.specs.declared.refusal.Refusal.TheVariants.{Term};
ghost use Rattle.ar_space.specs.declared.refusal.TermFault.TheVariants.{TooDeep};
ghost use Rattle.ar_space.specs.Accesses.{Accesses};
ghost use Rattle.aml_path.specs.declared.segment.Seg.{Seg};
ghost use Rattle.aml_arities.specs.declared.arities.Arity.{Arity};
ghost use Rattle.aml_grammar.specs.Grammar.{by_arities, reading_within, table_reading_within, term_list_within};
ghost use Rattle.aml_objects.specs.declared.value.Value.{Value};
ghost use Rattle.aml_world.specs.state.State.{State};
ghost use Rattle.aml_world.specs.state.Given.{Given};
ghost use Rattle.aml_world.specs.state.Predefined.{fresh, fresh_as, predefined};
ghost use Rattle.aml_world.specs.state.Settings.{deepest, settings_of};
ghost use Rattle.aml_world.specs.declared.state.profile.Profile.{Profile};
ghost use Rattle.aml_world.specs.declared.state.profile.Profile.TheVariants.{Core};
ghost use Rattle.aml_meaning.specs.Tasks.{Task};
ghost use Rattle.aml_meaning.specs.Meaning.{meaning};
ghost use Rattle.aml_meaning.specs.Calling.{loaded, evaluated, answered};
ghost use Rattle.aml_laws.specs.Deepened.{IsDepthSetting};

/// The default settings of either profile allow 32 nested calls and 64 nested levels of terms. A world that is made
/// without settings is made as one with those of the core profile, from the same width, texts and register space; it is
/// in the core profile and allows as many. A default of fewer calls or levels, a wide profile that nobody chose, and
/// texts of `_OSI` that are left out are refused by this.
pub fn the_default_is_the_core_profile_in_full_depth<S>()
    ensures settings { (profile : Profile) → ((settings_of profile).profile ≡ profile) ×
        (((settings_of profile).nesting.calls ≡ 32) × ((settings_of profile).nesting.levels ≡ 64)) }
    ensures deepest { (deepest.calls ≡ 32) × (deepest.levels ≡ 64) }
    ensures fresh { (width : IntegerWidth) (osi : List (List ℕ)) (space : S) → fresh width osi space ≡ fresh_as
        (record { profile = Core; nesting = record { calls = 32; levels = 64 } }) width osi space }
    ensures world { (width : IntegerWidth) (osi : List (List ℕ)) (space : S) (w : State S) →
        predefined (fresh width osi space) ≡ (Ok tt, w) →
        (w.profile ≡ Core) × ((w.nesting.calls ≡ 32) × (w.nesting.levels ≡ 64)) }
{}

/// Where 32 calls and 64 levels are allowed, as by default, or more, no evaluation is refused for the setting
/// (`DepthSetting`): what is too deep then is deeper than it may ever be, and refused as that. A setting that refuses
/// one call or one level too early is refused by this, as is a limit that is told as a setting.
#[tactic(auto, using(crate::proofs::DefaultDepth::no_depth_is_refused_for_the_default_setting))]
pub fn no_depth_is_refused_for_the_default_setting<S>()
    ensures terms { (accesses : Accesses S) (t : Task) (s : State S × ℕ) → 32 ≤ s.0.nesting.calls →
        64 ≤ s.0.nesting.levels → IsDepthSetting (meaning accesses t s).0 → ⊥ }
    ensures tables { (accesses : Accesses S) (bytes : List ℕ) (steps : ℕ) (w : State S) → 32 ≤ w.nesting.calls →
        64 ≤ w.nesting.levels → IsDepthSetting (loaded accesses bytes steps w).0 → ⊥ }
    ensures values { (accesses : Accesses S) (p : List Seg) (arguments : List Value) (steps : ℕ) (w : State S) →
        32 ≤ w.nesting.calls → 64 ≤ w.nesting.levels → IsDepthSetting (evaluated accesses p arguments steps w).0 → ⊥ }
    ensures answers { (accesses : Accesses S) (p : List Seg) (arguments : List Given) (steps : ℕ) (w : State S) →
        32 ≤ w.nesting.calls → 64 ≤ w.nesting.levels → IsDepthSetting (answered accesses p arguments steps w).0 → ⊥ }
{}

/// A list or a table is refused for the setting exactly if it allows fewer than 64 levels and what is read within so
/// many ends at a term that is too deep. Which fault reading ends at isn't said here, but by the law
/// `refused_within_levels_exactly_if_faulty` of `aml_spelling`. A setting that tells this fault as any other, and one
/// that tells another fault as this, are refused by this.
#[tactic(auto, using(crate::proofs::TooDeepForSettings::levels_are_refused_exactly_if_a_term_is_deeper))]
pub fn levels_are_refused_exactly_if_a_term_is_deeper()
    ensures list { (levels : ℕ) (bs : List ℕ) (scope : List Seg) (body : Bool) (known : List Arity) →
        IsDepthSetting (reading_within levels bs scope body known) ↔ ((levels < 64) × (offset : ℕ) ×
        ((term_list_within levels by_arities bs scope body known).0 ≡ Err (Term TooDeep offset))) }
    ensures table { (levels : ℕ) (bs : List ℕ) (known : List Arity) →
        IsDepthSetting (table_reading_within levels bs known) ↔ ((levels < 64) × (offset : ℕ) ×
        ((term_list_within levels by_arities bs [] false known).0 ≡ Err (Term TooDeep offset))) }
{}
