//! The names that stand before any table is loaded.
ghost use Rattle.std.specs.Prelude.{◌≡◌, ◌⊎◌, ◌∷◌, [], ℕ, List, Some, Ok, codes};
ghost use Rattle.std.specs.FinMap.{get};
ghost use Rattle.ar_space.specs.declared.integer_width.IntegerWidth.{IntegerWidth};
ghost use Rattle.aml_path.specs.declared.segment.Seg.{Seg};
ghost use Rattle.aml_arities.specs.Arities.{arity_at};
ghost use Rattle.aml_objects.specs.declared.entry.Entry.{Entry};
ghost use Rattle.aml_objects.specs.declared.entry.NamedObject.{NamedObject};
ghost use Rattle.aml_objects.specs.declared.object.Object.TheVariants as object;
ghost use Rattle.aml_world.specs.state.State.{State};
ghost use Rattle.aml_world.specs.state.Predefined.{fresh_as, predefined};
ghost use Rattle.aml_world.specs.declared.state.settings.EvaluationSettings.{EvaluationSettings};
ghost use Rattle.aml_laws.specs.PredefinedNames.{IsPredefined, StandsAtRoot, IsRoot, IsPathOfPredefined};

/// Before any table is loaded the scopes \_GPE, \_PR_, \_SB_, \_SI_ and \_TZ_ stand at the root, the mutex \_GL_, which
/// nobody has acquired, \_OS_, which holds the string "Microsoft Windows NT", \_REV, which holds 2, and the control
/// method \_OSI (ACPI 6.5, 5.3.1 and 5.7). Of the numbers of arguments that names take while a table is read the world
/// keeps 1 for \_OSI, as its flags tell, and 0 for the others; that the first table is read with these
/// `a_table_is_read_with_what_was_told_before_it` says. So they stand in each new world, whatever its settings. A
/// revision of 1, and \_OSI without an argument, are refused by this. That nothing else stands
/// `nothing_else_stands_before_any_table` says.
pub fn predefined_names_stand<S>()
    ensures { (settings : EvaluationSettings) (width : IntegerWidth) (osi : List (List ℕ)) (space : S) →
        (w : State S) × ((predefined (fresh_as settings width osi space) ≡ (Ok tt, w)) ×
        (w.objects ≡ object.String (codes "Microsoft Windows NT") ∷ []) ×
        ((text : List ℕ) (o : NamedObject) (count : ℕ) → IsPredefined 0 text o count →
        StandsAtRoot w text o count)) }
{}

/// Before any table is loaded nothing stands but the root, which is a scope, and the names of which
/// `predefined_names_stand` tells. No other path takes a number of arguments, and no frame stands. So a table may
/// declare any other name. A name too many is refused by this, and so is one that takes arguments before it stands.
pub fn nothing_else_stands_before_any_table<S>()
    ensures names { (settings : EvaluationSettings) (width : IntegerWidth) (osi : List (List ℕ)) (space : S)
        (w : State S) → predefined (fresh_as settings width osi space) ≡ (Ok tt, w) → (path : List Seg) (e : Entry) →
        get w.names.map path ≡ Some e → IsRoot path e.object ⊎ IsPathOfPredefined path }
    ensures counts { (settings : EvaluationSettings) (width : IntegerWidth) (osi : List (List ℕ)) (space : S)
        (w : State S) → predefined (fresh_as settings width osi space) ≡ (Ok tt, w) → (path : List Seg) (count : ℕ) →
        arity_at w.arities path ≡ Some count → IsPathOfPredefined path }
    ensures frames { (settings : EvaluationSettings) (width : IntegerWidth) (osi : List (List ℕ)) (space : S)
        (w : State S) → predefined (fresh_as settings width osi space) ≡ (Ok tt, w) → w.frames ≡ [] }
{}
