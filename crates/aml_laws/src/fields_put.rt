//! Where operation regions and fields may stand.
ghost use Rattle.std.specs.Prelude.{◌≡◌, ◌<◌, ◌+◌, ◌*◌, ℕ, suc, List, Ok};
ghost use Rattle.ar_space.specs.Accesses.{Accesses};
ghost use Rattle.ar_space.specs.Outcome.{Outcome, seen};
ghost use Rattle.ar_space.specs.declared.refusal.Refusal.{Refusal};
ghost use Rattle.aml_path.specs.declared.segment.Seg.{Seg};
ghost use Rattle.aml_path.specs.Paths.{Name, resolved};
ghost use Rattle.aml_grammar.specs.Tree.{Tree, Trees};
ghost use Rattle.aml_grammar.specs.declared.opcode.Opcode.{Opcode};
ghost use Rattle.aml_objects.specs.declared.entry.FieldSource.TheVariants as sources;
ghost use Rattle.aml_objects.specs.declared.entry.NamedObject.TheVariants as object;
ghost use Rattle.aml_objects.specs.declared.entry.OperationRegion.{OperationRegion};
ghost use Rattle.aml_objects.specs.declared.value.Value.{Value};
ghost use Rattle.aml_objects.specs.declared.value.Value.TheVariants as value;
ghost use Rattle.aml_world.specs.declared.state.profile.Profile.TheVariants as profiles;
ghost use Rattle.aml_world.specs.state.Readings.{integer_in};
ghost use Rattle.aml_world.specs.state.State.{State};
ghost use Rattle.aml_meaning.specs.declared.flow.Flow.TheVariants as flow;
ghost use Rattle.aml_meaning.specs.Meaning.{meaning};
ghost use Rattle.aml_meaning.specs.Tasks.{task};
ghost use Rattle.aml_laws.specs.BankDeclarations.{bank_field, Finds, FindsField};
ghost use Rattle.aml_laws.specs.BufferFieldTerms.{create, create_field, HasSize, HasBits};
ghost use Rattle.aml_laws.specs.DeclaredObjects.{IsFree, TakesNoName, with_name};
ghost use Rattle.aml_laws.specs.FieldsPut.{IsSized, PutsAll, TakesList, FindsNoRegion, FindsNoUnit};
ghost use Rattle.aml_laws.specs.ObjectTerms.{Passes};
ghost use Rattle.aml_laws.specs.OperatorTerms.{GivesValue, IsRefused};
ghost use Rattle.aml_laws.specs.RegionTerms.{operation_region, field, index_field};
ghost use Rattle.aml_laws.specs.TestTerms.{TwoValues};

/// The fields of a list are declared one after another, each where its name may stand (ACPI 6.5, 5.3 and 20.2.5.2). The
/// list is that of a Field or an IndexField, in the core profile where no Connection stands in it and in the wide
/// profile always, or in the wide profile that of a BankField. A name may stand at a path that is free, below a name
/// that stands; at module level not below a control method, but in a control method that is called also below it. The
/// first field whose path takes no name refuses the list as each declaration is refused: as `Exists` where a name
/// stands there, as `ObjectLimit` where no number is left, and else as `NotFound`. So does a name that stands for no
/// path, for example one that leads above the root. A field without a bit, or with more than 8,388,608, refuses the
/// list as `FieldLimit`, and so does an element that leaves no offset below 2^64 for the next one, a field once it is
/// declared. The fields in front stay, and nothing else changes. A Connection evaluates nothing, and the next field
/// begins where it would without it; its name, where it has one, has to find a buffer, or the list is refused there.
/// The law excludes a list that declares fields in a control method at module level, one that a control method can't
/// declare, one that the wide profile refuses for a Connection, one without a Connection that the core profile refuses,
/// and a field above the root that is declared below it.
pub fn fields_stand_where_names_may_stand<S>()
    ensures region { (accesses : Accesses S) (scope : List Seg) (depth flags : ℕ) (fields : Trees) (w : State S)
        (steps : ℕ) → TakesList w fields → (region : Name) (number : ℕ) (g : OperationRegion) →
        Finds w scope region number (object.OperationRegion g) → (r : Outcome (Unit {0})) (after : State S) →
        PutsAll scope depth (sources.Region number) flags fields w r after →
        meaning accesses (task scope depth (field region flags fields)) (w, suc steps) ≡
        (seen (λ done. flow.Next) r, (after, steps)) }
    ensures index { (accesses : Accesses S) (scope : List Seg) (depth flags : ℕ) (fields : Trees) (w : State S)
        (steps : ℕ) → TakesList w fields → (index behind : Name) (i d p q : ℕ) →
        FindsField w scope index i (sources.Region p) → FindsField w scope behind d (sources.Region q) →
        (r : Outcome (Unit {0})) (after : State S) → PutsAll scope depth (sources.Index i d) flags fields w r after →
        meaning accesses (task scope depth (index_field index behind flags fields)) (w, suc steps) ≡
        (seen (λ done. flow.Next) r, (after, steps)) }
    ensures bank { (accesses : Accesses S) (scope : List Seg) (depth flags : ℕ) (fields : Trees) (w : State S)
        (steps : ℕ) (region bank : Name) (value : Tree) (n : ℕ) (g : OperationRegion) (b q : ℕ) (v : Value)
        (number : ℕ) (between : State S × ℕ) → w.profile ≡ profiles.Wide →
        Finds w scope region n (object.OperationRegion g) → FindsField w scope bank b (sources.Region q) →
        GivesValue accesses scope depth value (w, steps) v between →
        integer_in v between.0 ≡ (Ok number, between.0) → (r : Outcome (Unit {0})) (after : State S) →
        PutsAll scope depth (sources.Bank n (record { field = b; value = number })) flags fields between.0 r after →
        meaning accesses (task scope depth (bank_field region bank value flags fields)) (w, suc steps) ≡
        (seen (λ done. flow.Next) r, (after, between.1)) }
{}

/// A Field asks for an operation region, and an IndexField for two field units of a region: the index first, and then
/// the data. Where the search for a name is refused, the term is refused so; where the name finds another object, or a
/// field of a bank or of an IndexField, it is refused as `WrongType`. No field is declared then. The law excludes a
/// Field whose name finds nothing and that lies in another region, an IndexField behind a field of a bank, and one that
/// looks for its data first.
pub fn a_list_of_fields_asks_for_what_it_lies_in<S>()
    ensures region { (accesses : Accesses S) (scope : List Seg) (depth flags : ℕ) (fields : Trees) (w : State S)
        (steps : ℕ) → TakesList w fields → (region : Name) (e : Refusal) → FindsNoRegion w scope region e →
        IsRefused accesses scope depth (field region flags fields) (w, suc steps) e (w, steps) }
    ensures index { (accesses : Accesses S) (scope : List Seg) (depth flags : ℕ) (fields : Trees) (w : State S)
        (steps : ℕ) → TakesList w fields → (index behind : Name) (e : Refusal) → FindsNoUnit w scope index e →
        IsRefused accesses scope depth (index_field index behind flags fields) (w, suc steps) e (w, steps) }
    ensures data { (accesses : Accesses S) (scope : List Seg) (depth flags : ℕ) (fields : Trees) (w : State S)
        (steps : ℕ) → TakesList w fields → (index behind : Name) (i p : ℕ) (e : Refusal) →
        FindsField w scope index i (sources.Region p) → FindsNoUnit w scope behind e →
        IsRefused accesses scope depth (index_field index behind flags fields) (w, suc steps) e (w, steps) }
{}

/// An OperationRegion is declared where its path is free, as its term says (`a_region_is_declared_as_its_term_says`),
/// and nothing else of the world changes. At a path that takes no name it is refused as each declaration is, once its
/// operands are evaluated, and so are CreateByteField, CreateField and their like. At module level a path below a
/// control method takes no name (ACPI 6.5, 5.3). The law excludes a region that is declared in a control method at
/// module level, and one that a control method can't declare.
pub fn regions_and_buffer_fields_stand_where_names_may_stand<S>()
    ensures stands { (accesses : Accesses S) (scope : List Seg) (depth : ℕ) (n : Name) (path : List Seg) →
        resolved n scope ≡ Ok path → (w : State S) (steps space : ℕ) (offset size : Tree)
        (between after : State S × ℕ) (v u : Value) (x y : ℕ) →
        GivesValue accesses scope depth offset (w, steps) v between →
        GivesValue accesses scope depth size between u after → integer_in v after.0 ≡ (Ok x, after.0) →
        integer_in u after.0 ≡ (Ok y, after.0) → space < 256 → IsFree depth after.0 path →
        Passes accesses scope depth (operation_region n space offset size) (w, suc steps) (
          with_name after.0 path (object.OperationRegion (record { space = space; offset = x; length = y })),
          after.1,
        ) }
    ensures refused { (accesses : Accesses S) (scope : List Seg) (depth : ℕ) (n : Name) (path : List Seg) →
        resolved n scope ≡ Ok path → (w : State S) (steps space : ℕ) (offset size : Tree)
        (between after : State S × ℕ) (v u : Value) (x y : ℕ) →
        GivesValue accesses scope depth offset (w, steps) v between →
        GivesValue accesses scope depth size between u after → integer_in v after.0 ≡ (Ok x, after.0) →
        integer_in u after.0 ≡ (Ok y, after.0) → (e : Refusal) → TakesNoName depth after.0 path e →
        IsRefused accesses scope depth (operation_region n space offset size) (w, suc steps) e after }
    ensures sized { (accesses : Accesses S) (scope : List Seg) (depth : ℕ) (n : Name) (path : List Seg) →
        resolved n scope ≡ Ok path → (w : State S) (steps o i : ℕ) (after : State S × ℕ) (e : Refusal) →
        TakesNoName depth after.0 path e → (op : Opcode) (step count : ℕ) (x y : Tree) (u : Value) →
        HasSize op step count → TwoValues accesses scope depth x y (w, steps) (value.Buffer o) u after →
        integer_in u after.0 ≡ (Ok i, after.0) → HasBits after.0 o (step * i + count) →
        IsRefused accesses scope depth (create op x y n) (w, suc steps) e after }
    ensures any { (accesses : Accesses S) (scope : List Seg) (depth : ℕ) (n : Name) (path : List Seg) →
        resolved n scope ≡ Ok path → (w : State S) (steps o i : ℕ) (after : State S × ℕ) (e : Refusal) →
        TakesNoName depth after.0 path e → (x y z : Tree) (one other : State S × ℕ) (u v : Value) (k : ℕ) →
        GivesValue accesses scope depth x (w, steps) (value.Buffer o) one →
        GivesValue accesses scope depth y one u other → GivesValue accesses scope depth z other v after →
        integer_in u after.0 ≡ (Ok i, after.0) → integer_in v after.0 ≡ (Ok k, after.0) → IsSized k →
        HasBits after.0 o (i + k) →
        IsRefused accesses scope depth (create_field x y z n) (w, suc steps) e after }
{}
