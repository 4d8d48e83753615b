//! Declarations of fields in a bank.
ghost use Rattle.std.specs.Prelude.{◌≡◌, ◌≢◌, ℕ, List, Ok, Err};
ghost use Rattle.ar_space.specs.Accesses.{Accesses};
ghost use Rattle.ar_space.specs.declared.refusal.Refusal.{Refusal};
ghost use Rattle.ar_space.specs.declared.refusal.Refusal.TheVariants as refusal;
ghost use Rattle.ar_space.specs.declared.refusal.EvaluationFault.TheVariants.{NoValue};
ghost use Rattle.ar_space.specs.declared.refusal.ValueFault.TheVariants.{WrongType};
ghost use Rattle.aml_path.specs.Paths.{Name};
ghost use Rattle.aml_path.specs.declared.segment.Seg.{Seg};
ghost use Rattle.aml_grammar.specs.Tree.{Tree, Trees};
ghost use Rattle.aml_objects.specs.declared.entry.Bank.{Bank};
ghost use Rattle.aml_objects.specs.declared.entry.FieldSource.TheVariants as sources;
ghost use Rattle.aml_objects.specs.declared.entry.FieldUnit.{FieldUnit};
ghost use Rattle.aml_objects.specs.declared.entry.NamedObject.{NamedObject};
ghost use Rattle.aml_objects.specs.declared.entry.NamedObject.TheVariants as object;
ghost use Rattle.aml_objects.specs.declared.entry.OperationRegion.{OperationRegion};
ghost use Rattle.aml_objects.specs.declared.value.Value.{Value};
ghost use Rattle.aml_namespace.specs.Search.{found};
ghost use Rattle.aml_world.specs.state.Readings.{integer_in};
ghost use Rattle.aml_world.specs.state.State.{State};
ghost use Rattle.aml_world.specs.declared.state.profile.Profile.TheVariants.{Wide};
ghost use Rattle.aml_meaning.specs.Evaluation.{rule};
ghost use Rattle.aml_meaning.specs.FieldTerms.{fields_laid};
ghost use Rattle.aml_meaning.specs.Meaning.{meaning};
ghost use Rattle.aml_meaning.specs.Tasks.{task};
ghost use Rattle.aml_meaning.specs.declared.flow.Flow.TheVariants as flow;
ghost use Rattle.aml_laws.specs.BankDeclarations.{bank_field, Finds, FindsField};

/// A BankField term in the wide profile finds its region first, then its bank field, and then evaluates the value,
/// once: where a name finds nothing, the term is refused so, and nothing has changed; what is no operation region, no
/// field unit, or a field that a BankField or an IndexField declared is refused as `WrongType`; where the value is
/// refused or is no integer, the term is refused so, and as `NoValue` where its term gives nothing, as a call of a
/// control method that comes to its end; no field is declared then. Else its fields are declared in the region, with
/// the bank field and the value as an integer. A value that is evaluated before its names are found, a bank field in
/// a bank, and a term that gives nothing and counts as 0, are refused by this.
pub fn a_bank_field_is_declared_in_order<S>()
    ensures no_region { (accesses : Accesses S) (scope : List Seg) (depth : ℕ) (region bank : Name) (value : Tree)
        (flags : ℕ) (fields : Trees) (s : State S × ℕ) (e : Refusal) → s.0.profile ≡ Wide →
        found s.0.names.map scope region ≡ Err e →
        rule accesses (meaning accesses) (task scope depth (bank_field region bank value flags fields)) s ≡ (Err e, s) }
    ensures other_region { (accesses : Accesses S) (scope : List Seg) (depth : ℕ) (region bank : Name) (value : Tree)
        (flags : ℕ) (fields : Trees) (s : State S × ℕ) (n : ℕ) (o : NamedObject) → s.0.profile ≡ Wide →
        Finds s.0 scope region n o → ((r : OperationRegion) → o ≢ object.OperationRegion r) →
        rule accesses (meaning accesses) (task scope depth (bank_field region bank value flags fields)) s ≡
        (Err (refusal.Value WrongType), s) }
    ensures no_bank { (accesses : Accesses S) (scope : List Seg) (depth : ℕ) (region bank : Name) (value : Tree)
        (flags : ℕ) (fields : Trees) (s : State S × ℕ) (n : ℕ) (r : OperationRegion) (e : Refusal) →
        s.0.profile ≡ Wide → Finds s.0 scope region n (object.OperationRegion r) →
        found s.0.names.map scope bank ≡ Err e →
        rule accesses (meaning accesses) (task scope depth (bank_field region bank value flags fields)) s ≡ (Err e, s) }
    ensures other_bank { (accesses : Accesses S) (scope : List Seg) (depth : ℕ) (region bank : Name) (value : Tree)
        (flags : ℕ) (fields : Trees) (s : State S × ℕ) (n : ℕ) (r : OperationRegion) (b : ℕ) (o : NamedObject) →
        s.0.profile ≡ Wide → Finds s.0 scope region n (object.OperationRegion r) → Finds s.0 scope bank b o →
        ((u : FieldUnit) → o ≢ object.FieldUnit u) →
        rule accesses (meaning accesses) (task scope depth (bank_field region bank value flags fields)) s ≡
        (Err (refusal.Value WrongType), s) }
    ensures banked { (accesses : Accesses S) (scope : List Seg) (depth : ℕ) (region bank : Name) (value : Tree)
        (flags : ℕ) (fields : Trees) (s : State S × ℕ) (n : ℕ) (r : OperationRegion) (b q : ℕ) (held : Bank) →
        s.0.profile ≡ Wide → Finds s.0 scope region n (object.OperationRegion r) →
        FindsField s.0 scope bank b (sources.Bank q held) →
        rule accesses (meaning accesses) (task scope depth (bank_field region bank value flags fields)) s ≡
        (Err (refusal.Value WrongType), s) }
    ensures indexed { (accesses : Accesses S) (scope : List Seg) (depth : ℕ) (region bank : Name) (value : Tree)
        (flags : ℕ) (fields : Trees) (s : State S × ℕ) (n : ℕ) (r : OperationRegion) (b i d : ℕ) →
        s.0.profile ≡ Wide → Finds s.0 scope region n (object.OperationRegion r) →
        FindsField s.0 scope bank b (sources.Index i d) →
        rule accesses (meaning accesses) (task scope depth (bank_field region bank value flags fields)) s ≡
        (Err (refusal.Value WrongType), s) }
    ensures no_value { (accesses : Accesses S) (scope : List Seg) (depth : ℕ) (region bank : Name) (value : Tree)
        (flags : ℕ) (fields : Trees) (s after : State S × ℕ) (n : ℕ) (r : OperationRegion) (b q : ℕ)
        (e : Refusal) → s.0.profile ≡ Wide → Finds s.0 scope region n (object.OperationRegion r) →
        FindsField s.0 scope bank b (sources.Region q) →
        meaning accesses (task scope depth value) s ≡ (Err e, after) →
        rule accesses (meaning accesses) (task scope depth (bank_field region bank value flags fields)) s ≡
        (Err e, after) }
    ensures nothing_given { (accesses : Accesses S) (scope : List Seg) (depth : ℕ) (region bank : Name) (value : Tree)
        (flags : ℕ) (fields : Trees) (s after : State S × ℕ) (n : ℕ) (r : OperationRegion) (b q : ℕ) →
        s.0.profile ≡ Wide → Finds s.0 scope region n (object.OperationRegion r) →
        FindsField s.0 scope bank b (sources.Region q) →
        meaning accesses (task scope depth value) s ≡ (Ok flow.Next, after) →
        rule accesses (meaning accesses) (task scope depth (bank_field region bank value flags fields)) s ≡
        (Err (refusal.Evaluation NoValue), after) }
    ensures no_integer { (accesses : Accesses S) (scope : List Seg) (depth : ℕ) (region bank : Name) (value : Tree)
        (flags : ℕ) (fields : Trees) (s after : State S × ℕ) (n : ℕ) (r : OperationRegion) (b q : ℕ) (v : Value)
        (e : Refusal) → s.0.profile ≡ Wide → Finds s.0 scope region n (object.OperationRegion r) →
        FindsField s.0 scope bank b (sources.Region q) →
        meaning accesses (task scope depth value) s ≡ (Ok (flow.Value v), after) →
        integer_in v after.0 ≡ (Err e, after.0) →
        rule accesses (meaning accesses) (task scope depth (bank_field region bank value flags fields)) s ≡
        (Err e, after) }
    ensures declared { (accesses : Accesses S) (scope : List Seg) (depth : ℕ) (region bank : Name) (value : Tree)
        (flags : ℕ) (fields : Trees) (s after : State S × ℕ) (n : ℕ) (r : OperationRegion) (b q : ℕ) (v : Value)
        (number : ℕ) → s.0.profile ≡ Wide → Finds s.0 scope region n (object.OperationRegion r) →
        FindsField s.0 scope bank b (sources.Region q) →
        meaning accesses (task scope depth value) s ≡ (Ok (flow.Value v), after) →
        integer_in v after.0 ≡ (Ok number, after.0) →
        rule accesses (meaning accesses) (task scope depth (bank_field region bank value flags fields)) s ≡
        fields_laid scope depth (sources.Bank n (record { field = b; value = number })) flags fields after }
{}
