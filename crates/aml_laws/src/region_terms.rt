//! Operation regions and the fields in them, as their terms declare them.
ghost use Rattle.std.specs.Prelude.{◌≡◌, ◌<◌, ℕ, List, Ok};
ghost use Rattle.ar_space.specs.Accesses.{Accesses};
ghost use Rattle.ar_space.specs.declared.space.Width.TheVariants.{W8, W16, W32, W64};
ghost use Rattle.aml_path.specs.declared.segment.Seg.{Seg};
ghost use Rattle.aml_path.specs.Paths.{Name, resolved};
ghost use Rattle.aml_grammar.specs.Tree.{Tree, Trees};
ghost use Rattle.aml_objects.specs.declared.entry.FieldSource.TheVariants as sources;
ghost use Rattle.aml_objects.specs.declared.entry.NamedObject.TheVariants as object;
ghost use Rattle.aml_objects.specs.declared.entry.OperationRegion.{OperationRegion};
ghost use Rattle.aml_objects.specs.declared.entry.UpdateRule.TheVariants.{Preserve, WriteAsOnes, WriteAsZeros};
ghost use Rattle.aml_objects.specs.declared.value.Value.{Value};
ghost use Rattle.aml_world.specs.fields.FieldLayouts.{access_width, update_rule};
ghost use Rattle.aml_world.specs.state.Readings.{integer_in};
ghost use Rattle.aml_world.specs.state.State.{State};
ghost use Rattle.aml_meaning.specs.declared.flow.Flow.{Flow};
ghost use Rattle.aml_meaning.specs.declared.flow.Flow.TheVariants as flow;
ghost use Rattle.aml_meaning.specs.Evaluation.{rule};
ghost use Rattle.aml_meaning.specs.FieldTerms.{fields_laid};
ghost use Rattle.aml_meaning.specs.Meaning.{meaning};
ghost use Rattle.aml_meaning.specs.Tasks.{task};
ghost use Rattle.aml_laws.specs.BankDeclarations.{Finds, FindsField};
ghost use Rattle.aml_laws.specs.FieldsPut.{TakesList};
ghost use Rattle.aml_laws.specs.RegionTerms.{operation_region, field, index_field, IsRegionAt, HasFlags};

/// An OperationRegion term that isn't refused leaves at the path of its name just the region that it says: in the
/// address space of its number, at the integer that its offset gives and as long as the integer that its length
/// gives, each evaluated once, the offset first. So the regions that accesses lie within are those of the terms. A
/// region that begins elsewhere, that is longer, or that lies in another address space is refused by this.
pub fn a_region_is_declared_as_its_term_says<S>()
    ensures { (accesses : Accesses S) (scope : List Seg) (depth : ℕ) (n : Name) (space : ℕ) (offset size : Tree)
        (s t r after : State S × ℕ) (v u : Value) (x y : ℕ) (path : List Seg) (f : Flow) →
        meaning accesses (task scope depth offset) s ≡ (Ok (flow.Value v), t) →
        meaning accesses (task scope depth size) t ≡ (Ok (flow.Value u), r) →
        integer_in v r.0 ≡ (Ok x, r.0) → integer_in u r.0 ≡ (Ok y, r.0) → space < 256 → resolved n scope ≡ Ok path →
        rule accesses (meaning accesses) (task scope depth (operation_region n space offset size)) s ≡ (Ok f, after) →
        IsRegionAt after.0.names.map path (record { space = space; offset = x; length = y }) }
{}

/// The fields of a Field term lie in the operation region that its name finds, by its flags, and those of an
/// IndexField term behind the index field and the data field that its names find, in this order: as
/// `fields_lie_where_their_list_lays_them_out` says of such lists. Neither evaluates anything. The core profile takes
/// lists without a Connection alone. Another region's fields, or an index field and a data field that are exchanged,
/// are refused by this.
pub fn fields_are_declared_in_what_their_names_find<S>()
    ensures region { (accesses : Accesses S) (scope : List Seg) (depth flags : ℕ) (fields : Trees) (s : State S × ℕ) →
        TakesList s.0 fields → (region : Name) (number : ℕ) (r : OperationRegion) →
        Finds s.0 scope region number (object.OperationRegion r) →
        rule accesses (meaning accesses) (task scope depth (field region flags fields)) s ≡
        fields_laid scope depth (sources.Region number) flags fields s }
    ensures index { (accesses : Accesses S) (scope : List Seg) (depth flags : ℕ) (fields : Trees) (s : State S × ℕ) →
        TakesList s.0 fields → (index behind : Name) (i d p q : ℕ) →
        FindsField s.0 scope index i (sources.Region p) → FindsField s.0 scope behind d (sources.Region q) →
        rule accesses (meaning accesses) (task scope depth (index_field index behind flags fields)) s ≡
        fields_laid scope depth (sources.Index i d) flags fields s }
{}

/// What field flags say (ACPI 6.5, 20.2.5.2): the low four bits are the access type, which is 2 for words, 3 for
/// doublewords, 4 for quadwords, and for bytes else; bits 5 and 6 are the update rule, which is 0 for Preserve, 1 for
/// WriteAsOnes and 2 for WriteAsZeros; 3 stands for none, and counts as Preserve. The lock bit, bit 4, says nothing of
/// either. Flags that are read from other bits, and an update rule 3 that writes other bits, are refused by this.
pub fn field_flags_say_the_access_and_the_update_rule()
    ensures bytes { (flags access update : ℕ) → HasFlags flags access update → (access ≡ 2 → ⊥) → (access ≡ 3 → ⊥) →
        (access ≡ 4 → ⊥) → access_width flags ≡ W8 }
    ensures wider { (flags update : ℕ) → (HasFlags flags 2 update → access_width flags ≡ W16) ×
        (HasFlags flags 3 update → access_width flags ≡ W32) × (HasFlags flags 4 update → access_width flags ≡ W64) }
    ensures rules { (flags access : ℕ) → (HasFlags flags access 0 → update_rule flags ≡ Preserve) ×
        (HasFlags flags access 1 → update_rule flags ≡ WriteAsOnes) ×
        (HasFlags flags access 2 → update_rule flags ≡ WriteAsZeros) }
    ensures no_rule { (flags access : ℕ) → HasFlags flags access 3 → update_rule flags ≡ Preserve }
{}
