//! What terms that declare names leave at their paths.
ghost use Rattle.std.specs.Prelude.{◌≡◌, ◌<◌, ◌+◌, ◌*◌, ℕ, suc, List, Some, Ok, Err};
ghost use Rattle.ar_space.specs.Accesses.{Accesses};
ghost use Rattle.ar_space.specs.declared.refusal.Refusal.{Refusal};
ghost use Rattle.aml_path.specs.declared.segment.Seg.{Seg};
ghost use Rattle.aml_path.specs.Paths.{Name, resolved};
ghost use Rattle.aml_grammar.specs.Tree.{Tree, Trees, Parts, list};
ghost use Rattle.aml_grammar.specs.Apart.{code_of, name_of, operand_of};
ghost use Rattle.aml_grammar.specs.declared.opcode.Opcode.{Opcode};
ghost use Rattle.aml_grammar.specs.declared.opcode.Opcode.TheVariants as opcodes;
ghost use Rattle.aml_grammar.specs.declared.opcode.TermCode.TheVariants as codes;
ghost use Rattle.aml_objects.specs.declared.entry.Entry.{Entry};
ghost use Rattle.aml_objects.specs.declared.entry.NamedObject.{NamedObject};
ghost use Rattle.aml_objects.specs.declared.entry.NamedObject.TheVariants as named;
ghost use Rattle.aml_objects.specs.declared.value.Value.{Value};
ghost use Rattle.aml_objects.specs.declared.value.Value.TheVariants as value;
ghost use Rattle.aml_namespace.specs.Search.{found};
ghost use Rattle.aml_world.specs.state.Readings.{integer_in};
ghost use Rattle.aml_world.specs.state.State.{State};
ghost use Rattle.aml_meaning.specs.Meaning.{meaning};
ghost use Rattle.aml_meaning.specs.Tasks.{task, in_turn};
ghost use Rattle.aml_laws.specs.BufferFieldTerms.{create, create_field, HasSize, HasBits};
ghost use Rattle.aml_laws.specs.FieldsPut.{IsSized};
ghost use Rattle.aml_laws.specs.OperatorTerms.{of_opcode, GivesValue, IsRefused};
ghost use Rattle.aml_laws.specs.RegionTerms.{operation_region};
ghost use Rattle.aml_laws.specs.TestTerms.{TwoValues};
ghost use Rattle.aml_laws.specs.ObjectTerms.{Passes};
ghost use Rattle.aml_laws.specs.InnerLists.{DeclaresScope};
ghost use Rattle.aml_laws.specs.DeclaredObjects.{name_term, method_term, alias_term, mutex_term, event_term, method_of, IsFree, TakesNoName, with_name};

/// A Name term leaves at the path of its name the very value that its term gives, a Method term a control method with
/// its flags and its body, an Alias term an alias of the path at which its first name stands, a Mutex term a mutex
/// that nobody has acquired, and an Event term an event without signals (ACPI 6.5, 5.3 and 19.6). A Device, a
/// Processor, a PowerResource and a ThermalZone leave such an object there, and its list is evaluated in turn in this
/// scope then. So it is where the path is free; nothing else of the world changes. A Name that declares no data, a
/// control method that takes fewer arguments, an alias of itself, and a Device that is a plain scope or is refused,
/// are refused by this.
pub fn a_declaration_leaves_what_its_term_says<S>()
    ensures name { (accesses : Accesses S) (scope : List Seg) (depth : ℕ) (n : Name) (path : List Seg) →
        resolved n scope ≡ Ok path → (w : State S) (steps : ℕ) (x : Tree) (v : Value) (after : State S × ℕ) →
        GivesValue accesses scope depth x (w, steps) v after → IsFree depth after.0 path →
        Passes accesses scope depth (name_term n x) (w, suc steps) (
          with_name after.0 path (named.Data v),
          after.1,
        ) }
    ensures method { (accesses : Accesses S) (scope : List Seg) (depth : ℕ) (n : Name) (path : List Seg) →
        resolved n scope ≡ Ok path → (w : State S) (steps flags : ℕ) (body : List ℕ) → flags < 256 →
        IsFree depth w path → Passes accesses scope depth (method_term n flags body) (w, suc steps)
        (with_name w path (method_of flags body), steps) }
    ensures an_alias { (accesses : Accesses S) (scope : List Seg) (depth : ℕ) (n : Name) (path : List Seg) →
        resolved n scope ≡ Ok path → (w : State S) (steps : ℕ) (source : Name) (target : List Seg) (e : Entry) →
        found w.names.map scope source ≡ Ok (target, e) → IsFree depth w path →
        Passes accesses scope depth (alias_term source n) (w, suc steps)
        (with_name w path (named.Alias target), steps) }
    ensures mutex { (accesses : Accesses S) (scope : List Seg) (depth : ℕ) (n : Name) (path : List Seg) →
        resolved n scope ≡ Ok path → (w : State S) (steps level : ℕ) → IsFree depth w path →
        Passes accesses scope depth (mutex_term n level) (w, suc steps) (with_name w path (named.Mutex 0), steps) }
    ensures event { (accesses : Accesses S) (scope : List Seg) (depth : ℕ) (n : Name) (path : List Seg) →
        resolved n scope ≡ Ok path → (w : State S) (steps : ℕ) → IsFree depth w path →
        Passes accesses scope depth (event_term n) (w, suc steps) (with_name w path (named.Event 0), steps) }
    ensures a_scope { (accesses : Accesses S) (scope : List Seg) (depth : ℕ) (n : Name) (path : List Seg) →
        resolved n scope ≡ Ok path → (w : State S) (steps : ℕ) (code : Opcode) (o : NamedObject) (i : ℕ) (t : Tree)
        (ts : Trees) → DeclaresScope code o i → code_of t ≡ codes.Opcode code → name_of (operand_of t 0) ≡ Ok n →
        operand_of t i ≡ Some (list ts) → IsFree depth w path → meaning accesses (task scope depth t) (w, suc steps) ≡
        in_turn (meaning accesses) path depth ts (with_name w path o, steps) }
{}

/// An External declares nothing: it gives nothing, and changes nothing, whatever its operands are, but takes a step
/// (ACPI 6.5, 19.6: External). One that refuses its table is refused by this.
pub fn an_external_declares_nothing<S>()
    ensures { (accesses : Accesses S) (scope : List Seg) (depth : ℕ) (operands : Parts) (w : State S) (steps : ℕ) →
        Passes accesses scope depth (of_opcode opcodes.External operands) (w, suc steps) (w, steps) }
{}

/// An Alias of a name that isn't found is refused as the search for it is, and nothing changes: no alias is declared,
/// whatever stands at its path (ACPI 6.5, 19.6: Alias). An alias of nothing is refused by this.
pub fn an_alias_of_what_is_not_found_is_refused<S>()
    ensures { (accesses : Accesses S) (scope : List Seg) (depth : ℕ) (source n : Name) (w : State S) (steps : ℕ)
        (e : Refusal) → found w.names.map scope source ≡ Err e →
        IsRefused accesses scope depth (alias_term source n) (w, suc steps) e (w, steps) }
{}

/// A Name, Method, Alias, Mutex or Event term at a path that takes no name, and one of a scope as a Device term, is
/// refused, and nothing changes (ACPI 6.5, 5.3): where a name stands there, by the number of a name that exists;
/// where none stands above it, and at module level where a control method does, by that of a name that isn't found;
/// and where 2^64 - 1 declarations were made, so that no number is left for a name that could stand, as too much. A
/// Name is refused so once its term is evaluated. A name that is declared in a control method at module level, and
/// want of numbers that is told as a name that exists, are refused by this.
pub fn a_path_that_takes_no_name_refuses_declarations<S>()
    ensures name { (accesses : Accesses S) (scope : List Seg) (depth : ℕ) (n : Name) (path : List Seg) →
        resolved n scope ≡ Ok path → (w : State S) (steps : ℕ) (e : Refusal) (x : Tree) (v : Value)
        (after : State S × ℕ) → GivesValue accesses scope depth x (w, steps) v after →
        TakesNoName depth after.0 path e → IsRefused accesses scope depth (name_term n x) (w, suc steps) e after }
    ensures method { (accesses : Accesses S) (scope : List Seg) (depth : ℕ) (n : Name) (path : List Seg) →
        resolved n scope ≡ Ok path → (w : State S) (steps : ℕ) (e : Refusal) (flags : ℕ) (body : List ℕ) →
        TakesNoName depth w path e →
        IsRefused accesses scope depth (method_term n flags body) (w, suc steps) e (w, steps) }
    ensures an_alias { (accesses : Accesses S) (scope : List Seg) (depth : ℕ) (n : Name) (path : List Seg) →
        resolved n scope ≡ Ok path → (w : State S) (steps : ℕ) (e : Refusal) (source : Name) (target : List Seg)
        (there : Entry) → found w.names.map scope source ≡ Ok (target, there) → TakesNoName depth w path e →
        IsRefused accesses scope depth (alias_term source n) (w, suc steps) e (w, steps) }
    ensures mutex { (accesses : Accesses S) (scope : List Seg) (depth : ℕ) (n : Name) (path : List Seg) →
        resolved n scope ≡ Ok path → (w : State S) (steps : ℕ) (e : Refusal) (level : ℕ) →
        TakesNoName depth w path e →
        IsRefused accesses scope depth (mutex_term n level) (w, suc steps) e (w, steps) }
    ensures event { (accesses : Accesses S) (scope : List Seg) (depth : ℕ) (n : Name) (path : List Seg) →
        resolved n scope ≡ Ok path → (w : State S) (steps : ℕ) (e : Refusal) → TakesNoName depth w path e →
        IsRefused accesses scope depth (event_term n) (w, suc steps) e (w, steps) }
    ensures a_scope { (accesses : Accesses S) (scope : List Seg) (depth : ℕ) (n : Name) (path : List Seg) →
        resolved n scope ≡ Ok path → (w : State S) (steps : ℕ) (e : Refusal) (code : Opcode) (o : NamedObject)
        (i : ℕ) (t : Tree) → DeclaresScope code o i → code_of t ≡ codes.Opcode code →
        name_of (operand_of t 0) ≡ Ok n → TakesNoName depth w path e →
        IsRefused accesses scope depth t (w, suc steps) e (w, steps) }
{}

/// A name that leads above the root, and the null name, stand for no path (`a_name_is_declared_at_one_path`): a term
/// that would declare one is refused for that, and declares nothing (ACPI 6.5, 5.3). A Name, an OperationRegion and a
/// CreateField or its like are refused so once their other operands are evaluated, an Alias once its source is found,
/// and the others at once. A name that leads above the root and is declared below the root is refused by this.
pub fn a_name_without_a_path_refuses_declarations<S>()
    ensures name { (accesses : Accesses S) (scope : List Seg) (depth : ℕ) (n : Name) (e : Refusal) →
        resolved n scope ≡ Err e → (w : State S) (steps : ℕ) (x : Tree) (v : Value) (after : State S × ℕ) →
        GivesValue accesses scope depth x (w, steps) v after →
        IsRefused accesses scope depth (name_term n x) (w, suc steps) e after }
    ensures method { (accesses : Accesses S) (scope : List Seg) (depth : ℕ) (n : Name) (e : Refusal) →
        resolved n scope ≡ Err e → (w : State S) (steps flags : ℕ) (body : List ℕ) →
        IsRefused accesses scope depth (method_term n flags body) (w, suc steps) e (w, steps) }
    ensures an_alias { (accesses : Accesses S) (scope : List Seg) (depth : ℕ) (n : Name) (e : Refusal) →
        resolved n scope ≡ Err e → (w : State S) (steps : ℕ) (source : Name) (target : List Seg) (there : Entry) →
        found w.names.map scope source ≡ Ok (target, there) →
        IsRefused accesses scope depth (alias_term source n) (w, suc steps) e (w, steps) }
    ensures mutex { (accesses : Accesses S) (scope : List Seg) (depth : ℕ) (n : Name) (e : Refusal) →
        resolved n scope ≡ Err e → (w : State S) (steps level : ℕ) →
        IsRefused accesses scope depth (mutex_term n level) (w, suc steps) e (w, steps) }
    ensures event { (accesses : Accesses S) (scope : List Seg) (depth : ℕ) (n : Name) (e : Refusal) →
        resolved n scope ≡ Err e → (w : State S) (steps : ℕ) →
        IsRefused accesses scope depth (event_term n) (w, suc steps) e (w, steps) }
    ensures a_scope { (accesses : Accesses S) (scope : List Seg) (depth : ℕ) (n : Name) (e : Refusal) →
        resolved n scope ≡ Err e → (w : State S) (steps : ℕ) (code : Opcode) (o : NamedObject) (i : ℕ) (t : Tree) →
        DeclaresScope code o i → code_of t ≡ codes.Opcode code → name_of (operand_of t 0) ≡ Ok n →
        IsRefused accesses scope depth t (w, suc steps) e (w, steps) }
    ensures region { (accesses : Accesses S) (scope : List Seg) (depth : ℕ) (n : Name) (e : Refusal) →
        resolved n scope ≡ Err e → (w : State S) (steps space : ℕ) (offset size : Tree) (between after : State S × ℕ)
        (v u : Value) (x y : ℕ) → GivesValue accesses scope depth offset (w, steps) v between →
        GivesValue accesses scope depth size between u after → integer_in v after.0 ≡ (Ok x, after.0) →
        integer_in u after.0 ≡ (Ok y, after.0) →
        IsRefused accesses scope depth (operation_region n space offset size) (w, suc steps) e after }
    ensures sized { (accesses : Accesses S) (scope : List Seg) (depth : ℕ) (n : Name) (e : Refusal) →
        resolved n scope ≡ Err e → (w : State S) (steps o i : ℕ) (after : State S × ℕ) (op : Opcode) (step count : ℕ)
        (x y : Tree) (u : Value) → HasSize op step count →
        TwoValues accesses scope depth x y (w, steps) (value.Buffer o) u after →
        integer_in u after.0 ≡ (Ok i, after.0) → HasBits after.0 o (step * i + count) →
        IsRefused accesses scope depth (create op x y n) (w, suc steps) e after }
    ensures any { (accesses : Accesses S) (scope : List Seg) (depth : ℕ) (n : Name) (e : Refusal) →
        resolved n scope ≡ Err e → (w : State S) (steps o i : ℕ) (after : State S × ℕ) (x y z : Tree)
        (one other : State S × ℕ) (u v : Value) (k : ℕ) →
        GivesValue accesses scope depth x (w, steps) (value.Buffer o) one →
        GivesValue accesses scope depth y one u other → GivesValue accesses scope depth z other v after →
        integer_in u after.0 ≡ (Ok i, after.0) → integer_in v after.0 ≡ (Ok k, after.0) → IsSized k →
        HasBits after.0 o (i + k) →
        IsRefused accesses scope depth (create_field x y z n) (w, suc steps) e after }
{}
