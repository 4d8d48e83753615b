//! What a caller of the library gets of an object: its value (`evaluated`), which may refer to objects of the world, and
//! its answer (`answered`), which is that value as data of its own.
ghost use Rattle.std.specs.Prelude.{◌≡◌, ◌%◌, [], ℕ, List, length, Ok, Err};
ghost use Rattle.ar_space.specs.Accesses.{Accesses};
ghost use Rattle.ar_space.specs.declared.refusal.Refusal.TheVariants as refusal;
ghost use Rattle.ar_space.specs.declared.refusal.EvaluationFault.TheVariants.{ArityChanged};
ghost use Rattle.aml_path.specs.declared.segment.Seg.{Seg};
ghost use Rattle.aml_objects.specs.declared.entry.Entry.{Entry};
ghost use Rattle.aml_objects.specs.declared.entry.Method.{Method};
ghost use Rattle.aml_objects.specs.declared.entry.NamedObject.TheVariants as named;
ghost use Rattle.aml_objects.specs.declared.value.Reference.TheVariants as reference;
ghost use Rattle.aml_objects.specs.declared.value.Value.{Value};
ghost use Rattle.aml_objects.specs.declared.value.Value.TheVariants as value;
ghost use Rattle.aml_namespace.specs.Numbering.{Numbered};
ghost use Rattle.aml_namespace.specs.Search.{found};
ghost use Rattle.aml_world.specs.state.Given as given;
ghost use Rattle.aml_world.specs.state.Given.{Given};
ghost use Rattle.aml_world.specs.state.State.{State};
ghost use Rattle.aml_meaning.specs.Calling.{called, evaluated, answered};
ghost use Rattle.aml_laws.specs.CallTerms.{IsNoMethod};
ghost use Rattle.aml_laws.specs.Ends.{EndsAs};
ghost use Rattle.aml_laws.specs.NamesWritten.{from_root};
ghost use Rattle.aml_laws.specs.StoredParts.{HoldsNothing};

/// An object that holds neither a value nor the bits of a field and is no control method, such as a device, a scope,
/// the root or a mutex, stands for its name. Its value is a reference to it. Its answer to a caller is its path; where
/// the caller asked for an alias, it is the path of the alias's target. No step is taken, and nothing changes, but the
/// answer leaves all mutexes free. The clause of answers is about worlds in which no two declarations have the same
/// number (`Numbered`), as in each world that evaluation makes of the predefined names. The law excludes a definition
/// that refuses a device as one of the wrong type.
pub fn an_object_that_holds_no_value_answers_its_path<S>()
    ensures value { (accesses : Accesses S) (p : List Seg) (w : State S) (steps : ℕ) (path : List Seg) (e : Entry) →
        found w.names.map [] (from_root p) ≡ Ok (path, e) → HoldsNothing e.object → IsNoMethod e.object →
        (called accesses p [] (w, steps) ≡ (Ok (value.Reference (reference.Name e.number)), (w, steps))) ×
        (evaluated accesses p [] steps w ≡ (Ok (value.Reference (reference.Name e.number), steps), w)) }
    ensures answer { (accesses : Accesses S) (p : List Seg) (w : State S) (steps : ℕ) (path : List Seg) (e : Entry) →
        found w.names.map [] (from_root p) ≡ Ok (path, e) → HoldsNothing e.object → IsNoMethod e.object →
        Numbered w.names → EndsAs (Ok (given.Named path), (w, steps)) (answered accesses p [] steps w) }
{}

/// A caller that gives a control method, predefined or with a body in AML, another number of arguments than bits 0 to 2
/// of its flags say gets `ArityChanged`, for its value and for its answer (ACPI 6.5, 20.2.5.2). This comes before any
/// argument is handed in. Nothing is evaluated, no step is taken, and nothing changes, but the answer leaves all
/// mutexes free. The law excludes a definition that evaluates a control method of two arguments with one.
pub fn a_control_method_is_asked_with_as_many_arguments_as_it_takes<S>()
    ensures value { (accesses : Accesses S) (p : List Seg) (w : State S) (steps : ℕ) (path : List Seg) (e : Entry)
        (m : Method) → found w.names.map [] (from_root p) ≡ Ok (path, e) → e.object ≡ named.Method m →
        (vs : List Value) → (m.flags.byte % 8 ≡ length vs → ⊥) →
        (called accesses p vs (w, steps) ≡ (Err (refusal.Evaluation ArityChanged), (w, steps))) ×
        (evaluated accesses p vs steps w ≡ (Err (refusal.Evaluation ArityChanged), w)) }
    ensures answer { (accesses : Accesses S) (p : List Seg) (w : State S) (steps : ℕ) (path : List Seg) (e : Entry)
        (m : Method) → found w.names.map [] (from_root p) ≡ Ok (path, e) → e.object ≡ named.Method m →
        (gs : List Given) → (m.flags.byte % 8 ≡ length gs → ⊥) →
        EndsAs (Err (refusal.Evaluation ArityChanged), (w, steps)) (answered accesses p gs steps w) }
{}
