//! What tables, answers and calls leave where they end.
ghost use Rattle.std.specs.Prelude.{◌≡◌, ◌≤◌, ◌<◌, ◌+◌, ◌-◌, ◌^◌, ◌%◌, ◌∷◌, ◌++◌, [], ℕ, List, length, take, Ok, Err};
ghost use Rattle.ar_space.specs.Accesses.{Accesses};
ghost use Rattle.ar_space.specs.Outcome.{Outcome};
ghost use Rattle.ar_space.specs.declared.refusal.Refusal.{Refusal};
ghost use Rattle.ar_space.specs.declared.refusal.Refusal.TheVariants as refusal;
ghost use Rattle.ar_space.specs.declared.refusal.EvaluationFault.TheVariants.{ArityChanged, ObjectLimit};
ghost use Rattle.aml_path.specs.declared.segment.Seg.{Seg};
ghost use Rattle.aml_grammar.specs.Tree.{Trees};
ghost use Rattle.aml_objects.specs.declared.entry.Entry.{Entry};
ghost use Rattle.aml_objects.specs.declared.entry.Field.{Field};
ghost use Rattle.aml_objects.specs.declared.entry.Method.{Method};
ghost use Rattle.aml_objects.specs.declared.entry.NamedObject.TheVariants as named;
ghost use Rattle.aml_objects.specs.declared.object.Object.TheVariants as object;
ghost use Rattle.aml_objects.specs.declared.value.Value.{Value};
ghost use Rattle.aml_objects.specs.declared.value.Value.TheVariants as value;
ghost use Rattle.aml_convert.specs.Integers.{bits_of, bytes_of};
ghost use Rattle.aml_namespace.specs.Search.{found};
ghost use Rattle.aml_world.specs.state.Given as given;
ghost use Rattle.aml_world.specs.state.Given.{Given};
ghost use Rattle.aml_world.specs.state.Importing.{imported};
ghost use Rattle.aml_world.specs.state.Invocations.{body_terms};
ghost use Rattle.aml_world.specs.state.State.{State};
ghost use Rattle.aml_meaning.specs.Calling.{table_terms, loaded, called, evaluated, answer_exported, answered};
ghost use Rattle.aml_meaning.specs.Exporting.{exported};
ghost use Rattle.aml_meaning.specs.Calls.{invoked, method_value};
ghost use Rattle.aml_meaning.specs.Meaning.{meaning};
ghost use Rattle.aml_meaning.specs.Tasks.{in_turn};
ghost use Rattle.aml_laws.specs.Calls.{body_frame};
ghost use Rattle.aml_laws.specs.CallTerms.{method_entry, IsNoMethod, HandedInTurn};
ghost use Rattle.aml_laws.specs.Ends.{EndsAs, IsCallLeft, TableEnds};
ghost use Rattle.aml_laws.specs.FieldNames.{NamesField, bits_read_at};
ghost use Rattle.aml_laws.specs.IntegersOfValues.{lowest_first};
ghost use Rattle.aml_laws.specs.JoinedTerms.{with_object, Fits};
ghost use Rattle.aml_laws.specs.NamesUsed.{IsGivenBy};
ghost use Rattle.aml_laws.specs.NamesWritten.{from_root};
ghost use Rattle.aml_laws.specs.StoredNames.{data_entry};

/// Where the terms of a table can be read, they are evaluated in turn at the root, in a frame of their own whose slots
/// hold nothing. The table comes to what they come to, and leaves the world that they left, whether it succeeds or is
/// refused; only this frame ends, and all mutexes are free. Where frames have no number left, the table is refused as
/// `ObjectLimit`, and its terms aren't evaluated. That a table which can't be read changes nothing else either,
/// `a_table_is_read_with_what_was_told_before_it` says. The law excludes a table that is loaded and leaves nothing
/// behind.
pub fn a_table_leaves_what_its_terms_left<S>()
    ensures ended { (accesses : Accesses S) (bytes : List ℕ) (steps : ℕ) (w told : State S) (ts : Trees) →
        table_terms bytes w ≡ (Ok ts, told) → told.started < 2 ^ 64 - 1 →
        TableEnds accesses steps ts told (loaded accesses bytes steps w) }
    ensures full { (accesses : Accesses S) (bytes : List ℕ) (steps : ℕ) (w told : State S) (ts : Trees) →
        table_terms bytes w ≡ (Ok ts, told) → told.started ≡ 2 ^ 64 - 1 →
        EndsAs (Err (refusal.Evaluation ObjectLimit), (told, steps)) (loaded accesses bytes steps w) }
{}

/// The value of an object, and its answer to a caller, are what its evaluation comes to with the same steps. They leave
/// the world that the evaluation left, whether they succeed or are refused. A value comes with the steps that are left;
/// after an answer all mutexes are free. So the value of a control method is what a call with these arguments gives.
/// Its answer is this value, handed out to the caller, and where the call or the handing out is refused, the answer is
/// refused so. Of an object that is no control method this says only that its answer ends as its evaluation does. What
/// it answers, `an_object_that_is_no_control_method_answers_what_it_holds` says, and of a path where no object is
/// found, `a_name_that_is_not_found_is_refused`. The law excludes an answer that succeeds and leaves nothing behind,
/// and one that has a step less than it was given.
pub fn an_answer_leaves_what_its_evaluation_left<S>()
    ensures value { (accesses : Accesses S) (p : List Seg) (vs : List Value) (w after : State S) (steps rest : ℕ)
        (v : Value) → called accesses p vs (w, steps) ≡ (Ok v, (after, rest)) →
        evaluated accesses p vs steps w ≡ (Ok (v, rest), after) }
    ensures no_value { (accesses : Accesses S) (p : List Seg) (vs : List Value) (w after : State S) (steps rest : ℕ)
        (e : Refusal) → called accesses p vs (w, steps) ≡ (Err e, (after, rest)) →
        evaluated accesses p vs steps w ≡ (Err e, after) }
    ensures called { (accesses : Accesses S) (p path : List Seg) (vs : List Value) (s : State S × ℕ)
        (number flags : ℕ) (body : List ℕ) →
        found s.0.names.map [] (from_root p) ≡ Ok (path, method_entry number flags body) → flags % 8 ≡ length vs →
        called accesses p vs s ≡ method_value (meaning accesses) 0 path body vs s }
    ensures answer { (accesses : Accesses S) (p : List Seg) (gs : List Given) (w : State S) (steps : ℕ) →
        EndsAs (answer_exported accesses p (length gs) gs (w, steps)) (answered accesses p gs steps w) }
    ensures handed_out { (accesses : Accesses S) (p path : List Seg) (gs : List Given) (w : State S)
        (number flags : ℕ) (body : List ℕ) (steps : ℕ) →
        found w.names.map [] (from_root p) ≡ Ok (path, method_entry number flags body) → flags % 8 ≡ length gs →
        (vs : List Value) (inside : State S) (v : Value) (after end : State S × ℕ) (out : Outcome Given) →
        HandedInTurn gs w vs inside →
        method_value (meaning accesses) 0 path body vs (inside, steps) ≡ (Ok v, after) →
        exported accesses v after ≡ (out, end) → EndsAs (out, end) (answered accesses p gs steps w) }
    ensures refused { (accesses : Accesses S) (p path : List Seg) (gs : List Given) (w : State S) (number flags : ℕ)
        (body : List ℕ) (steps : ℕ) →
        found w.names.map [] (from_root p) ≡ Ok (path, method_entry number flags body) → flags % 8 ≡ length gs →
        (vs : List Value) (inside : State S) (end : State S × ℕ) (e : Refusal) → HandedInTurn gs w vs inside →
        method_value (meaning accesses) 0 path body vs (inside, steps) ≡ (Err e, end) →
        EndsAs (Err e, end) (answered accesses p gs steps w) }
{}

/// An object that is no control method takes no arguments: with any it is refused as `ArityChanged`, before anything is
/// handed in. The value of a name that holds an integer, a string, a buffer or a package is what the name holds; that
/// of a name that holds a reference is a reference to the name itself. This takes no step and changes nothing, and the
/// answer is this value handed out. A field is read as inside one call. Its bits are an integer where they are no more
/// than an integer has. Where they are more, the value is a new buffer, and the answer is their bytes, of which no
/// object is made. What refuses the field refuses both. The law excludes a name whose value is lost, a field that is
/// read as outside of calls, and arguments that are passed over.
pub fn an_object_that_is_no_control_method_answers_what_it_holds<S>()
    ensures value { (accesses : Accesses S) (p : List Seg) (w : State S) (steps : ℕ) (path : List Seg) (number : ℕ)
        (v r : Value) → found w.names.map [] (from_root p) ≡ Ok (path, data_entry number v) → IsGivenBy number v r →
        called accesses p [] (w, steps) ≡ (Ok r, (w, steps)) }
    ensures answer { (accesses : Accesses S) (p : List Seg) (w : State S) (steps : ℕ) (path : List Seg) (number : ℕ)
        (v r : Value) (out : Outcome Given) (end : State S × ℕ) →
        found w.names.map [] (from_root p) ≡ Ok (path, data_entry number v) → IsGivenBy number v r →
        exported accesses r (w, steps) ≡ (out, end) → EndsAs (out, end) (answered accesses p [] steps w) }
    ensures integer { (accesses : Accesses S) (p : List Seg) (w : State S) (steps : ℕ) (f : Field) (bits : ℕ) →
        NamesField w [] (from_root p) f bits → (b : ℕ) (bytes : List ℕ) (after : State S × ℕ) →
        bits_read_at accesses 1 f (w, steps) ≡ (Ok (b ∷ bytes), after) → bits ≤ bits_of after.0.width →
        (called accesses p [] (w, steps) ≡
        (Ok (value.Integer (lowest_first (take (bytes_of after.0.width) (b ∷ bytes)))), after)) ×
        EndsAs (Ok (given.Integer (lowest_first (take (bytes_of after.0.width) (b ∷ bytes)))), after)
        (answered accesses p [] steps w) }
    ensures buffer { (accesses : Accesses S) (p : List Seg) (w : State S) (steps : ℕ) (f : Field) (bits : ℕ) →
        NamesField w [] (from_root p) f bits → (bytes : List ℕ) (after : State S × ℕ) →
        bits_read_at accesses 1 f (w, steps) ≡ (Ok bytes, after) → bits_of after.0.width < bits → Fits after.0 bytes →
        called accesses p [] (w, steps) ≡ (
          Ok (value.Buffer (length after.0.objects)),
          (
            with_object after.0 (object.Buffer bytes),
            after.1,
          ),
        ) }
    ensures bytes { (accesses : Accesses S) (p : List Seg) (w : State S) (steps : ℕ) (f : Field) (bits : ℕ) →
        NamesField w [] (from_root p) f bits → (bytes : List ℕ) (after : State S × ℕ) →
        bits_read_at accesses 1 f (w, steps) ≡ (Ok bytes, after) → bits_of after.0.width < bits →
        EndsAs (Ok (given.Bytes bytes), after) (answered accesses p [] steps w) }
    ensures refused { (accesses : Accesses S) (p : List Seg) (w : State S) (steps : ℕ) (f : Field) (bits : ℕ) →
        NamesField w [] (from_root p) f bits → (e : Refusal) (after : State S × ℕ) →
        bits_read_at accesses 1 f (w, steps) ≡ (Err e, after) →
        (called accesses p [] (w, steps) ≡ (Err e, after)) ×
        EndsAs (Err e, after) (answered accesses p [] steps w) }
    ensures arguments { (accesses : Accesses S) (p : List Seg) (w : State S) (steps : ℕ) (path : List Seg)
        (e : Entry) → found w.names.map [] (from_root p) ≡ Ok (path, e) → IsNoMethod e.object → (v : Value)
        (vs : List Value) (g : Given) (gs : List Given) →
        (called accesses p (v ∷ vs) (w, steps) ≡ (Err (refusal.Evaluation ArityChanged), (w, steps))) ×
        EndsAs (Err (refusal.Evaluation ArityChanged), (w, steps)) (answered accesses p (g ∷ gs) steps w) }
{}

/// Where there are as many arguments as the control method takes, the first one that can't be handed in refuses the
/// call, and nothing is evaluated. The world is the one that this argument left, with all mutexes free. Which data
/// can't be handed in, `a_reference_without_a_path_is_not_handed_in`,
/// `a_path_is_handed_in_as_a_reference_to_what_it_finds` and the laws of limits say. The law excludes such an argument
/// that is handed in as nothing.
pub fn the_first_argument_that_is_refused_refuses_the_call<S>()
    ensures { (accesses : Accesses S) (p path : List Seg) (front others : List Given) (g : Given) (w : State S)
        (entry : Entry) (m : Method) (steps : ℕ) → found w.names.map [] (from_root p) ≡ Ok (path, entry) →
        entry.object ≡ named.Method m → m.flags.byte % 8 ≡ length (front ++ g ∷ others) → (vs : List Value)
        (between after : State S) (e : Refusal) → HandedInTurn front w vs between →
        imported g between ≡ (Err e, after) →
        EndsAs (Err e, (after, steps)) (answered accesses p (front ++ g ∷ others) steps w) }
{}

/// The end of a call takes away its own frame and the names below its control method. It changes nothing else of the
/// world that its body left, however the body ended: no slot of another frame, no string, buffer or package, and no
/// other name. The law excludes a call that empties what its arguments refer to.
pub fn the_end_of_a_call_takes_its_frame_and_names_away<S>()
    ensures { (accesses : Accesses S) (depth : ℕ) (p : List Seg) (body : List ℕ) (arguments : List Value)
        (before inside : State S) (steps n : ℕ) → body_frame depth p body arguments before ≡ (Ok n, inside) →
        (ts : Trees) → body_terms p body before ≡ (Ok ts, before) →
        IsCallLeft p n (in_turn (meaning accesses) p (depth + 1) ts (inside, steps)).1.0
        (invoked (meaning accesses) depth p body arguments (before, steps)).1.0 }
{}
