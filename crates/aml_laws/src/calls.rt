//! Calls of control methods.
ghost use Rattle.std.specs.Prelude.{◌≡◌, ◌<◌, ◌+◌, ◌%◌, ◌∷◌, ◌++◌, ℕ, suc, List, length, true, false, Some, None, Ok, Err};
ghost use Rattle.std.specs.FinMap.{get};
ghost use Rattle.ar_space.specs.Accesses.{Accesses};
ghost use Rattle.ar_space.specs.declared.refusal.Refusal.{Refusal};
ghost use Rattle.ar_space.specs.declared.refusal.Refusal.TheVariants as refusal;
ghost use Rattle.ar_space.specs.declared.refusal.EvaluationFault.TheVariants.{ArityChanged, NoValue};
ghost use Rattle.aml_path.specs.declared.segment.Seg.{Seg};
ghost use Rattle.aml_path.specs.Paths.{Name, is_below};
ghost use Rattle.aml_objects.specs.declared.entry.Entry.{Entry};
ghost use Rattle.aml_objects.specs.declared.entry.Method.{Method};
ghost use Rattle.aml_objects.specs.declared.entry.NamedObject.TheVariants as named;
ghost use Rattle.aml_objects.specs.declared.value.Value.{Value};
ghost use Rattle.aml_namespace.specs.Search.{found};
ghost use Rattle.aml_world.specs.state.State.{State};
ghost use Rattle.aml_arities.specs.Arities.{arity_at};
ghost use Rattle.aml_arities.specs.declared.arities.Arity.{Arity};
ghost use Rattle.aml_grammar.specs.Grammar.{reading_within};
ghost use Rattle.aml_grammar.specs.Shape.{trees_of};
ghost use Rattle.aml_grammar.specs.Tree.{Tree, Trees};
ghost use Rattle.aml_objects.specs.declared.value.Value.TheVariants as value;
ghost use Rattle.aml_world.specs.state.Invocations.{body_arities, body_terms, left};
ghost use Rattle.aml_meaning.specs.declared.flow.Flow.TheVariants as flow;
ghost use Rattle.aml_meaning.specs.Calls.{invoked, method_value};
ghost use Rattle.aml_meaning.specs.Meaning.{meaning};
ghost use Rattle.aml_meaning.specs.Tasks.{task, in_turn};
ghost use Rattle.aml_laws.specs.CallTerms.{call_of, method_entry, IsNoMethod, GiveInTurn};
ghost use Rattle.aml_laws.specs.CountsTold.{named_with, NoneNamed};
ghost use Rattle.aml_laws.specs.Calls.{body_frame, NoneBelow};
ghost use Rattle.aml_laws.specs.FramesOpened.{IsFrameOpened};
ghost use Rattle.aml_laws.specs.Numbers.{numbers_of};
ghost use Rattle.aml_laws.specs.OperatorTerms.{GivesNothing, IsRefused};

/// After a call of a control method no name stands below it, if its body began, however that ended; a call that is
/// refused before leaves the world as it is. In either case the same frames stand as before. The end of a call
/// removes no other name. Which paths are below a control method `a_path_is_below_its_shorter_fronts` says.
#[tactic(auto, using(crate::proofs::EndOfCalls::none_below_after_call, crate::proofs::EndOfCalls::refused_call_changes_nothing, crate::proofs::EndOfCalls::other_names_stay, crate::proofs::FrameNumbers::call_is_balanced))]
pub fn calls_leave_nothing<S>()
    ensures begun { (accesses : Accesses S) (depth : ℕ) (p : List Seg) (body : List ℕ) (arguments : List Value)
        (s : State S × ℕ) (n : ℕ) →
        (body_frame depth p body arguments s.0).0 ≡ Ok n → NoneBelow
        (invoked (meaning accesses) depth p body arguments s).1.0 p }
    ensures refused { (accesses : Accesses S) (depth : ℕ) (p : List Seg) (body : List ℕ) (arguments : List Value)
        (s : State S × ℕ) (e : Refusal) →
        (body_frame depth p body arguments s.0).0 ≡ Err e →
        (invoked (meaning accesses) depth p body arguments s).1.0 ≡ s.0 }
    ensures frames { (accesses : Accesses S) (depth : ℕ) (p : List Seg) (body : List ℕ)
        (arguments : List Value) (s : State S × ℕ) →
        numbers_of (invoked (meaning accesses) depth p body arguments s).1.0.frames ≡ numbers_of s.0.frames }
    ensures others { (w : State S) (p q : List Seg) → is_below p q ≡ false →
        get (left p w).names.map q ≡ get w.names.map q }
{}

/// The body of a control method begins in a frame of its own, which has the next number: its arguments are those that
/// are handed in, in their order, and its eight locals, and those of the seven arguments that aren't handed in, hold
/// nothing. Arguments that are exchanged, an argument that is 0 where none is handed in, and a local that keeps what an
/// earlier call left in it, are refused by this.
pub fn a_call_begins_with_its_arguments<S>()
    ensures { (depth : ℕ) (p : List Seg) (body : List ℕ) (arguments : List Value) (before inside : State S) (n : ℕ) →
        body_frame depth p body arguments before ≡ (Ok n, inside) → IsFrameOpened before arguments n inside }
{}

/// A call evaluates the terms of its body in turn, in the path of its control method and one call deeper, and gives
/// what a Return in it gave; where the body comes to its end it gives nothing, and where it is refused it is refused
/// so. A call whose body doesn't begin is refused for that, and changes nothing. What a body gives is the value of the
/// call, and where it gives nothing the call has no value. It takes the steps of its body and no others. A value that
/// is lost, a body that begins elsewhere, and a call that passes where its body doesn't begin, are refused by this.
/// That a list ends at a Return `items_are_evaluated_one_after_another` says.
pub fn a_call_gives_what_its_body_returns<S>()
    ensures returned { (accesses : Accesses S) (depth : ℕ) (p : List Seg) (body : List ℕ) (arguments : List Value)
        (before inside : State S) (steps n : ℕ) → body_frame depth p body arguments before ≡ (Ok n, inside) →
        (ts : Trees) → body_terms p body before ≡ (Ok ts, before) → (end : State S × ℕ) (v : Value) →
        in_turn (meaning accesses) p (depth + 1) ts (inside, steps) ≡ (Ok (flow.Return v), end) →
        invoked (meaning accesses) depth p body arguments (before, steps) ≡
        (Ok (flow.Value v), (left p end.0, end.1)) }
    ensures nothing { (accesses : Accesses S) (depth : ℕ) (p : List Seg) (body : List ℕ) (arguments : List Value)
        (before inside : State S) (steps n : ℕ) → body_frame depth p body arguments before ≡ (Ok n, inside) →
        (ts : Trees) → body_terms p body before ≡ (Ok ts, before) → (end : State S × ℕ) →
        in_turn (meaning accesses) p (depth + 1) ts (inside, steps) ≡ (Ok flow.Next, end) →
        invoked (meaning accesses) depth p body arguments (before, steps) ≡ (Ok flow.Next, (left p end.0, end.1)) }
    ensures refused { (accesses : Accesses S) (depth : ℕ) (p : List Seg) (body : List ℕ) (arguments : List Value)
        (before inside : State S) (steps n : ℕ) → body_frame depth p body arguments before ≡ (Ok n, inside) →
        (ts : Trees) → body_terms p body before ≡ (Ok ts, before) → (end : State S × ℕ) (e : Refusal) →
        in_turn (meaning accesses) p (depth + 1) ts (inside, steps) ≡ (Err e, end) →
        invoked (meaning accesses) depth p body arguments (before, steps) ≡ (Err e, (left p end.0, end.1)) }
    ensures not_begun { (accesses : Accesses S) (depth : ℕ) (p : List Seg) (body : List ℕ) (arguments : List Value)
        (s : State S × ℕ) (e : Refusal) → (body_frame depth p body arguments s.0).0 ≡ Err e →
        invoked (meaning accesses) depth p body arguments s ≡ (Err e, s) }
    ensures value { (accesses : Accesses S) (depth : ℕ) (p : List Seg) (body : List ℕ) (arguments : List Value)
        (s after : State S × ℕ) (v : Value) →
        invoked (meaning accesses) depth p body arguments s ≡ (Ok (flow.Value v), after) →
        method_value (meaning accesses) depth p body arguments s ≡ (Ok v, after) }
    ensures no_value { (accesses : Accesses S) (depth : ℕ) (p : List Seg) (body : List ℕ) (arguments : List Value)
        (s after : State S × ℕ) → invoked (meaning accesses) depth p body arguments s ≡ (Ok flow.Next, after) →
        method_value (meaning accesses) depth p body arguments s ≡ (Ok value.Uninitialized, after) }
    ensures refusal { (accesses : Accesses S) (depth : ℕ) (p : List Seg) (body : List ℕ) (arguments : List Value)
        (s after : State S × ℕ) (e : Refusal) →
        invoked (meaning accesses) depth p body arguments s ≡ (Err e, after) →
        method_value (meaning accesses) depth p body arguments s ≡ (Err e, after) }
{}

/// A name with arguments calls the control method that it finds: its arguments are evaluated first, from left to
/// right and each once, and the call begins in the world that the last one left, with their values in that order.
/// Where one is refused, or gives nothing, the call is refused, and the arguments behind it aren't evaluated. A
/// control method takes as many as bits 0 to 2 of its flags say (ACPI 6.5, 20.2.5.2): with another number of
/// arguments the name is refused as `ArityChanged` before any of them is evaluated, and so is one with arguments that
/// finds no control method.
pub fn a_call_evaluates_its_arguments_in_turn<S>()
    ensures called { (accesses : Accesses S) (scope : List Seg) (depth : ℕ) (n : Name) (w : State S) (steps : ℕ)
        (path : List Seg) (xs : List Tree) (number flags : ℕ) (body : List ℕ) (vs : List Value)
        (after : State S × ℕ) → found w.names.map scope n ≡ Ok (path, method_entry number flags body) →
        flags % 8 ≡ length xs → GiveInTurn accesses scope depth xs (w, steps) vs after →
        meaning accesses (task scope depth (call_of n xs)) (w, suc steps) ≡
        invoked (meaning accesses) depth path body vs after }
    ensures refused { (accesses : Accesses S) (scope : List Seg) (depth : ℕ) (n : Name) (w : State S) (steps : ℕ)
        (path : List Seg) (front others : List Tree) (x : Tree) (number flags : ℕ) (body : List ℕ) (vs : List Value)
        (between after : State S × ℕ) (e : Refusal) →
        found w.names.map scope n ≡ Ok (path, method_entry number flags body) →
        flags % 8 ≡ length (front ++ x ∷ others) → GiveInTurn accesses scope depth front (w, steps) vs between →
        IsRefused accesses scope depth x between e after →
        IsRefused accesses scope depth (call_of n (front ++ x ∷ others)) (w, suc steps) e after }
    ensures no_value { (accesses : Accesses S) (scope : List Seg) (depth : ℕ) (n : Name) (w : State S) (steps : ℕ)
        (path : List Seg) (front others : List Tree) (x : Tree) (number flags : ℕ) (body : List ℕ) (vs : List Value)
        (between after : State S × ℕ) → found w.names.map scope n ≡ Ok (path, method_entry number flags body) →
        flags % 8 ≡ length (front ++ x ∷ others) → GiveInTurn accesses scope depth front (w, steps) vs between →
        GivesNothing accesses scope depth x between after → IsRefused accesses scope depth
        (call_of n (front ++ x ∷ others)) (w, suc steps) (refusal.Evaluation NoValue) after }
    ensures other_number { (accesses : Accesses S) (scope : List Seg) (depth : ℕ) (n : Name) (w : State S) (steps : ℕ)
        (path : List Seg) (xs : List Tree) (e : Entry) (m : Method) → found w.names.map scope n ≡ Ok (path, e) →
        e.object ≡ named.Method m → (m.flags.byte % 8 ≡ length xs → ⊥) → IsRefused accesses scope depth
        (call_of n xs) (w, suc steps) (refusal.Evaluation ArityChanged) (w, steps) }
    ensures no_method { (accesses : Accesses S) (scope : List Seg) (depth : ℕ) (n : Name) (w : State S) (steps : ℕ)
        (path : List Seg) (x : Tree) (xs : List Tree) (e : Entry) → found w.names.map scope n ≡ Ok (path, e) →
        IsNoMethod e.object → IsRefused accesses scope depth
        (call_of n (x ∷ xs)) (w, suc steps) (refusal.Evaluation ArityChanged) (w, steps) }
{}

/// The body of a control method is read as a body, so that a Return may stand in it, in the path of its control method,
/// within the levels that are allowed, and with the numbers of arguments that names take where it is called. Where it
/// can't be read, a call that may be made is refused for what is wrong in the body and where, and changes nothing. In it
/// a name takes as many arguments as the control method that stands at its path, or to which an alias there leads; none
/// where something else stands, or an alias that leads to something else or to nothing; and where nothing stands, as
/// many as an External told last, which is not known where none told of it. Names that are declared while a table is
/// evaluated are among them. A body that can't be read and counts as one without terms is refused by this, and one that
/// is refused as a call that is too deep.
pub fn a_body_is_read_under_its_own_path<S>()
    ensures read { (w : State S) (p : List Seg) (body : List ℕ) (ts : List Tree) →
        reading_within w.nesting.levels body p true (body_arities w) ≡ Ok ts →
        body_terms p body w ≡ (Ok (trees_of ts), w) }
    ensures refused { (w : State S) (p : List Seg) (body : List ℕ) (e : Refusal) →
        reading_within w.nesting.levels body p true (body_arities w) ≡ Err e → body_terms p body w ≡ (Err e, w) }
    ensures uncalled { (accesses : Accesses S) (depth : ℕ) (p : List Seg) (body : List ℕ) (arguments : List Value)
        (w : State S) (steps : ℕ) (e : Refusal) → depth < 32 → depth < w.nesting.calls →
        reading_within w.nesting.levels body p true (body_arities w) ≡ Err e →
        invoked (meaning accesses) depth p body arguments (w, steps) ≡ (Err e, (w, steps)) }
    ensures method { (w : State S) (path : List Seg) (e : Entry) (m : Method) → get w.names.map path ≡ Some e →
        e.object ≡ named.Method m → arity_at (body_arities w) path ≡ Some (m.flags.byte % 8) }
    ensures alias { (w : State S) (path at : List Seg) (e other : Entry) (m : Method) →
        get w.names.map path ≡ Some e → e.object ≡ named.Alias at → get w.names.map at ≡ Some other →
        other.object ≡ named.Method m → arity_at (body_arities w) path ≡ Some (m.flags.byte % 8) }
    ensures no_method { (w : State S) (path : List Seg) (e : Entry) → get w.names.map path ≡ Some e →
        IsNoMethod e.object → ((at : List Seg) → e.object ≡ named.Alias at → ⊥) →
        arity_at (body_arities w) path ≡ Some 0 }
    ensures other_alias { (w : State S) (path at : List Seg) (e : Entry) → get w.names.map path ≡ Some e →
        e.object ≡ named.Alias at →
        ((other : Entry) → get w.names.map at ≡ Some other → IsNoMethod other.object) →
        arity_at (body_arities w) path ≡ Some 0 }
    ensures external { (w : State S) (path : List Seg) → get w.names.map path ≡ None → (front back : List Arity)
        (count : ℕ) → w.arities ≡ front ++ named_with path count ∷ back → NoneNamed path back →
        arity_at (body_arities w) path ≡ Some count }
    ensures nothing { (w : State S) (path : List Seg) → get w.names.map path ≡ None → NoneNamed path w.arities →
        arity_at (body_arities w) path ≡ None }
{}
