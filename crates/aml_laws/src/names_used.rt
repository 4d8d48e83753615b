//! Names, locals and arguments where values stand.
ghost use Rattle.std.specs.Prelude.{◌≡◌, ◌≤◌, ◌<◌, ◌∷◌, [], ℕ, suc, List, length, slice_get, Some, Ok, Err};
ghost use Rattle.ar_space.specs.Accesses.{Accesses};
ghost use Rattle.ar_space.specs.declared.integer_width.IntegerWidth.{IntegerWidth};
ghost use Rattle.ar_space.specs.declared.refusal.Refusal.{Refusal};
ghost use Rattle.ar_space.specs.declared.refusal.Refusal.TheVariants as refusal;
ghost use Rattle.ar_space.specs.declared.refusal.EvaluationFault.TheVariants.{ArityChanged, CallDepth, DepthSetting, NoValue};
ghost use Rattle.ar_space.specs.declared.refusal.ValueFault.TheVariants.{WrongType};
ghost use Rattle.aml_path.specs.declared.segment.Seg.{Seg};
ghost use Rattle.aml_path.specs.Paths.{Name};
ghost use Rattle.aml_grammar.specs.Tree.{Tree};
ghost use Rattle.aml_grammar.specs.declared.opcode.Opcode.{Opcode};
ghost use Rattle.aml_objects.specs.declared.entry.Entry.{Entry};
ghost use Rattle.aml_objects.specs.declared.object.Object.TheVariants as object;
ghost use Rattle.aml_objects.specs.declared.value.Reference.TheVariants as reference;
ghost use Rattle.aml_objects.specs.declared.value.Slot.{Slot};
ghost use Rattle.aml_objects.specs.declared.value.Value.{Value};
ghost use Rattle.aml_objects.specs.declared.value.Value.TheVariants as value;
ghost use Rattle.aml_namespace.specs.Search.{found};
ghost use Rattle.aml_world.specs.declared.state.settings.EvaluationSettings.{EvaluationSettings};
ghost use Rattle.aml_world.specs.state.Given as given;
ghost use Rattle.aml_world.specs.state.Given.{Given};
ghost use Rattle.aml_world.specs.state.Importing.{imported};
ghost use Rattle.aml_world.specs.state.Predefined.{fresh_as, predefined};
ghost use Rattle.aml_world.specs.state.State.{State};
ghost use Rattle.aml_meaning.specs.Calling.{called, answered};
ghost use Rattle.aml_laws.specs.Becomes.{Becomes};
ghost use Rattle.aml_laws.specs.CallTerms.{call_of, IsNoMethod};
ghost use Rattle.aml_laws.specs.Ends.{EndsAs};
ghost use Rattle.aml_laws.specs.JoinedTerms.{with_object, Fits};
ghost use Rattle.aml_laws.specs.NamesWritten.{from_root};
ghost use Rattle.aml_laws.specs.StoredNames.{data_entry};
ghost use Rattle.aml_laws.specs.StoredParts.{HoldsNothing};
ghost use Rattle.aml_laws.specs.OperatorTerms.{alone, NamesSlot, SlotHolds, SlotIsEmpty, GivesValue, GivesNothing, Gives, IsRefused};
ghost use Rattle.aml_laws.specs.TestTerms.{IsTruth};
ghost use Rattle.aml_laws.specs.NamesUsed.{use_of, IsGivenBy, call_of_one, IsAmong, FindsOsi, AsksOsi, AsksOsiOf};

/// A name that holds an integer, a string, a buffer or a package gives this value where a value stands, and not a
/// copy of it; one that holds a reference gives a reference to itself, and so does one that holds neither a value nor
/// the bits of a field and is no control method, as that of a device. A local and an argument give what they hold,
/// and are refused as `NoValue` where they hold nothing yet. Each takes a step and changes nothing. A device that
/// stands for a reference to the root is refused by this.
pub fn a_name_gives_what_it_holds<S>()
    ensures names { (accesses : Accesses S) (scope : List Seg) (depth : ℕ) (w : State S) (steps : ℕ) (n : Name)
        (path : List Seg) (number : ℕ) (v r : Value) →
        found w.names.map scope n ≡ Ok (path, data_entry number v) → IsGivenBy number v r →
        GivesValue accesses scope depth (use_of n) (w, suc steps) r (w, steps) }
    ensures no_data { (accesses : Accesses S) (scope : List Seg) (depth : ℕ) (w : State S) (steps : ℕ) (n : Name)
        (path : List Seg) (e : Entry) → found w.names.map scope n ≡ Ok (path, e) → HoldsNothing e.object →
        IsNoMethod e.object → GivesValue accesses scope depth (use_of n) (w, suc steps)
        (value.Reference (reference.Name e.number)) (w, steps) }
    ensures slots { (accesses : Accesses S) (scope : List Seg) (depth : ℕ) (w : State S) (steps : ℕ) (op : Opcode)
        (s : Slot) (v : Value) → NamesSlot op s → SlotHolds w s v →
        GivesValue accesses scope depth (alone op) (w, suc steps) v (w, steps) }
    ensures empty { (accesses : Accesses S) (scope : List Seg) (depth : ℕ) (w : State S) (steps : ℕ) (op : Opcode)
        (s : Slot) → NamesSlot op s → SlotIsEmpty w s →
        IsRefused accesses scope depth (alone op) (w, suc steps) (refusal.Evaluation NoValue) (w, steps) }
{}

/// The predefined control method \_OSI, called by any name with a string, is True where the text is one of those that
/// its world knows, and else False; called with any other value it is refused as one of the wrong type. It changes
/// nothing. Which texts a world knows `evaluation_keeps_the_texts_that_osi_knows` says. One that knows texts that begin
/// alike, one that answers 1, and one that answers False of what is no string, are refused by this.
pub fn osi_tells_of_known_texts<S>()
    ensures text { (accesses : Accesses S) (scope : List Seg) (depth : ℕ) (n : Name) (x : Tree) (w : State S)
        (steps : ℕ) (text : List ℕ) (after : State S × ℕ) → AsksOsi accesses scope depth n x (w, steps) text after →
        (k : ℕ) × IsTruth after.0.width (IsAmong text after.0.osi) k ×
        Gives accesses scope depth (call_of_one n x) (w, suc steps) k after }
    ensures no_string { (accesses : Accesses S) (scope : List Seg) (depth : ℕ) (n : Name) (x : Tree) (w : State S)
        (steps : ℕ) (v : Value) (after : State S × ℕ) → AsksOsiOf accesses scope depth n x (w, steps) v after →
        ((o : ℕ) → v ≡ value.String o → ⊥) → IsRefused accesses scope depth
        (call_of_one n x) (w, suc steps) (refusal.Value WrongType) after }
{}

/// A caller evaluates \_OSI by its path or by an alias. With one string it returns True if its world knows the text, and
/// else False. With one argument that is no string, or is uninitialized, it is refused as `WrongType`; with any other
/// number of arguments it is refused as `ArityChanged`. It takes no step and changes nothing. Its answer is the same for
/// data that is handed in: the world has what was handed in, such as a new object for a text that fits, and all mutexes
/// are free. With another number of arguments none is handed in. An \_OSI that returns False to every caller is refused
/// by this.
pub fn osi_answers_its_callers<S>()
    ensures text { (accesses : Accesses S) (p : List Seg) (w : State S) (steps : ℕ) → FindsOsi w [] (from_root p) →
        (o : ℕ) (text : List ℕ) → slice_get w.objects o ≡ Some (object.String text) →
        (k : ℕ) × IsTruth w.width (IsAmong text w.osi) k ×
        (called accesses p (value.String o ∷ []) (w, steps) ≡ (Ok (value.Integer k), (w, steps))) }
    ensures no_string { (accesses : Accesses S) (p : List Seg) (w : State S) (steps : ℕ) →
        FindsOsi w [] (from_root p) → (v : Value) → ((o : ℕ) → v ≡ value.String o → ⊥) →
        called accesses p (v ∷ []) (w, steps) ≡ (Err (refusal.Value WrongType), (w, steps)) }
    ensures other_number { (accesses : Accesses S) (p : List Seg) (w : State S) (steps : ℕ) →
        FindsOsi w [] (from_root p) → (vs : List Value) → (length vs ≡ 1 → ⊥) →
        called accesses p vs (w, steps) ≡ (Err (refusal.Evaluation ArityChanged), (w, steps)) }
    ensures text_handed_in { (accesses : Accesses S) (p : List Seg) (w : State S) (steps : ℕ) →
        FindsOsi w [] (from_root p) → (text : List ℕ) → Fits w text →
        (k : ℕ) × IsTruth w.width (IsAmong text w.osi) k ×
        EndsAs (Ok (given.Integer k), (with_object w (object.String text), steps))
        (answered accesses p (given.Text text ∷ []) steps w) }
    ensures no_text_handed_in { (accesses : Accesses S) (p : List Seg) (w : State S) (steps : ℕ) →
        FindsOsi w [] (from_root p) → (g : Given) → ((text : List ℕ) → g ≡ given.Text text → ⊥) → (v : Value)
        (after : State S) → imported g w ≡ (Ok v, after) → EndsAs (Err (refusal.Value WrongType), (after, steps))
        (answered accesses p (g ∷ []) steps w) }
    ensures other_number_handed_in { (accesses : Accesses S) (p : List Seg) (w : State S) (steps : ℕ) →
        FindsOsi w [] (from_root p) → (gs : List Given) → (length gs ≡ 1 → ⊥) →
        EndsAs (Err (refusal.Evaluation ArityChanged), (w, steps)) (answered accesses p gs steps w) }
{}

/// The texts that \_OSI knows are those that its world was made with: no evaluation changes them, however it ends. A
/// new world that knows none of them is refused by this.
#[tactic(auto, using(crate::proofs::OsiKept::osi_is_kept, crate::proofs::OsiKept::osi_is_given))]
pub fn evaluation_keeps_the_texts_that_osi_knows<S>()
    ensures kept { (accesses : Accesses S) (w v : State S) → Becomes accesses w v → v.osi ≡ w.osi }
    ensures given { (accesses : Accesses S) (settings : EvaluationSettings) (width : IntegerWidth) (osi : List (List ℕ))
        (space : S) (w : State S) → Becomes accesses (predefined (fresh_as settings width osi space)).1 w →
        w.osi ≡ osi }
{}

/// A name that isn't found is refused where a value stands as the search for it is, with arguments or without, and none
/// of these is evaluated: it takes its own step and changes nothing. So is the value of an object at a path where none
/// is found, and its answer, whatever is handed in. One that is refused for its number of arguments is refused by this.
pub fn a_name_that_is_not_found_is_refused<S>()
    ensures term { (accesses : Accesses S) (scope : List Seg) (depth : ℕ) (w : State S) (steps : ℕ) (n : Name)
        (xs : List Tree) (e : Refusal) → found w.names.map scope n ≡ Err e →
        IsRefused accesses scope depth (call_of n xs) (w, suc steps) e (w, steps) }
    ensures value { (accesses : Accesses S) (p : List Seg) (vs : List Value) (w : State S) (steps : ℕ) (e : Refusal) →
        found w.names.map [] (from_root p) ≡ Err e → called accesses p vs (w, steps) ≡ (Err e, (w, steps)) }
    ensures answer { (accesses : Accesses S) (p : List Seg) (gs : List Given) (w : State S) (steps : ℕ) (e : Refusal) →
        found w.names.map [] (from_root p) ≡ Err e →
        EndsAs (Err e, (w, steps)) (answered accesses p gs steps w) }
{}

/// A call of the predefined control method \_OSI is a call as any other: its argument is evaluated first, and where
/// this is refused, or gives nothing, the call is refused so, as `NoValue` in the latter case. Then it is refused
/// inside 32 calls of control methods as `CallDepth`, and inside as many as the world allows as `DepthSetting`,
/// whatever its argument gave. One that answers at any depth, and one that looks at the depth first, are refused by
/// this.
pub fn osi_is_called_as_control_methods_are<S>()
    ensures too_deep { (accesses : Accesses S) (scope : List Seg) (depth : ℕ) (n : Name) (x : Tree) (w : State S)
        (steps : ℕ) (v : Value) (after : State S × ℕ) → FindsOsi w scope n →
        GivesValue accesses scope depth x (w, steps) v after → 32 ≤ depth → IsRefused accesses scope depth
        (call_of_one n x) (w, suc steps) (refusal.Evaluation CallDepth) after }
    ensures setting { (accesses : Accesses S) (scope : List Seg) (depth : ℕ) (n : Name) (x : Tree) (w : State S)
        (steps : ℕ) (v : Value) (after : State S × ℕ) → FindsOsi w scope n →
        GivesValue accesses scope depth x (w, steps) v after → depth < 32 → after.0.nesting.calls ≤ depth →
        IsRefused accesses scope depth (call_of_one n x) (w, suc steps) (refusal.Evaluation DepthSetting) after }
    ensures refused { (accesses : Accesses S) (scope : List Seg) (depth : ℕ) (n : Name) (x : Tree) (w : State S)
        (steps : ℕ) (e : Refusal) (after : State S × ℕ) → FindsOsi w scope n →
        IsRefused accesses scope depth x (w, steps) e after →
        IsRefused accesses scope depth (call_of_one n x) (w, suc steps) e after }
    ensures no_value { (accesses : Accesses S) (scope : List Seg) (depth : ℕ) (n : Name) (x : Tree) (w : State S)
        (steps : ℕ) (after : State S × ℕ) → FindsOsi w scope n →
        GivesNothing accesses scope depth x (w, steps) after → IsRefused accesses scope depth
        (call_of_one n x) (w, suc steps) (refusal.Evaluation NoValue) after }
{}
