//! Terms that put what they give into a target.
ghost use Rattle.std.specs.Prelude.{◌≡◌, ◌<◌, ◌+◌, ◌%◌, ◌^◌, ℕ, suc, List, Ok};
ghost use Rattle.ar_space.specs.Accesses.{Accesses};
ghost use Rattle.ar_space.specs.Change.{Change};
ghost use Rattle.ar_space.specs.declared.refusal.Refusal.{Refusal};
ghost use Rattle.aml_path.specs.declared.segment.Seg.{Seg};
ghost use Rattle.aml_path.specs.Paths.{Name};
ghost use Rattle.aml_grammar.specs.Tree.{Tree, Part, name};
ghost use Rattle.aml_grammar.specs.declared.opcode.Opcode.{Opcode};
ghost use Rattle.aml_grammar.specs.declared.opcode.Opcode.TheVariants as opcodes;
ghost use Rattle.aml_objects.specs.declared.entry.Field.{Field};
ghost use Rattle.aml_objects.specs.declared.value.Value.{Value};
ghost use Rattle.aml_objects.specs.declared.value.Value.TheVariants as value;
ghost use Rattle.aml_convert.specs.Integers.{bits_of};
ghost use Rattle.aml_world.specs.declared.values.store_target.StoreTarget.{StoreTarget};
ghost use Rattle.aml_world.specs.declared.values.store_target.StoreTarget.TheVariants as targets;
ghost use Rattle.aml_world.specs.declared.values.store_target.Stored.{Stored};
ghost use Rattle.aml_world.specs.declared.values.store_target.Stored.TheVariants as store;
ghost use Rattle.aml_world.specs.state.State.{State};
ghost use Rattle.aml_world.specs.values.Stores.{stored, copied_to};
ghost use Rattle.aml_world.specs.values.FormedStores.{formed_to};
ghost use Rattle.aml_laws.specs.OperatorTerms.{divide, counting, NamesTarget, Gives, IsRefused, TwoIntegers, IsDivision};
ghost use Rattle.aml_laws.specs.FieldNames.{NamesField};
ghost use Rattle.aml_laws.specs.TargetsNamed.{NamesAt};
ghost use Rattle.aml_laws.specs.UncountedTargets.{HoldsNoValue};
ghost use Rattle.aml_laws.specs.PutIntoTargets.{PutsBy, PutsWhatItGives, IsTaken, IsNotTaken, IsCount, CountsTarget, CountsFieldAt, CountsNothing};

/// A Store, a CopyObject, an operator, a conversion and a Mid find their target once their value is formed, and put
/// this there, also where the target is a RefOf, a DerefOf or an Index (ACPI 6.5, 19.3.5.8 and 20.2.2: SuperName,
/// Target). Where a field stands, as a name finds it or a reference refers to it, the value is converted to bytes, and
/// these are written as its bits. This is said of each term that gives a value without a target, and its value is that
/// one: what no target takes `a_store_to_no_target_changes_nothing` says. Where the target isn't found or doesn't take
/// the value, or its field can't be written, the term is refused so. A term that stores nothing through a reference,
/// one that writes no field that is reached so, and one that is done where its target refuses, are refused by this.
pub fn a_term_puts_what_it_gives_into_its_target<S>()
    ensures { (put : StoreTarget → Value → Change (State S) Stored) (t : Part → Tree) → PutsBy put t →
        PutsWhatItGives S put t }
{}

/// Divide puts the remainder into its first target, and then the quotient into its second one, and gives the quotient.
/// Where the first doesn't take its value, the term is refused before the second takes anything; where the second
/// doesn't, it is refused, and the first keeps what it took. A Divide that puts one of the two into both, and one that
/// goes on where its first target refuses, are refused by this.
pub fn a_division_puts_both_results_into_its_targets<S>()
    ensures { (accesses : Accesses S) (scope : List Seg) (depth : ℕ) (x y : Tree) (w : State S) (steps a : ℕ)
        (after : State S × ℕ) (b : ℕ) → TwoIntegers accesses scope depth x y (w, steps) a b after → 0 < b → (n : ℕ) ×
        (m : ℕ) × IsDivision a b n m × (
        ((r q : Part) (between end : State S × ℕ) →
        IsTaken accesses scope depth stored r (value.Integer m) after between →
        IsTaken accesses scope depth stored q (value.Integer n) between end →
        Gives accesses scope depth (divide x y r q) (w, suc steps) n end) ×
        ((r q : Part) (e : Refusal) (end : State S × ℕ) →
        IsNotTaken accesses scope depth stored r (value.Integer m) after e end →
        IsRefused accesses scope depth (divide x y r q) (w, suc steps) e end) ×
        ((r q : Part) (e : Refusal) (between end : State S × ℕ) →
        IsTaken accesses scope depth stored r (value.Integer m) after between →
        IsNotTaken accesses scope depth stored q (value.Integer n) between e end →
        IsRefused accesses scope depth (divide x y r q) (w, suc steps) e end)
        ) }
{}

/// Increment and Decrement find their target, read what stands there, and put the next integer back, or the one before
/// it; this is their value. So they do where a RefOf, a DerefOf or an Index names the target. Where no target is found,
/// what stands there doesn't convert to an integer or can't be read, or the target doesn't take what they counted, they
/// are refused so. One that stores nothing through a reference, and one that is done where its target refuses, are
/// refused by this.
pub fn a_count_is_put_back_into_its_target<S>()
    ensures up { CountsTarget S opcodes.Increment (λ width a n. n ≡ (a + 1) % 2 ^ bits_of width) }
    ensures down { CountsTarget S opcodes.Decrement (λ width a n.
        (n < 2 ^ bits_of width) × ((n + 1) % 2 ^ bits_of width ≡ a % 2 ^ bits_of width)) }
    ensures field_up { CountsFieldAt S opcodes.Increment (λ width a n. n ≡ (a + 1) % 2 ^ bits_of width) }
    ensures field_down { CountsFieldAt S opcodes.Decrement (λ width a n.
        (n < 2 ^ bits_of width) × ((n + 1) % 2 ^ bits_of width ≡ a % 2 ^ bits_of width)) }
    ensures refused { (accesses : Accesses S) (scope : List Seg) (depth : ℕ) (op : Opcode) → IsCount op → (p : Part)
        (w : State S) (steps : ℕ) (e : Refusal) (after : State S × ℕ) →
        CountsNothing accesses scope depth p (w, steps) e after →
        IsRefused accesses scope depth (counting op p) (w, suc steps) e after }
{}

/// Increment and Decrement of a target where no value stands are refused once it is found, and nothing is stored:
/// Debug, and a name that holds neither a value nor a field, as a device, by itself or behind a reference, as
/// `WrongType`; a local or an argument that holds nothing yet, by itself or behind a reference, and an element of a
/// package that holds nothing, as `NoValue`; and a local or an argument outside of control methods as `DeadReference`
/// (ACPI 6.5, 19.6: Decrement, Increment). Debug, a slot that holds nothing, or a device that counts from 0 is refused
/// by this.
pub fn a_count_of_what_holds_no_value_is_refused<S>()
    ensures { (accesses : Accesses S) (scope : List Seg) (depth : ℕ) (op : Opcode) → IsCount op → (p : Part) (w : State S)
        (steps : ℕ) (t : StoreTarget) (between : State S × ℕ) → NamesAt accesses scope depth (w, steps) p t between →
        (e : Refusal) → HoldsNoValue between.0 t e →
        IsRefused accesses scope depth (counting op p) (w, suc steps) e between }
{}

/// A name that finds a field hands whatever is put there on to this field: what is stored, what is copied, and what a
/// conversion formed. This changes nothing yet. A name of a field that takes its value itself, and one that is done,
/// are refused by this.
pub fn a_name_of_a_field_hands_on_what_it_takes<S>()
    ensures { (scope : List Seg) (w : State S) (n : Name) (f : Field) (bits : ℕ) → NamesField w scope n f bits →
        (path : List Seg) × NamesTarget scope w (name n) (targets.Name path) × ((v : Value) →
        (stored (targets.Name path) v w ≡ (Ok (store.Field f), w)) ×
        (copied_to (targets.Name path) v w ≡ (Ok (store.Field f), w)) ×
        (formed_to (targets.Name path) v w ≡ (Ok (store.Field f), w))) }
{}
