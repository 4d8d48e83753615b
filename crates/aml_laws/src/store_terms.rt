//! Store and CopyObject terms.
ghost use Rattle.std.specs.Prelude.{ℕ, suc, List};
ghost use Rattle.ar_space.specs.Accesses.{Accesses};
ghost use Rattle.aml_path.specs.declared.segment.Seg.{Seg};
ghost use Rattle.aml_grammar.specs.Tree.{Tree, Part};
ghost use Rattle.aml_grammar.specs.declared.opcode.Opcode.TheVariants as opcodes;
ghost use Rattle.aml_objects.specs.declared.value.Value.{Value};
ghost use Rattle.aml_world.specs.state.State.{State};
ghost use Rattle.aml_laws.specs.OperatorTerms.{one_to, StoresTo, GivesValue};
ghost use Rattle.aml_laws.specs.StoreTerms.{CopiesTo};

/// A Store evaluates its source and stores what this gives to its target, and a CopyObject puts a copy of it there
/// (ACPI 6.5, 19.6: CopyObject, Store). The value of both is what the source gave. A Store that stores nothing, one
/// that copies without conversion, and a CopyObject that converts, are refused by this.
pub fn stores_and_copies_give_their_source<S>()
    ensures stored { (accesses : Accesses S) (scope : List Seg) (depth : ℕ) (x : Tree) (p : Part) (w : State S)
        (steps : ℕ) (v : Value) (after : State S × ℕ) (end : State S) →
        GivesValue accesses scope depth x (w, steps) v after → StoresTo scope p v after.0 end →
        GivesValue accesses scope depth (one_to opcodes.Store x p) (w, suc steps) v (end, after.1) }
    ensures copied { (accesses : Accesses S) (scope : List Seg) (depth : ℕ) (x : Tree) (p : Part) (w : State S)
        (steps : ℕ) (v : Value) (after : State S × ℕ) (end : State S) →
        GivesValue accesses scope depth x (w, steps) v after → CopiesTo scope p v after.0 end →
        GivesValue accesses scope depth (one_to opcodes.CopyObject x p) (w, suc steps) v (end, after.1) }
{}
