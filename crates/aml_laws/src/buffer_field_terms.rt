//! Buffer fields, as their terms declare them.
ghost use Rattle.std.specs.Prelude.{◌≡◌, ◌<◌, ◌≤◌, ◌+◌, ◌*◌, ℕ, suc, List, Ok};
ghost use Rattle.ar_space.specs.Accesses.{Accesses};
ghost use Rattle.ar_space.specs.declared.refusal.Refusal.{Refusal};
ghost use Rattle.aml_path.specs.declared.segment.Seg.{Seg};
ghost use Rattle.aml_path.specs.Paths.{Name, resolved};
ghost use Rattle.aml_grammar.specs.Tree.{Tree};
ghost use Rattle.aml_grammar.specs.declared.opcode.Opcode.{Opcode};
ghost use Rattle.aml_objects.specs.declared.entry.NamedObject.TheVariants as named;
ghost use Rattle.aml_objects.specs.declared.value.Value.{Value};
ghost use Rattle.aml_objects.specs.declared.value.Value.TheVariants as value;
ghost use Rattle.aml_world.specs.state.State.{State};
ghost use Rattle.aml_world.specs.state.Readings.{integer_in};
ghost use Rattle.aml_laws.specs.OperatorTerms.{GivesValue, IsRefused};
ghost use Rattle.aml_laws.specs.TestTerms.{TwoValues};
ghost use Rattle.aml_laws.specs.ObjectTerms.{Passes};
ghost use Rattle.aml_laws.specs.DeclaredObjects.{IsFree, with_name};
ghost use Rattle.aml_laws.specs.BufferFieldTerms.{create, create_field, HasSize, HasBits, bits_from, NamesNoBits, CountsNoBits};

/// CreateByteField, CreateWordField, CreateDWordField and CreateQWordField declare the 8, 16, 32 and 64 bits of their
/// buffer from the byte on that their index counts, CreateBitField the one bit that it counts, and CreateField as
/// many bits as it says from the bit on that it counts (ACPI 6.5, 19.6: CreateField and its like). The buffer has to
/// have these bits, and the path has to be free. An index of bits that counts bytes is refused by this, and one of
/// bytes that counts bits.
pub fn a_buffer_field_is_declared_as_its_term_says<S>()
    ensures sized { (accesses : Accesses S) (scope : List Seg) (depth : ℕ) (n : Name) (path : List Seg) →
        resolved n scope ≡ Ok path → (w : State S) (steps o i : ℕ) (after : State S × ℕ) → IsFree depth after.0 path →
        (op : Opcode) (step count : ℕ) (x y : Tree) (u : Value) → HasSize op step count →
        TwoValues accesses scope depth x y (w, steps) (value.Buffer o) u after →
        integer_in u after.0 ≡ (Ok i, after.0) → HasBits after.0 o (step * i + count) →
        Passes accesses scope depth (create op x y n) (w, suc steps)
        (with_name after.0 path (named.BufferField (bits_from o (step * i) count)), after.1) }
    ensures any { (accesses : Accesses S) (scope : List Seg) (depth : ℕ) (n : Name) (path : List Seg) →
        resolved n scope ≡ Ok path → (w : State S) (steps o i : ℕ) (after : State S × ℕ) → IsFree depth after.0 path →
        (x y z : Tree) (one other : State S × ℕ) (u v : Value) (k : ℕ) →
        GivesValue accesses scope depth x (w, steps) (value.Buffer o) one →
        GivesValue accesses scope depth y one u other → GivesValue accesses scope depth z other v after →
        integer_in u after.0 ≡ (Ok i, after.0) → integer_in v after.0 ≡ (Ok k, after.0) → 0 < k → k ≤ 8388608 →
        HasBits after.0 o (i + k) → Passes accesses scope depth (create_field x y z n) (w, suc steps)
        (with_name after.0 path (named.BufferField (bits_from o i k)), after.1) }
{}

/// CreateByteField, CreateField and their like are refused where their operands name no bits of a buffer, once these
/// are evaluated (ACPI 6.5, 19.6: CreateField and its like): as `WrongType` where the source is no buffer; as the
/// conversion of the index is, and of the number of bits that CreateField takes; and by the limit of fields where the
/// buffer ends before the field does, or CreateField asks for no bit or for more than 8,388,608. No name is declared
/// then. A field of an integer, one without a bit, and one that goes on behind the end of its buffer, are refused by
/// this.
pub fn a_buffer_field_asks_for_bits_of_a_buffer<S>()
    ensures sized { (accesses : Accesses S) (scope : List Seg) (depth : ℕ) (n : Name) (w : State S) (steps : ℕ)
        (source index : Value) (after : State S × ℕ) (op : Opcode) (step count : ℕ) (x y : Tree) →
        HasSize op step count → TwoValues accesses scope depth x y (w, steps) source index after → (e : Refusal) →
        NamesNoBits after.0 source index step count e →
        IsRefused accesses scope depth (create op x y n) (w, suc steps) e after }
    ensures any { (accesses : Accesses S) (scope : List Seg) (depth : ℕ) (n : Name) (w : State S) (steps : ℕ)
        (source index : Value) (after : State S × ℕ) (x y z : Tree) (one other : State S × ℕ) (count : Value) →
        GivesValue accesses scope depth x (w, steps) source one → GivesValue accesses scope depth y one index other →
        GivesValue accesses scope depth z other count after → (e : Refusal) →
        CountsNoBits after.0 source index count e →
        IsRefused accesses scope depth (create_field x y z n) (w, suc steps) e after }
{}
