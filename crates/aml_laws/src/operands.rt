//! What values are as operands of operators.
ghost use Rattle.std.specs.Prelude.{◌≡◌, ◌≤◌, ◌*◌, ◌^◌, ◌%◌, ℕ, suc, List, [], ◌∷◌, ◌++◌, length, take, slice_get, Some, Ok, Err};
ghost use Rattle.std.specs.Int.Digits.{number_from_digits};
ghost use Rattle.ar_space.specs.Accesses.{Accesses};
ghost use Rattle.ar_space.specs.declared.refusal.Refusal.{Refusal};
ghost use Rattle.ar_space.specs.declared.refusal.Refusal.TheVariants as refusal;
ghost use Rattle.ar_space.specs.declared.refusal.EvaluationFault.TheVariants.{NoValue};
ghost use Rattle.ar_space.specs.declared.refusal.ValueFault.TheVariants.{EmptyValue, WrongType};
ghost use Rattle.aml_path.specs.declared.segment.Seg.{Seg};
ghost use Rattle.aml_path.specs.Paths.{Name};
ghost use Rattle.aml_grammar.specs.Tree.{Tree, Part};
ghost use Rattle.aml_grammar.specs.declared.opcode.Opcode.{Opcode};
ghost use Rattle.aml_grammar.specs.declared.opcode.Opcode.TheVariants as opcodes;
ghost use Rattle.aml_objects.specs.Contents.{Content, content_in};
ghost use Rattle.aml_objects.specs.declared.object.Object.TheVariants as object;
ghost use Rattle.aml_objects.specs.declared.value.Value.{Value};
ghost use Rattle.aml_objects.specs.declared.value.Value.TheVariants as value;
ghost use Rattle.aml_convert.specs.Integers.{bits_of, bytes_of};
ghost use Rattle.aml_convert.specs.Conversions.{to_buffer_of};
ghost use Rattle.aml_world.specs.declared.state.profile.Profile.TheVariants as profiles;
ghost use Rattle.aml_world.specs.state.State.{State};
ghost use Rattle.aml_world.specs.state.Readings.{integer_in};
ghost use Rattle.aml_laws.specs.OperandTerms.{TakesValues, ComesTo};
ghost use Rattle.aml_laws.specs.IntegerOperands.{AsksInteger, IsIndexed};
ghost use Rattle.aml_laws.specs.JoinedTerms.{middle, HasBytes};
ghost use Rattle.aml_laws.specs.OperatorTerms.{of_two, two_to, divide, GivesNothing, GivesValue, IsRefused};
ghost use Rattle.aml_laws.specs.RegionTerms.{operation_region};
ghost use Rattle.aml_laws.specs.StoredParts.{IsNoData};
ghost use Rattle.aml_laws.specs.TestTerms.{TwoValues};
ghost use Rattle.aml_laws.specs.IntegersOfValues.{lowest_first, AreDigits, EndsDigits, TakesIntegers};

/// Where an operator takes an integer, an integer is itself; a buffer is the number of its first bytes, as many as an
/// integer has, the lowest first; and a string is that of the hexadecimal digits that it begins with, of either case,
/// at most as many as an integer has. An empty string, an empty buffer, a package, a reference and what holds no value
/// are refused, and nothing changes. The law excludes bytes in the other order, decimal digits, digits of one case
/// alone, and a reference that is 0.
pub fn operands_convert_to_integers<S>()
    ensures integer { (w : State S) (n : ℕ) → integer_in (value.Integer n) w ≡ (Ok n, w) }
    ensures buffer { (w : State S) (o b : ℕ) (bytes : List ℕ) →
        slice_get w.objects o ≡ Some (object.Buffer (b ∷ bytes)) →
        integer_in (value.Buffer o) w ≡ (Ok (lowest_first (take (bytes_of w.width) (b ∷ bytes))), w) }
    ensures string { (w : State S) (o c : ℕ) (text digits numbers rest : List ℕ) →
        slice_get w.objects o ≡ Some (object.String (c ∷ text)) → c ∷ text ≡ digits ++ rest →
        AreDigits digits numbers → length digits ≤ 2 * bytes_of w.width →
        EndsDigits (2 * bytes_of w.width) digits rest →
        integer_in (value.String o) w ≡ (Ok (number_from_digits 16 numbers % 2 ^ bits_of w.width), w) }
    ensures empty { (w : State S) (o : ℕ) → (slice_get w.objects o ≡ Some (object.String []) →
        integer_in (value.String o) w ≡ (Err (refusal.Value EmptyValue), w)) ×
        (slice_get w.objects o ≡ Some (object.Buffer []) →
        integer_in (value.Buffer o) w ≡ (Err (refusal.Value EmptyValue), w)) }
    ensures list { (w : State S) (o : ℕ) → integer_in (value.Package o) w ≡ (Err (refusal.Value WrongType), w) }
    ensures no_data { (w : State S) (v : Value) → IsNoData v → integer_in v w ≡ (Err (refusal.Value WrongType), w) }
{}

/// An operator that takes two integers, Divide, LAnd and LOr among them, evaluates both operands. It is then refused as
/// the conversion of the first one is, or, where the first converts, as that of the second, and nothing is stored. The
/// law excludes an operator that converts its second operand first.
pub fn operands_that_do_not_convert_are_refused<S>()
    ensures first { (accesses : Accesses S) (scope : List Seg) (depth : ℕ) (op : Opcode) (x y : Tree) (p : Part)
        (w : State S) (steps : ℕ) (v u : Value) (after : State S × ℕ) (e : Refusal) → TakesIntegers op →
        TwoValues accesses scope depth x y (w, steps) v u after → integer_in v after.0 ≡ (Err e, after.0) →
        IsRefused accesses scope depth (two_to op x y p) (w, suc steps) e after }
    ensures second { (accesses : Accesses S) (scope : List Seg) (depth : ℕ) (op : Opcode) (x y : Tree) (p : Part)
        (w : State S) (steps : ℕ) (v u : Value) (after : State S × ℕ) (e : Refusal) (a : ℕ) → TakesIntegers op →
        TwoValues accesses scope depth x y (w, steps) v u after → integer_in v after.0 ≡ (Ok a, after.0) →
        integer_in u after.0 ≡ (Err e, after.0) →
        IsRefused accesses scope depth (two_to op x y p) (w, suc steps) e after }
    ensures first_of_others { (accesses : Accesses S) (scope : List Seg) (depth : ℕ) (x y : Tree) (w : State S)
        (steps : ℕ) (v u : Value) (after : State S × ℕ) → TwoValues accesses scope depth x y (w, steps) v u after →
        (e : Refusal) → integer_in v after.0 ≡ (Err e, after.0) → (p q : Part) →
        IsRefused accesses scope depth (divide x y p q) (w, suc steps) e after ×
        IsRefused accesses scope depth (of_two opcodes.LAnd x y) (w, suc steps) e after ×
        IsRefused accesses scope depth (of_two opcodes.LOr x y) (w, suc steps) e after }
    ensures second_of_others { (accesses : Accesses S) (scope : List Seg) (depth : ℕ) (x y : Tree) (w : State S)
        (steps : ℕ) (v u : Value) (after : State S × ℕ) → TwoValues accesses scope depth x y (w, steps) v u after →
        (e : Refusal) (a : ℕ) → integer_in v after.0 ≡ (Ok a, after.0) → integer_in u after.0 ≡ (Err e, after.0) →
        (p q : Part) → IsRefused accesses scope depth (divide x y p q) (w, suc steps) e after ×
        IsRefused accesses scope depth (of_two opcodes.LAnd x y) (w, suc steps) e after ×
        IsRefused accesses scope depth (of_two opcodes.LOr x y) (w, suc steps) e after }
{}

/// A term that takes the integer of an operand is refused where the operand's value doesn't convert to one, by the
/// refusal of that conversion; nothing is stored, formed or declared (ACPI 6.5, 19.3.5.7). Refused once this operand is
/// evaluated are Not, FindSetLeftBit, FindSetRightBit and LNot, and in the wide profile FromBCD and ToBCD; If, and
/// While in its first turn, by the condition; and Buffer and VarPackage, by the size. Refused once all operands are
/// evaluated are Index of a package, a string or a buffer, by the index; OperationRegion, by the offset, and by the
/// length where the offset converts; and in the wide profile ToString of a value that converts to a buffer, by the
/// length, and Mid of an integer, a string or a buffer, by the index, and by the length where the index converts. The
/// law excludes a condition, a size, an index or an offset that counts as 0 where it is no integer.
pub fn an_operand_that_is_no_integer_refuses_its_term<S>()
    ensures alone { (accesses : Accesses S) (scope : List Seg) (depth : ℕ) (w : State S) (steps : ℕ) (t x : Tree) →
        AsksInteger w.profile t x → (v : Value) (e : Refusal) (after : State S × ℕ) →
        GivesValue accesses scope depth x (w, steps) v after → integer_in v after.0 ≡ (Err e, after.0) →
        IsRefused accesses scope depth t (w, suc steps) e after }
    ensures index { (accesses : Accesses S) (scope : List Seg) (depth : ℕ) (x y : Tree) (w : State S) (steps : ℕ)
        (v u : Value) (after : State S × ℕ) → TwoValues accesses scope depth x y (w, steps) v u after →
        (e : Refusal) → IsIndexed v → integer_in u after.0 ≡ (Err e, after.0) → (p : Part) →
        IsRefused accesses scope depth (two_to opcodes.Index x y p) (w, suc steps) e after }
    ensures offset { (accesses : Accesses S) (scope : List Seg) (depth : ℕ) (x y : Tree) (w : State S) (steps : ℕ)
        (v u : Value) (after : State S × ℕ) → TwoValues accesses scope depth x y (w, steps) v u after →
        (e : Refusal) → integer_in v after.0 ≡ (Err e, after.0) → (n : Name) (space : ℕ) →
        IsRefused accesses scope depth (operation_region n space x y) (w, suc steps) e after }
    ensures extent { (accesses : Accesses S) (scope : List Seg) (depth : ℕ) (x y : Tree) (w : State S) (steps : ℕ)
        (v u : Value) (after : State S × ℕ) → TwoValues accesses scope depth x y (w, steps) v u after →
        (e : Refusal) (a : ℕ) → integer_in v after.0 ≡ (Ok a, after.0) → integer_in u after.0 ≡ (Err e, after.0) →
        (n : Name) (space : ℕ) →
        IsRefused accesses scope depth (operation_region n space x y) (w, suc steps) e after }
    ensures text { (accesses : Accesses S) (scope : List Seg) (depth : ℕ) (x y : Tree) (w : State S) (steps : ℕ)
        (v u : Value) (after : State S × ℕ) → TwoValues accesses scope depth x y (w, steps) v u after →
        (e : Refusal) → w.profile ≡ profiles.Wide → (bytes : List ℕ) →
        to_buffer_of after.0.width (content_in after.0.objects v) ≡ Ok bytes →
        integer_in u after.0 ≡ (Err e, after.0) → (p : Part) →
        IsRefused accesses scope depth (two_to opcodes.ToString x y p) (w, suc steps) e after }
    ensures start { (accesses : Accesses S) (scope : List Seg) (depth : ℕ) (x y z : Tree) (w : State S) (steps : ℕ)
        (v u r : Value) (behind after : State S × ℕ) → TwoValues accesses scope depth x y (w, steps) v u behind →
        GivesValue accesses scope depth z behind r after → (e : Refusal) → w.profile ≡ profiles.Wide →
        (whole : List ℕ) (made : List ℕ → Content) →
        HasBytes after.0.width (content_in after.0.objects v) whole made → integer_in u after.0 ≡ (Err e, after.0) →
        (p : Part) → IsRefused accesses scope depth (middle x y z p) (w, suc steps) e after }
    ensures count { (accesses : Accesses S) (scope : List Seg) (depth : ℕ) (x y z : Tree) (w : State S) (steps : ℕ)
        (v u r : Value) (behind after : State S × ℕ) → TwoValues accesses scope depth x y (w, steps) v u behind →
        GivesValue accesses scope depth z behind r after → (e : Refusal) → w.profile ≡ profiles.Wide →
        (whole : List ℕ) (made : List ℕ → Content) →
        HasBytes after.0.width (content_in after.0.objects v) whole made → (i : ℕ) →
        integer_in u after.0 ≡ (Ok i, after.0) → integer_in r after.0 ≡ (Err e, after.0) → (p : Part) →
        IsRefused accesses scope depth (middle x y z p) (w, suc steps) e after }
{}

/// A term that evaluates operands as values is refused as one of them is, where those in front of it give values; no
/// further operand is evaluated, and nothing is stored. These terms are the operators with one operand or two, LAnd and
/// LOr among them; Store and CopyObject, by their source; DerefOf, the conversions, Mid and Match; Return; If, and
/// While in its first turn, by the condition; Sleep and Stall, by the time; Fatal, by its argument; Buffer and
/// VarPackage, by the size; Name, by its value; OperationRegion, by its offset and its length; and CreateField and its
/// like. The law excludes an operand that counts as 0 where it is refused.
pub fn an_operand_that_is_refused_refuses_its_term<S>()
    ensures { (accesses : Accesses S) (scope : List Seg) (depth : ℕ) (w : State S) (steps : ℕ) (t : Tree)
        (operands : List Tree) → TakesValues w.profile t operands → (x : Tree) (between : State S × ℕ) →
        ComesTo accesses scope depth operands (w, steps) x between → (e : Refusal) (after : State S × ℕ) →
        IsRefused accesses scope depth x between e after → IsRefused accesses scope depth t (w, suc steps) e after }
{}

/// An operand of the terms that `an_operand_that_is_refused_refuses_its_term` lists that gives no value is refused as
/// `NoValue`: for example a call of a control method that ends without a Return. The term is refused before it
/// evaluates any further operand, and nothing is stored. The law excludes a call without a Return that counts as a
/// value.
pub fn an_operand_without_a_value_is_refused<S>()
    ensures { (accesses : Accesses S) (scope : List Seg) (depth : ℕ) (w : State S) (steps : ℕ) (t : Tree)
        (operands : List Tree) → TakesValues w.profile t operands → (x : Tree) (between : State S × ℕ) →
        ComesTo accesses scope depth operands (w, steps) x between → (after : State S × ℕ) →
        GivesNothing accesses scope depth x between after →
        IsRefused accesses scope depth t (w, suc steps) (refusal.Evaluation NoValue) after }
{}
