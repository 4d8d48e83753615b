//! Which strings, buffers and integers values convert to.
ghost use Rattle.std.specs.Prelude.{◌≡◌, ◌⊎◌, ◌<◌, ◌+◌, ◌%◌, ◌^◌, ◌++◌, ◌∷◌, [], ℕ, List, length, map, take, Ok, Err};
ghost use Rattle.std.specs.Int.Digits.{digits_of, number_from_digits};
ghost use Rattle.ar_space.specs.declared.integer_width.IntegerWidth.{IntegerWidth};
ghost use Rattle.ar_space.specs.declared.refusal.Refusal.TheVariants as refusal;
ghost use Rattle.ar_space.specs.declared.refusal.ValueFault.TheVariants.{WrongType, EmptyValue};
ghost use Rattle.aml_objects.specs.Contents.{Integer, String, Buffer, content_in};
ghost use Rattle.aml_objects.specs.declared.value.Value.{Value};
ghost use Rattle.aml_convert.specs.Integers.{bits_of, bytes_of};
ghost use Rattle.aml_convert.specs.Conversions.{to_text_of, to_buffer_of, explicit_integer_of};
ghost use Rattle.aml_convert.specs.Strings.{decimal_string_of, hexadecimal_string_of};
ghost use Rattle.aml_world.specs.state.State.{State};
ghost use Rattle.aml_world.specs.state.Readings.{integer_in};
ghost use Rattle.aml_laws.specs.IntegersOfValues.{lowest_first, AreDigits};
ghost use Rattle.aml_laws.specs.Plain.{AreBytes};
ghost use Rattle.aml_laws.specs.Spellings.{SpellsBytes, SpellsListed, SpellsPrefixed, SpellsDecimal, BeginsWithout};
ghost use Rattle.aml_laws.specs.Numerals.{AreFigures, BeginsWithoutFigure, IsPrefixed};
ghost use Rattle.aml_laws.specs.StoredParts.{IsNoData};

/// The string of a buffer has two upper-case hexadecimal digits for each byte, the higher one first, with blanks
/// between them, and a string is itself (ACPI 6.5, 19.3.5.7). ToDecimalString gives the decimal digits of an integer,
/// without leading zeros, and of 0 the digit 0. Commas for blanks, digits in the other order, and a 0 in front are
/// refused by this.
pub fn strings_spell_bytes_and_integers()
    ensures bytes { (width : IntegerWidth) (bytes : List ℕ) → AreBytes bytes → (text : List ℕ) ×
        ((to_text_of width (Buffer bytes) ≡ Ok text) × SpellsBytes bytes text) }
    ensures themselves { (width : IntegerWidth) (text : List ℕ) → (to_text_of width (String text) ≡ Ok text) ×
        (decimal_string_of (String text) ≡ Ok text) }
    ensures decimal { (n : ℕ) → 0 < n → n < 2 ^ 64 →
        decimal_string_of (Integer n) ≡ Ok (map (λ d. 48 + d) (digits_of 10 n)) }
    ensures decimal_of_0 { decimal_string_of (Integer 0) ≡ Ok (48 ∷ []) }
{}

/// ToHexString of a buffer gives `0x` and two upper-case digits for each byte, and ToDecimalString the decimal digits
/// of each, with commas between them; of an integer ToHexString gives all its digits, and of a string the string
/// (ACPI 6.5, 19.6: ToDecimalString, ToHexString). Blanks for commas, and bytes without `0x`, are refused by this.
pub fn lists_of_bytes_are_spelled_with_commas()
    ensures hexadecimal { (width : IntegerWidth) (bytes : List ℕ) → AreBytes bytes → (text : List ℕ) ×
        ((hexadecimal_string_of width (Buffer bytes) ≡ Ok text) × SpellsListed SpellsPrefixed bytes text) }
    ensures decimal { (bytes : List ℕ) → AreBytes bytes → (text : List ℕ) ×
        ((decimal_string_of (Buffer bytes) ≡ Ok text) × SpellsListed SpellsDecimal bytes text) }
    ensures others { (width : IntegerWidth) (n : ℕ) (text : List ℕ) →
        (hexadecimal_string_of width (Integer n) ≡ to_text_of width (Integer n)) ×
        (hexadecimal_string_of width (String text) ≡ Ok text) }
{}

/// The buffer of an integer has as many bytes as an integer of the width, the lowest first; that of a string has its
/// bytes and a 0 behind them, and of an empty one none; a buffer is itself (ACPI 6.5, 19.3.5.7). A string without the 0
/// behind it, and eight bytes of an integer of 32 bits, are refused by this.
pub fn buffers_hold_strings_and_integers()
    ensures integer { (width : IntegerWidth) (n : ℕ) → (bytes : List ℕ) × ((to_buffer_of width (Integer n) ≡ Ok bytes) ×
        (length bytes ≡ bytes_of width) × AreBytes bytes × (lowest_first bytes ≡ n % 2 ^ bits_of width)) }
    ensures string { (width : IntegerWidth) (c : ℕ) (text : List ℕ) →
        (to_buffer_of width (String (c ∷ text)) ≡ Ok (c ∷ text ++ 0 ∷ [])) × (to_buffer_of width (String []) ≡ Ok []) }
    ensures themselves { (width : IntegerWidth) (bytes : List ℕ) → to_buffer_of width (Buffer bytes) ≡ Ok bytes }
{}

/// What is neither an integer nor a string nor a buffer (a package, a reference, and where no value is) converts to
/// none of the three: not to the integer of an operand nor to that of ToInteger, not to the string of an operand nor
/// to those of ToDecimalString and ToHexString, and not to a buffer. A reference that is 0 as an operand, and a
/// package that is an empty string, also in ToHexString, are refused by this.
pub fn what_has_no_conversion_is_refused<S>()
    ensures integer { (w : State S) (v : Value) → IsNoData v → integer_in v w ≡ (Err (refusal.Value WrongType), w) }
    ensures text { (w : State S) (v : Value) → IsNoData v →
        (to_text_of w.width (content_in w.objects v) ≡ Err (refusal.Value WrongType)) ×
        (decimal_string_of (content_in w.objects v) ≡ Err (refusal.Value WrongType)) ×
        (hexadecimal_string_of w.width (content_in w.objects v) ≡ Err (refusal.Value WrongType)) }
    ensures bytes { (w : State S) (v : Value) → IsNoData v →
        to_buffer_of w.width (content_in w.objects v) ≡ Err (refusal.Value WrongType) }
    ensures numeral { (w : State S) (v : Value) → IsNoData v →
        explicit_integer_of w.width (content_in w.objects v) ≡ Err (refusal.Value WrongType) }
{}

/// ToInteger of a string that begins with `0x` or `0X` reads the hexadecimal digits behind it, of either case, up to
/// the first character that is none; of any other string the decimal digits that it begins with, up to the first
/// character that is none, and 0 where there are none (ACPI 6.5, 19.6: ToInteger). An integer is itself, a buffer is
/// the number of its first bytes, and what is empty is refused. Digits behind `0x` that are read as decimal ones, and
/// a character behind decimal digits that is read as a 0, are refused by this.
pub fn explicit_integers_are_read_by_their_prefix()
    ensures hexadecimal { (width : IntegerWidth) (x : ℕ) (digits numbers rest : List ℕ) → (x ≡ 120) ⊎ (x ≡ 88) →
        AreDigits digits numbers → BeginsWithout rest → explicit_integer_of width (String (48 ∷ x ∷ digits ++ rest)) ≡
        Ok (number_from_digits 16 numbers % 2 ^ bits_of width) }
    ensures decimal { (width : IntegerWidth) (c : ℕ) (text figures numbers rest : List ℕ) → c ∷ text ≡ figures ++ rest →
        AreFigures figures numbers → BeginsWithoutFigure rest → (IsPrefixed (c ∷ text) → ⊥) →
        explicit_integer_of width (String (c ∷ text)) ≡ Ok (number_from_digits 10 numbers % 2 ^ bits_of width) }
    ensures buffer { (width : IntegerWidth) (b : ℕ) (bytes : List ℕ) →
        explicit_integer_of width (Buffer (b ∷ bytes)) ≡ Ok (lowest_first (take (bytes_of width) (b ∷ bytes))) }
    ensures integer { (width : IntegerWidth) (n : ℕ) → explicit_integer_of width (Integer n) ≡ Ok n }
    ensures empty { (width : IntegerWidth) →
        (explicit_integer_of width (String []) ≡ Err (refusal.Value EmptyValue)) ×
        (explicit_integer_of width (Buffer []) ≡ Err (refusal.Value EmptyValue)) }
{}
