//! Conversions, comparisons and what two values are joined to.
ghost use Rattle.std.specs.Prelude.{◌≡◌, ◌⊎◌, ◌<◌, ◌≤◌, ◌-◌, ◌+◌, ◌*◌, ◌^◌, ◌++◌, ◌∷◌, [], ℕ, List, length, slice_get};
ghost use Rattle.std.specs.Prelude.{nat_lt, true, Some, Ok, Err};
ghost use Rattle.std.specs.List.{list_all};
ghost use Rattle.std.specs.Int.Digits.{digits_of};
ghost use Rattle.std.specs.declared.cmp.Ordering.{Ordering};
ghost use Rattle.std.specs.declared.cmp.Ordering.TheVariants.{Less};
ghost use Rattle.ar_space.specs.declared.refusal.Refusal.{Refusal};
ghost use Rattle.ar_space.specs.declared.refusal.Refusal.TheVariants as refusal;
ghost use Rattle.ar_space.specs.declared.refusal.ValueFault.TheVariants.{WrongType};
ghost use Rattle.ar_space.specs.declared.integer_width.IntegerWidth.{IntegerWidth};
ghost use Rattle.acpi_resources.specs.Items.{items_of};
ghost use Rattle.aml_objects.specs.Contents.{Content, Integer, String, Buffer, Other};
ghost use Rattle.aml_convert.specs.Integers.{bits_of, bytes_of};
ghost use Rattle.aml_convert.specs.Conversions.{to_integer_of, to_text_of, to_buffer_of, explicit_integer_of, compared};
ghost use Rattle.aml_convert.specs.Strings.{decimal_string_of};
ghost use Rattle.aml_convert.specs.Decimals.{coded_decimal, decoded_decimal};
ghost use Rattle.aml_convert.specs.Concatenation.{resources_joined};
ghost use Rattle.aml_convert.specs.declared.logic.Comparison.{Comparison};
ghost use Rattle.aml_objects.specs.declared.value.Value.{Value};
ghost use Rattle.aml_objects.specs.declared.value.Value.TheVariants as value;
ghost use Rattle.aml_world.specs.values.Operations.{compared_in};
ghost use Rattle.aml_world.specs.state.State.{State};
ghost use Rattle.aml_objects.specs.Contents.{content_in};
ghost use Rattle.aml_laws.specs.Comparisons.{AsksFor};
ghost use Rattle.aml_laws.specs.Digits.{is_upper_digit};
ghost use Rattle.aml_laws.specs.Ordered.{IsTotal};
ghost use Rattle.aml_laws.specs.ResourceLists.{before_end_tag, end_tag, bytes_taken, HasEndTag};

/// An integer of a width is read back from the string that it is converted to, by its hexadecimal digits, and by
/// ToInteger from what ToDecimalString gives. Digits in the wrong order, too few of them, or digits that are read in
/// another base are refused by this.
#[tactic(auto, using(crate::proofs::IntegersInStrings::an_integer_is_read_back_from_its_string))]
pub fn an_integer_is_read_back_from_its_string()
    ensures hexadecimal { (width : IntegerWidth) (n : ℕ) (text : List ℕ) → n < 2 ^ bits_of width →
        to_text_of width (Integer n) ≡ Ok text → to_integer_of width (String text) ≡ Ok n }
    ensures decimal { (width : IntegerWidth) (n : ℕ) (text : List ℕ) → n < 2 ^ bits_of width →
        decimal_string_of (Integer n) ≡ Ok text → explicit_integer_of width (String text) ≡ Ok n }
{}

/// Two values of one type are in a total order: integers by their size, strings and buffers by the first byte in which
/// they differ, and one that another goes on from comes before it. Orders that are turned round, that stop at the
/// shorter length, or that call different values equal are refused by this.
#[tactic(auto, using(crate::proofs::OrderedValues::values_of_one_type_are_in_a_total_order))]
pub fn values_of_one_type_are_in_a_total_order()
    ensures integers { (width : IntegerWidth) → IsTotal (λ n m. compared width (Integer n) (Integer m)) }
    ensures strings { (width : IntegerWidth) → IsTotal (λ s t. compared width (String s) (String t)) }
    ensures buffers { (width : IntegerWidth) → IsTotal (λ s t. compared width (Buffer s) (Buffer t)) }
    ensures lesser_integer { (width : IntegerWidth) (n m : ℕ) → n < m →
        compared width (Integer n) (Integer m) ≡ Ok Less }
    ensures lesser_string { (width : IntegerWidth) (front : List ℕ) (a b : ℕ) (s t : List ℕ) → a < b →
        compared width (String (front ++ a ∷ s)) (String (front ++ b ∷ t)) ≡ Ok Less }
    ensures shorter_string { (width : IntegerWidth) (front : List ℕ) (a : ℕ) (s : List ℕ) →
        compared width (String front) (String (front ++ a ∷ s)) ≡ Ok Less }
    ensures lesser_buffer { (width : IntegerWidth) (front : List ℕ) (a b : ℕ) (s t : List ℕ) → a < b →
        compared width (Buffer (front ++ a ∷ s)) (Buffer (front ++ b ∷ t)) ≡ Ok Less }
    ensures shorter_buffer { (width : IntegerWidth) (front : List ℕ) (a : ℕ) (s : List ℕ) →
        compared width (Buffer front) (Buffer (front ++ a ∷ s)) ≡ Ok Less }
{}

/// LEqual, LGreater and LLess are True, which has all bits of the width set, exactly where the order of their two
/// values is the one that they ask for, and else False, which is 0; where the values have no order, the comparison is
/// refused by what keeps them from one. It changes nothing. A comparison that asks for another order, and a True that
/// is 1, are refused by this.
pub fn comparisons_answer_by_the_order<S>()
    ensures asked { (w : State S) (c : Comparison) (a b : Value) (o : Ordering) →
        compared w.width (content_in w.objects a) (content_in w.objects b) ≡ Ok o → AsksFor c o →
        compared_in c a b w ≡ (Ok (value.Integer (2 ^ bits_of w.width - 1)), w) }
    ensures not_asked { (w : State S) (c : Comparison) (a b : Value) (o : Ordering) →
        compared w.width (content_in w.objects a) (content_in w.objects b) ≡ Ok o → (AsksFor c o → ⊥) →
        compared_in c a b w ≡ (Ok (value.Integer 0), w) }
    ensures refused { (w : State S) (c : Comparison) (a b : Value) (e : Refusal) →
        compared w.width (content_in w.objects a) (content_in w.objects b) ≡ Err e → compared_in c a b w ≡ (Err e, w) }
{}

/// Two values of different types are compared by the type of the first: the second one is converted to an integer, to
/// a text or to bytes. Where it doesn't convert so, the comparison is refused as the conversion is; and where the
/// first is neither an integer nor a string nor a buffer, as `WrongType`. A string that is compared with an integer
/// by the integer's type is refused by this.
pub fn the_second_value_is_compared_as_the_first_one()
    ensures integer { (width : IntegerWidth) (n m : ℕ) (second : Content) → to_integer_of width second ≡ Ok m →
        compared width (Integer n) second ≡ compared width (Integer n) (Integer m) }
    ensures string { (width : IntegerWidth) (s t : List ℕ) (second : Content) → to_text_of width second ≡ Ok t →
        compared width (String s) second ≡ compared width (String s) (String t) }
    ensures buffer { (width : IntegerWidth) (s t : List ℕ) (second : Content) → to_buffer_of width second ≡ Ok t →
        compared width (Buffer s) second ≡ compared width (Buffer s) (Buffer t) }
    ensures no_integer { (width : IntegerWidth) (n : ℕ) (second : Content) (e : Refusal) →
        to_integer_of width second ≡ Err e → compared width (Integer n) second ≡ Err e }
    ensures no_text { (width : IntegerWidth) (s : List ℕ) (second : Content) (e : Refusal) →
        to_text_of width second ≡ Err e → compared width (String s) second ≡ Err e }
    ensures no_bytes { (width : IntegerWidth) (s : List ℕ) (second : Content) (e : Refusal) →
        to_buffer_of width second ≡ Err e → compared width (Buffer s) second ≡ Err e }
    ensures no_data { (width : IntegerWidth) (second : Content) →
        compared width Other second ≡ Err (refusal.Value WrongType) }
{}

/// The hexadecimal digits of a number in binary coded decimal are the decimal digits of the number, so that ToBCD and
/// FromBCD undo each other where both answer. Digits that are turned round, or that are read in the other base, are
/// refused by this.
#[tactic(auto, using(crate::proofs::DecimalCodes::binary_coded_decimal_has_the_decimal_digits))]
pub fn binary_coded_decimal_has_the_decimal_digits()
    ensures coded { (width : IntegerWidth) (n code : ℕ) → coded_decimal width n ≡ Ok code →
        digits_of 16 code ≡ digits_of 10 n }
    ensures decoded { (code n : ℕ) → decoded_decimal code ≡ Ok n → digits_of 10 n ≡ digits_of 16 code }
    ensures coded_and_decoded { (width : IntegerWidth) (n code : ℕ) → coded_decimal width n ≡ Ok code →
        decoded_decimal code ≡ Ok n }
    ensures decoded_and_coded { (width : IntegerWidth) (code n again : ℕ) → decoded_decimal code ≡ Ok n →
        coded_decimal width n ≡ Ok again → again ≡ code }
{}

/// A number with a hexadecimal digit above 9 is no binary coded decimal, and FromBCD refuses it; ToBCD refuses one with
/// more decimal digits than the width has hexadecimal ones: both as `WrongType`. Digits that are carried over, or that
/// are refused as another fault, are refused by this.
pub fn what_is_no_coded_decimal_is_refused()
    ensures decoded { (code k d : ℕ) → slice_get (digits_of 16 code) k ≡ Some d → 9 < d →
        decoded_decimal code ≡ Err (refusal.Value WrongType) }
    ensures coded { (width : IntegerWidth) (n : ℕ) → 10 ^ (2 * bytes_of width) ≤ n →
        coded_decimal width n ≡ Err (refusal.Value WrongType) }
{}

/// Two buffers of resource items are joined to the items of the first before its end tag, those of the second before
/// its own, and one end tag, and end right behind that. An end tag that is left in the middle, items that are cut at
/// the wrong byte, and bytes behind the last end tag are refused by this.
#[tactic(auto, using(crate::proofs::JoinedResources::joined_items, crate::proofs::JoinedResources::joined_length))]
pub fn joined_resources_have_the_items_of_both()
    ensures items { (first second joined : List ℕ) → resources_joined (Buffer first) (Buffer second) ≡ Ok joined →
        items_of joined ≡ before_end_tag (items_of first) ++ before_end_tag (items_of second) ++ end_tag ∷ [] }
    ensures ends { (first second joined : List ℕ) → resources_joined (Buffer first) (Buffer second) ≡ Ok joined →
        length joined ≡ bytes_taken (before_end_tag (items_of first)) + (bytes_taken (before_end_tag (items_of second)) +
        2) }
{}

/// Each integer has a string of all the digits of its width, upper-case hexadecimal ones, and one that
/// ToDecimalString gives; and each buffer has one, three characters long for each byte but the last, which has two.
/// Which characters these are `strings_spell_bytes_and_integers` says. ToBCD answers of each number that has no more
/// decimal digits than the width has hexadecimal ones, and FromBCD of each whose hexadecimal digits are decimal ones.
/// Two buffers of resource items are joined where each is empty or has an end tag. A conversion that refuses these,
/// or that leaves leading zeros out of a hexadecimal string, is refused by this.
#[tactic(auto, using(crate::proofs::ConversionsAnswered::conversions_answer))]
pub fn conversions_answer()
    ensures hexadecimal { (width : IntegerWidth) (n : ℕ) → (text : List ℕ) ×
        ((to_text_of width (Integer n) ≡ Ok text) × ((length text ≡ 2 * bytes_of width) ×
        (list_all is_upper_digit text ≡ true))) }
    ensures decimal { (n : ℕ) → (text : List ℕ) × (decimal_string_of (Integer n) ≡ Ok text) }
    ensures of_buffer { (width : IntegerWidth) (bytes : List ℕ) → (text : List ℕ) ×
        ((to_text_of width (Buffer bytes) ≡ Ok text) × (length text ≡ 3 * length bytes - 1)) }
    ensures coded { (width : IntegerWidth) (n : ℕ) → n < 10 ^ (2 * bytes_of width) →
        (code : ℕ) × (coded_decimal width n ≡ Ok code) }
    ensures decoded { (code : ℕ) → list_all (λ d. nat_lt d 10) (digits_of 16 code) ≡ true →
        (n : ℕ) × (decoded_decimal code ≡ Ok n) }
    ensures joined { (first second : List ℕ) → (first ≡ []) ⊎ HasEndTag (items_of first) →
        (second ≡ []) ⊎ HasEndTag (items_of second) →
        (joined : List ℕ) × (resources_joined (Buffer first) (Buffer second) ≡ Ok joined) }
{}
