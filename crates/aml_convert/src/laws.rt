//! Laws of the definitions that the contracts cite, in the words of the subject. These functions do nothing.
ghost use Rattle.std.specs.Prelude.{◌≡◌, ◌≤◌, ◌<◌, ◌-◌, ◌^◌, ℕ, Ok};
ghost use Rattle.std.specs.Int.{bit_at};
ghost use Rattle.ar_space.specs.declared.integer_width.IntegerWidth.{IntegerWidth};
ghost use Rattle.aml_objects.specs.Contents.{Buffer};
ghost use Rattle.aml_convert.specs.Integers.{bits_of};
ghost use Rattle.aml_convert.specs.Conversions.{integer_bytes, to_integer_of};
ghost use Rattle.aml_convert.specs.Operators.{highest_set_bit, lowest_set_bit};

/// The highest set bit of an integer, counted from 1, is the one that its size lies above.
pub fn an_integer_has_its_highest_set_bit()
    ensures { (n : ℕ) → 0 < n → n < 2 ^ 64
        → (2 ^ (highest_set_bit n - 1) ≤ n) × (n < 2 ^ highest_set_bit n) }
{}

/// The lowest set bit of an integer, counted from 1, is set, and no bit below it is.
pub fn an_integer_has_its_lowest_set_bit()
    ensures { (n : ℕ) → 0 < n → n < 2 ^ 64
        → (bit_at n (lowest_set_bit n - 1) ≡ 1) × ((i : ℕ) → i < lowest_set_bit n - 1 → bit_at n i ≡ 0) }
{}

/// An integer is read back from the buffer that it is converted to.
pub fn an_integer_is_read_back_from_its_buffer()
    ensures { (width : IntegerWidth) (n : ℕ) → n < 2 ^ bits_of width
        → to_integer_of width (Buffer (integer_bytes width n)) ≡ Ok n }
{}
