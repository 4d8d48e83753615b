//! Constants, and numbers that are written out.
ghost use Rattle.std.specs.Prelude.{◌≡◌, ◌-◌, ◌^◌, ◌%◌, ℕ};
ghost use Rattle.ar_space.specs.declared.integer_width.IntegerWidth.TheVariants.{Bits32, Bits64};
ghost use Rattle.aml_grammar.specs.declared.opcode.Opcode.{Opcode};
ghost use Rattle.aml_grammar.specs.declared.opcode.Opcode.TheVariants as opcodes;
ghost use Rattle.aml_convert.specs.Integers.{bits_of, bytes_of};
ghost use Rattle.aml_laws.specs.OperatorTerms.{alone};
ghost use Rattle.aml_laws.specs.ConstantTerms.{StandsFor, WritesNumber, written};

/// Zero is 0, One is 1, Ones has all bits of the width, and Revision is 2; a number that is written out is itself,
/// modulo two to the width. Each takes a step and changes nothing.
pub fn constants_stand_for_their_numbers<S>()
    ensures none { StandsFor S (alone opcodes.Zero) (λ width. 0) }
    ensures one { StandsFor S (alone opcodes.One) (λ width. 1) }
    ensures all { StandsFor S (alone opcodes.Ones) (λ width. 2 ^ bits_of width - 1) }
    ensures revision { StandsFor S (alone opcodes.Revision) (λ width. 2) }
    ensures numbers { (op : Opcode) (n : ℕ) → WritesNumber op → StandsFor S (written op n) (λ width.
        n % 2 ^ bits_of width) }
{}

/// An integer of the narrow width has 32 bits, which are 4 bytes, and one of the wide width 64 bits, which are 8 (ACPI
/// 6.5, 19.3.5). All that other laws say of the bits and the bytes of a width is said of these numbers.
pub fn integers_have_32_or_64_bits()
    ensures narrow { (bits_of Bits32 ≡ 32) × (bytes_of Bits32 ≡ 4) }
    ensures wide { (bits_of Bits64 ≡ 64) × (bytes_of Bits64 ≡ 8) }
{}
