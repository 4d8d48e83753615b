//! What operators on integers give of their operands, and where they store it. Operands are converted to integers.
ghost use Rattle.std.specs.Prelude.{◌≡◌, ◌<◌, ◌≤◌, ◌+◌, ◌-◌, ◌*◌, ◌/◌, ◌^◌, ◌%◌, ℕ, suc, min, max, List};
ghost use Rattle.std.specs.Int.{bit_at};
ghost use Rattle.ar_space.specs.Accesses.{Accesses};
ghost use Rattle.ar_space.specs.declared.refusal.Refusal.TheVariants as refusal;
ghost use Rattle.ar_space.specs.declared.refusal.ValueFault.TheVariants.{DivideByZero};
ghost use Rattle.aml_path.specs.declared.segment.Seg.{Seg};
ghost use Rattle.aml_grammar.specs.Tree.{Tree, Part};
ghost use Rattle.aml_grammar.specs.declared.opcode.Opcode.TheVariants as opcodes;
ghost use Rattle.aml_objects.specs.declared.value.Value.TheVariants as value;
ghost use Rattle.aml_convert.specs.Integers.{bits_of};
ghost use Rattle.aml_world.specs.state.State.{State};
ghost use Rattle.aml_laws.specs.OperatorTerms.{two_to, StoresTo, Gives, IsRefused, TwoIntegers, ComputesOfOne, ComputesOfTwo, divide, IsDivision, Counts, IsHighest, IsLowest};

/// Add, Subtract and Multiply give sum, difference and product modulo two to the width: what Subtract gives and the
/// second operand add up to the first. Each evaluates its operands from left to right, and stores what it gives to its
/// target (`StoresTo`). Operators that are exchanged, operands that are, and a result that isn't stored, are refused by
/// this.
pub fn sums_differences_and_products_are_modulo_two_to_the_width<S>()
    ensures sum { ComputesOfTwo S opcodes.Add (λ width a b n. n ≡ (a + b) % 2 ^ bits_of width) }
    ensures difference { ComputesOfTwo S opcodes.Subtract (λ width a b n. (n < 2 ^ bits_of width) ×
        ((n + b) % 2 ^ bits_of width ≡ a % 2 ^ bits_of width)) }
    ensures product { ComputesOfTwo S opcodes.Multiply (λ width a b n. n ≡ a * b % 2 ^ bits_of width) }
{}

/// And, Or, Xor, Nand, Nor and Not combine the bits of their operands one by one: with And a bit is set where both are,
/// with Or where one is, with Xor where just one is. Nand, Nor and Not set the other bits of the width, and none above.
pub fn bits_are_combined_one_by_one<S>()
    ensures both { ComputesOfTwo S opcodes.And (λ width a b n. (i : ℕ) → bit_at n i ≡ min (bit_at a i) (bit_at b i)) }
    ensures any { ComputesOfTwo S opcodes.Or (λ width a b n. (i : ℕ) → bit_at n i ≡ max (bit_at a i) (bit_at b i)) }
    ensures one { ComputesOfTwo S opcodes.Xor (λ width a b n. (i : ℕ) →
        bit_at n i ≡ (bit_at a i + bit_at b i) % 2) }
    ensures not_both { ComputesOfTwo S opcodes.Nand (λ width a b n. (n < 2 ^ bits_of width) × ((i : ℕ) →
        i < bits_of width → bit_at n i ≡ 1 - min (bit_at a i) (bit_at b i))) }
    ensures not_any { ComputesOfTwo S opcodes.Nor (λ width a b n. (n < 2 ^ bits_of width) × ((i : ℕ) →
        i < bits_of width → bit_at n i ≡ 1 - max (bit_at a i) (bit_at b i))) }
    ensures other { ComputesOfOne S opcodes.Not (λ width a n. (n < 2 ^ bits_of width) × ((i : ℕ) →
        i < bits_of width → bit_at n i ≡ 1 - bit_at a i)) }
{}

/// ShiftLeft multiplies its first operand by two to the second one, modulo two to the width, and ShiftRight divides an
/// integer of the width by it. So a shift by the width or more gives 0: one that takes its second operand modulo the
/// width is refused by this.
pub fn shifts_multiply_and_divide_by_powers_of_two<S>()
    ensures left { ComputesOfTwo S opcodes.ShiftLeft (λ width a b n. n ≡ a * 2 ^ b % 2 ^ bits_of width) }
    ensures right { ComputesOfTwo S opcodes.ShiftRight (λ width a b n. a < 2 ^ bits_of width → n ≡ a / 2 ^ b) }
{}

/// FindSetLeftBit and FindSetRightBit give the number of the highest and of the lowest bit that is set in an integer of
/// the width, counted from 1, and 0 where none is.
pub fn set_bits_are_numbered_from_one<S>()
    ensures highest { ComputesOfOne S opcodes.FindSetLeftBit (λ width a n. a < 2 ^ bits_of width → IsHighest a n) }
    ensures lowest { ComputesOfOne S opcodes.FindSetRightBit (λ width a n. a < 2 ^ bits_of width → IsLowest a n) }
{}

/// Divide and Mod give quotient and remainder where the divisor isn't 0, and where it is they are refused and nothing
/// is stored. Divide stores the remainder to its first target, then the quotient, which is its value, to the second.
/// A quotient that is rounded up, and targets that are exchanged, are refused by this.
pub fn a_division_gives_quotient_and_remainder<S>()
    ensures quotient { (accesses : Accesses S) (scope : List Seg) (depth : ℕ) (x y : Tree) (w : State S) (steps a : ℕ)
        (after : State S × ℕ) (b : ℕ) → TwoIntegers accesses scope depth x y (w, steps) a b after → 0 < b → (n : ℕ) ×
        (m : ℕ) × IsDivision a b n m × ((r q : Part) (between end : State S) →
        StoresTo scope r (value.Integer m) after.0 between → StoresTo scope q (value.Integer n) between end →
        Gives accesses scope depth (divide x y r q) (w, suc steps) n (end, after.1)) }
    ensures remainder { (accesses : Accesses S) (scope : List Seg) (depth : ℕ) (x y : Tree) (w : State S) (steps a : ℕ)
        (after : State S × ℕ) (b : ℕ) → TwoIntegers accesses scope depth x y (w, steps) a b after → 0 < b → (n : ℕ) ×
        (m : ℕ) × IsDivision a b m n × ((p : Part) (end : State S) → StoresTo scope p (value.Integer n) after.0 end →
        Gives accesses scope depth (two_to opcodes.Mod x y p) (w, suc steps) n (end, after.1)) }
    ensures by_zero { (accesses : Accesses S) (scope : List Seg) (depth : ℕ) (x y : Tree) (w : State S) (steps a : ℕ)
        (after : State S × ℕ) → TwoIntegers accesses scope depth x y (w, steps) a 0 after → (p q : Part) →
        IsRefused accesses scope depth (two_to opcodes.Mod x y p) (w, suc steps) (refusal.Value DivideByZero) after ×
        IsRefused accesses scope depth (divide x y p q) (w, suc steps) (refusal.Value DivideByZero) after }
{}

/// Increment and Decrement store to a local, an argument or a name the integer that it holds and one, or less one,
/// modulo two to the width, and give it.
pub fn a_count_changes_what_its_target_holds_by_one<S>()
    ensures up { Counts S opcodes.Increment (λ width a n. n ≡ (a + 1) % 2 ^ bits_of width) }
    ensures down { Counts S opcodes.Decrement (λ width a n. (n < 2 ^ bits_of width) ×
        ((n + 1) % 2 ^ bits_of width ≡ a % 2 ^ bits_of width)) }
{}
