//! What a whole resource template says, and how interrupts are numbered in it (ACPI 6.5, 6.2.2, 6.2.12 and 6.4).
ghost use Rattle.std.specs.List.Sorted.{IsStrictlyIncreasing};
ghost use Rattle.std.specs.Prelude.{◌≡◌, ◌↔◌, ◌<◌, ◌+◌, ◌*◌, ◌/◌, ◌%◌, ◌^◌, ℕ, List, [], ◌∷◌, length, Contains};
ghost use Rattle.std.specs.Prelude.{None, Ok, Err};
ghost use Rattle.acpi_resources.specs.Current.{all_numbers, current_of};
ghost use Rattle.acpi_resources.specs.Items.{items_of};
ghost use Rattle.acpi_resources.specs.Numbers.{numbers_of_mask, numbers_of_table};
ghost use Rattle.acpi_resources.specs.Offers.{offered, possible_as};
ghost use Rattle.acpi_resources.specs.declared.exclusives.Exclusives.{Exclusives};
ghost use Rattle.ar_space.specs.declared.refusal.Refusal.{Refusal};

/// What the bytes of a `_PRS` offer is what their items offer, from the first one on, and what the bytes of a `_CRS`
/// set are all numbers that their items have, each once and ascending, and no other (ACPI 6.5, 6.2.2 and 6.2.12); both
/// are refused as the items are. What items offer and which numbers they have `an_item_means_what_its_first_byte_says`
/// says. A `_CRS` of which the first number alone counts is refused by this.
pub fn a_template_says_what_its_items_say()
    ensures offered { (exclusives : Exclusives) (bytes : List ℕ) →
        possible_as exclusives bytes ≡ offered exclusives None (items_of bytes) }
    ensures current { (bytes numbers : List ℕ) → all_numbers (items_of bytes) ≡ Ok numbers →
        (set : List ℕ) × ((current_of bytes ≡ Ok set) × (IsStrictlyIncreasing set ×
        ((n : ℕ) → Contains set n ↔ Contains numbers n))) }
    ensures refused { (bytes : List ℕ) (e : Refusal) → all_numbers (items_of bytes) ≡ Err e →
        current_of bytes ≡ Err e }
{}

/// The mask of an IRQ descriptor has the numbers of its bits that are 1, from 0 to 15 (ACPI 6.5, 6.4.2.1); the table of
/// an Extended Interrupt descriptor has numbers of four bytes each, the lowest first, in their order (6.4.3.6). Bits
/// that are counted from the other end, and bytes in the other order, are refused by this.
pub fn interrupts_are_numbered_by_bits_and_bytes()
    ensures mask { (mask n : ℕ) → Contains (numbers_of_mask mask) n ↔ ((n < 16) × (mask / 2 ^ n % 2 ≡ 1)) }
    ensures table { (a b c d : ℕ) (bytes : List ℕ) → numbers_of_table (a ∷ b ∷ c ∷ d ∷ bytes) ≡
        (a + 256 * b + 65536 * c + 16777216 * d) ∷ numbers_of_table bytes }
    ensures end { (bytes : List ℕ) → length bytes < 4 → numbers_of_table bytes ≡ [] }
{}
