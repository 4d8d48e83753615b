//! Laws of the definitions that the contracts cite, in the words of the subject. These functions do nothing.
ghost use Rattle.std.specs.Prelude.{◌≡◌, ◌∷◌, ◌++◌, ◌↔◌, Contains, List, Ok, true, ℕ};
ghost use Rattle.acpi_resources.specs.declared.exclusives.Exclusives.TheVariants.{Taken};
ghost use Rattle.acpi_resources.specs.FlagByte.{is_shared};
ghost use Rattle.acpi_resources.specs.Items.{IsItem, ResourceItem, item_bytes, items_of};
ghost use Rattle.acpi_resources.specs.Numbers.{set_of};
ghost use Rattle.acpi_resources.specs.Offers.{possible_as, possible_of};
ghost use Rattle.acpi_resources.specs.Records.{InterruptOffer};

/// The set of the numbers of a list has the numbers of the list and no other. That a set ascends, and has each number
/// once, is ensured by `InterruptNumbers::as_slice` and `Offer::numbers`.
pub fn a_set_has_the_numbers_of_its_list()
    ensures { (numbers : List ℕ) (n : ℕ) → Contains (set_of numbers) n ↔ Contains numbers n }
{}

/// An item, written as bytes, is read as this item, and what is behind it as it would be alone (ACPI 6.5, 6.4.2 and
/// 6.4.3).
pub fn an_item_is_read_as_it_is_written()
    ensures { (item : ResourceItem) (rest : List ℕ) → IsItem item
        → items_of (item_bytes item ++ rest) ≡ item ∷ items_of rest }
{}

/// Whether exclusive offers are taken matters to them alone: what is offered where they are refused is what is
/// offered where they are taken, and says shared.
pub fn only_exclusive_offers_are_refused()
    ensures { (bytes : List ℕ) (offer : InterruptOffer) → possible_of bytes ≡ Ok offer
        ↔ (possible_as Taken bytes ≡ Ok offer) × (is_shared offer.form offer.flags ≡ true) }
{}
