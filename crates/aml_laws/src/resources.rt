//! Lists of resource items.
ghost use Rattle.std.specs.Prelude.{◌≡◌, ◌<◌, ◌≤◌, ◌+◌, ◌*◌, ◌%◌, ℕ, List, [], ◌∷◌, length};
ghost use Rattle.acpi_resources.specs.Items.{items_of};

/// Where a resource item is cut, the list ends in front of it: it isn't among the items (ACPI 6.5, 6.4.2 and 6.4.3). So
/// it is where fewer bytes stand behind the first byte of a small item than its bits 2 to 0 count, and behind the two
/// length bytes of a large one than these count, or where one of these two lacks. An end tag without its checksum is
/// cut, too. An item that takes the bytes that are there is refused by this.
pub fn a_cut_item_is_no_item()
    ensures small { (tag : ℕ) (bytes : List ℕ) → tag < 128 → length bytes < tag % 8 → items_of (tag ∷ bytes) ≡ [] }
    ensures large { (tag low high : ℕ) (bytes : List ℕ) → 128 ≤ tag → tag < 256 →
        length bytes < low + 256 * high → items_of (tag ∷ low ∷ high ∷ bytes) ≡ [] }
    ensures without_length { (tag : ℕ) (bytes : List ℕ) → 128 ≤ tag → tag < 256 → length bytes < 2 →
        items_of (tag ∷ bytes) ≡ [] }
{}
