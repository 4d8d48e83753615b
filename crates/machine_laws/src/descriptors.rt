//! What the descriptors of interrupts say (ACPI 6.5, 6.4.2 and 6.4.3).
ghost use Rattle.std.specs.Prelude.{◌≡◌, [], ◌∷◌, ◌++◌, ℕ, List, Contains, Option, Some, None, true, false, Ok, Err};
ghost use Rattle.ar_space.specs.declared.refusal.Refusal.{Refusal};
ghost use Rattle.ar_space.specs.declared.refusal.Refusal.TheVariants.{Resource};
ghost use Rattle.ar_space.specs.declared.refusal.ResourceFault.TheVariants as fault;
ghost use Rattle.acpi_resources.specs.declared.exclusives.Exclusives.{Exclusives};
ghost use Rattle.acpi_resources.specs.declared.exclusives.Exclusives.TheVariants.{Refused};
ghost use Rattle.acpi_resources.specs.declared.form.Form.{Form};
ghost use Rattle.acpi_resources.specs.declared.form.Polarity.TheVariants.{High, Low};
ghost use Rattle.acpi_resources.specs.Current.{all_numbers};
ghost use Rattle.acpi_resources.specs.FlagByte.{is_edge, is_shared, polarity_of};
ghost use Rattle.acpi_resources.specs.Items.{ResourceItem};
ghost use Rattle.acpi_resources.specs.Offers.{offer_of, the_offer, offered};
ghost use Rattle.acpi_resources.specs.Records.{InterruptDescriptor, InterruptOffer};
ghost use Rattle.machine_laws.specs.InterruptFlags.{HasFlags};
ghost use Rattle.machine_laws.specs.InterruptItems.{HasMeaning, IsDependent, IsInterrupts, IsShort, item_of};
ghost use Rattle.machine_laws.specs.InterruptOffers.{IsOfferOf, MayBeOffered};

/// What the flags of an interrupt descriptor say, bit by bit (ACPI 6.5, 6.4.2.1 and 6.4.3.6). The bit of the mode is 1
/// where the interrupt is edge-triggered, and 0 where it is level-triggered; that of the polarity is 1 where it is
/// active-low, and 0 where it is active-high; that of the sharing is 1 where it is shared, and 0 where it is exclusive.
/// In an IRQ descriptor these are bits 0, 3 and 4, in an Extended Interrupt descriptor bits 1, 2 and 3. No other bit
/// matters. A bit that is read in the place of another, and one whose two values are exchanged, are refused by this.
pub fn the_flags_of_an_interrupt_are_bits()
    ensures edge { (form : Form) (flags polarity sharing : ℕ) → HasFlags form flags 1 polarity sharing →
        is_edge form flags ≡ true }
    ensures level { (form : Form) (flags polarity sharing : ℕ) → HasFlags form flags 0 polarity sharing →
        is_edge form flags ≡ false }
    ensures low { (form : Form) (flags mode sharing : ℕ) → HasFlags form flags mode 1 sharing →
        polarity_of form flags ≡ Low }
    ensures high { (form : Form) (flags mode sharing : ℕ) → HasFlags form flags mode 0 sharing →
        polarity_of form flags ≡ High }
    ensures shared { (form : Form) (flags mode polarity : ℕ) → HasFlags form flags mode polarity 1 →
        is_shared form flags ≡ true }
    ensures exclusive { (form : Form) (flags mode polarity : ℕ) → HasFlags form flags mode polarity 0 →
        is_shared form flags ≡ false }
{}

/// What an item means, by its first byte (ACPI 6.5, 6.4.2 and 6.4.3). 22h, 23h and 89h name interrupts, as
/// `IsInterrupts` has it: what a `_PRS` offers is what the one such item in it offers; it is refused as that is, or as
/// `Several` where there is another one; and a `_CRS` has the numbers of all of them, or is refused as what is behind
/// one of them is. 89h that is too short is refused as `Descriptor`. 79h is the end tag, and nothing behind it counts:
/// where it comes before any interrupts a `_PRS` is refused as `NoInterrupt`, and a `_CRS` has no numbers. Where the
/// items end without one, both are refused as `NoEnd`. 30h, 31h and 38h are of dependent functions, and any other item
/// is another descriptor: in a `_PRS` they are refused as `Dependent` and as `Descriptor`, and in a `_CRS` they are
/// passed over. Other flags in the place of those that aren't there, an item that is taken for another one, a refused
/// item that ends what is set, and a template that is read without an end tag, are refused by this.
pub fn an_item_means_what_its_first_byte_says()
    ensures interrupts { (exclusives : Exclusives) (item : ResourceItem) (d : InterruptDescriptor)
        (offer : InterruptOffer) (items : List ResourceItem) → IsInterrupts item d → offer_of exclusives d ≡ Ok offer →
        offered exclusives None (item ∷ items) ≡ offered exclusives (Some offer) items }
    ensures refused { (exclusives : Exclusives) (item : ResourceItem) (d : InterruptDescriptor) (e : Refusal)
        (items : List ResourceItem) → IsInterrupts item d → offer_of exclusives d ≡ Err e →
        offered exclusives None (item ∷ items) ≡ Err e }
    ensures several { (exclusives : Exclusives) (item : ResourceItem) (d : InterruptDescriptor)
        (offer : InterruptOffer) (items : List ResourceItem) → IsInterrupts item d →
        offered exclusives (Some offer) (item ∷ items) ≡ Err (Resource fault.Several) }
    ensures numbers { (item : ResourceItem) (d : InterruptDescriptor) (items : List ResourceItem) (behind : List ℕ) →
        IsInterrupts item d → all_numbers items ≡ Ok behind → all_numbers (item ∷ items) ≡ Ok (d.numbers ++ behind) }
    ensures refused_numbers { (item : ResourceItem) (d : InterruptDescriptor) (e : Refusal)
        (items : List ResourceItem) → IsInterrupts item d → all_numbers items ≡ Err e →
        all_numbers (item ∷ items) ≡ Err e }
    ensures short { (exclusives : Exclusives) (item : ResourceItem) (found : Option InterruptOffer)
        (items : List ResourceItem) → IsShort item →
        offered exclusives found (item ∷ items) ≡ Err (Resource (fault.Descriptor 0x89)) }
    ensures short_numbers { (item : ResourceItem) (items : List ResourceItem) → IsShort item →
        all_numbers (item ∷ items) ≡ Err (Resource (fault.Descriptor 0x89)) }
    ensures end { (exclusives : Exclusives) (body : List ℕ) (offer : InterruptOffer) (items : List ResourceItem) →
        offered exclusives (Some offer) (item_of 0x79 body ∷ items) ≡ Ok offer }
    ensures end_of_none { (exclusives : Exclusives) (body : List ℕ) (items : List ResourceItem) →
        offered exclusives None (item_of 0x79 body ∷ items) ≡ Err (Resource fault.NoInterrupt) }
    ensures end_of_numbers { (body : List ℕ) (items : List ResourceItem) →
        all_numbers (item_of 0x79 body ∷ items) ≡ Ok [] }
    ensures no_end { (exclusives : Exclusives) (found : Option InterruptOffer) →
        offered exclusives found [] ≡ Err (Resource fault.NoEnd) }
    ensures no_end_of_numbers { all_numbers [] ≡ Err (Resource fault.NoEnd) }
    ensures dependent { (exclusives : Exclusives) (tag : ℕ) (body : List ℕ) (found : Option InterruptOffer)
        (items : List ResourceItem) → IsDependent tag →
        offered exclusives found (item_of tag body ∷ items) ≡ Err (Resource fault.Dependent) }
    ensures dependent_numbers { (tag : ℕ) (body : List ℕ) (items : List ResourceItem) → IsDependent tag →
        all_numbers (item_of tag body ∷ items) ≡ all_numbers items }
    ensures other { (exclusives : Exclusives) (tag : ℕ) (body : List ℕ) (found : Option InterruptOffer)
        (items : List ResourceItem) → (HasMeaning tag → ⊥) →
        offered exclusives found (item_of tag body ∷ items) ≡ Err (Resource (fault.Descriptor tag)) }
    ensures other_numbers { (tag : ℕ) (body : List ℕ) (items : List ResourceItem) → (HasMeaning tag → ⊥) →
        all_numbers (item_of tag body ∷ items) ≡ all_numbers items }
{}

/// What an interrupt descriptor of a `_PRS` offers, by its flags, its resource source and its numbers (ACPI 6.5,
/// 6.2.12, 6.4.2.1 and 6.4.3.6). The first of these that is so refuses it: it is edge-triggered (Edge); it is
/// exclusive, where exclusive offers are refused (Exclusive); it has a resource source (Source); it has no number
/// (NoInterrupt). Any other one offers its numbers, each once and ascending, with its form and its flags, active-low
/// or active-high as these say. So does the first descriptor; any further one is refused (Several). A resource source
/// that is refused before exclusive use is refused by this.
pub fn interrupts_are_offered_as_their_descriptor_says()
    ensures edge { (exclusives : Exclusives) (d : InterruptDescriptor) (polarity sharing : ℕ) →
        HasFlags d.form d.flags 1 polarity sharing → offer_of exclusives d ≡ Err (Resource fault.Edge) }
    ensures exclusive { (d : InterruptDescriptor) (polarity : ℕ) → HasFlags d.form d.flags 0 polarity 0 →
        offer_of Refused d ≡ Err (Resource fault.Exclusive) }
    ensures source { (exclusives : Exclusives) (d : InterruptDescriptor) (polarity sharing : ℕ) →
        HasFlags d.form d.flags 0 polarity sharing → MayBeOffered exclusives sharing → d.has_source ≡ true →
        offer_of exclusives d ≡ Err (Resource fault.Source) }
    ensures no_number { (exclusives : Exclusives) (d : InterruptDescriptor) (polarity sharing : ℕ) →
        HasFlags d.form d.flags 0 polarity sharing → MayBeOffered exclusives sharing → d.has_source ≡ false →
        d.numbers ≡ [] → offer_of exclusives d ≡ Err (Resource fault.NoInterrupt) }
    ensures offered { (exclusives : Exclusives) (d : InterruptDescriptor) (polarity sharing : ℕ) →
        HasFlags d.form d.flags 0 polarity sharing → MayBeOffered exclusives sharing → d.has_source ≡ false →
        (n : ℕ) → Contains d.numbers n →
        (offer : InterruptOffer) × ((offer_of exclusives d ≡ Ok offer) × IsOfferOf d polarity offer) }
    ensures first { (exclusives : Exclusives) (d : InterruptDescriptor) →
        the_offer exclusives None d ≡ offer_of exclusives d }
    ensures further { (exclusives : Exclusives) (found : InterruptOffer) (d : InterruptDescriptor) →
        the_offer exclusives (Some found) d ≡ Err (Resource fault.Several) }
{}
