//! The units of fields.
ghost use Rattle.std.specs.Prelude.{◌≡◌, ℕ, List, Ok, Err};
ghost use Rattle.ar_space.specs.declared.refusal.FieldFault.TheVariants.{RegionLimit};
ghost use Rattle.ar_space.specs.declared.refusal.Refusal.{Refusal};
ghost use Rattle.ar_space.specs.declared.refusal.Refusal.TheVariants as refusal;
ghost use Rattle.ar_space.specs.declared.space.Place.{Place};
ghost use Rattle.ar_space.specs.declared.space.Width.{Width};
ghost use Rattle.ar_space.specs.declared.space.Width.TheVariants.{W8, W16, W32, W64};
ghost use Rattle.ar_space.specs.Accesses.{Accesses, byte_count, bit_count};
ghost use Rattle.ar_space.specs.Change.{Change};
ghost use Rattle.ar_space.specs.Outcome.{Outcome};
ghost use Rattle.aml_objects.specs.declared.entry.FieldUnit.{FieldUnit};
ghost use Rattle.aml_fields.specs.declared.region.Region.{Region};
ghost use Rattle.aml_fields.specs.declared.field_units.Unit.{Unit as Access};
ghost use Rattle.aml_fields.specs.Bits.{packed};
ghost use Rattle.aml_fields.specs.Units.{units_of};
ghost use Rattle.aml_fields.specs.UnitByUnit.{bits_read, write_units};
ghost use Rattle.aml_fields.specs.Regions.{unit_place, read_access, read_unit, read_field};
ghost use Rattle.aml_fields.specs.Regions.{write_access, write_whole, write_unit, write_field};
ghost use Rattle.aml_laws.specs.UnitPlaces.{IsUnitAt, IsNoUnit, ReadsOnce, WritesOnce};
ghost use Rattle.aml_laws.specs.UnitsInTurn.{InTurn, EndsRefused, bits_in_units};

/// An access of a byte has 8 bits, one of a word 16, of a doubleword 32 and of a quadword 64, and 1, 2, 4 and 8 bytes
/// (ACPI 6.5, 19.6: Field). All that other laws say of the bits and the bytes of an access is said of these numbers. A
/// word access of four bytes is refused by this.
pub fn accesses_have_1_2_4_or_8_bytes()
    ensures byte { (byte_count W8 ≡ 1) × (bit_count W8 ≡ 8) }
    ensures word { (byte_count W16 ≡ 2) × (bit_count W16 ≡ 16) }
    ensures double_word { (byte_count W32 ≡ 4) × (bit_count W32 ≡ 32) }
    ensures quad_word { (byte_count W64 ≡ 8) × (bit_count W64 ≡ 64) }
{}

/// A unit that lies wholly within its operation region, and begins at a byte of memory below 2^64, at a port below 2^16
/// or at a register below 4,096 of a PCI function, is read by one read at this place, and where it is written whole, by
/// one write there, of its width; the answer is that of the access, a fault as a refusal (ACPI 6.5, 5.5.2.4). Any other
/// unit is refused as `RegionLimit`, read or written, and nothing is accessed, not even for the bits that a write
/// keeps. A region whose last unit is refused, and one whose unit ends a byte behind it, are refused by this.
pub fn a_unit_is_accessed_within_its_region_alone<S>()
    ensures placed { (region : Region) (width : Width) (offset : ℕ) (at : Place) →
        IsUnitAt region width offset at → unit_place region width offset ≡ Ok at }
    ensures beyond { (region : Region) (width : Width) (offset : ℕ) → IsNoUnit region width offset →
        unit_place region width offset ≡ Err (refusal.Field RegionLimit) }
    ensures read { (accesses : Accesses S) (region : Region) (width : Width) (unit : Access) (at : Place) (s : S)
        (end : Outcome ℕ × S) → IsUnitAt region width unit.offset at → ReadsOnce accesses at width s end →
        read_unit accesses region width unit s ≡ end }
    ensures written { (accesses : Accesses S) (region : Region) (width : Width) (offset value : ℕ) (at : Place) (s : S)
        (end : Outcome (Unit {0}) × S) → IsUnitAt region width offset at →
        WritesOnce accesses at width value s end → write_whole accesses region width offset value s ≡ end }
    ensures unread { (accesses : Accesses S) (region : Region) (width : Width) (unit : Access) (s : S) →
        IsNoUnit region width unit.offset →
        read_unit accesses region width unit s ≡ (Err (refusal.Field RegionLimit), s) }
    ensures unwritten { (accesses : Accesses S) (region : Region) (width : Width) (offset value : ℕ) (s : S) →
        IsNoUnit region width offset →
        write_whole accesses region width offset value s ≡ (Err (refusal.Field RegionLimit), s) }
    ensures unmerged { (accesses : Accesses S) (region : Region) (field : FieldUnit) (source : List ℕ) (unit : Access)
        (s : S) → IsNoUnit region field.access unit.offset →
        write_unit accesses region field source unit s ≡ (Err (refusal.Field RegionLimit), s) }
{}

/// A read of a place is one read, and a write of it one write, of which the answer is what the register space answers,
/// a fault as a refusal. A write that is done twice is refused by this.
pub fn an_access_is_made_once<S>()
    ensures read { (accesses : Accesses S) (at : Place) (width : Width) (s : S) (end : Outcome ℕ × S) →
        ReadsOnce accesses at width s end → read_access accesses at width s ≡ end }
    ensures written { (accesses : Accesses S) (at : Place) (width : Width) (value : ℕ) (s : S)
        (end : Outcome (Unit {0}) × S) → WritesOnce accesses at width value s end →
        write_access accesses at width value s ≡ end }
{}

/// The units of a field are read one after another, in the order in which they hold its bits
/// (`units_hold_each_bit_once` of `aml_fields`), the lowest first, each where those in front of it are done: in an
/// operation region, and whatever an access of a unit is. Of index fields and of banks
/// `index_fields_are_accessed_unit_by_unit`, `a_bank_is_selected_before_each_unit` and
/// `a_bank_is_selected_by_a_write_of_its_field` say it. What is read is the bits of the field in the numbers that they
/// hold, one unit behind another. So they are written, too. The first unit that is refused refuses the access of the
/// field, and none behind it is accessed. The highest unit first, and a refused unit that is passed over, are refused
/// by this.
pub fn units_are_accessed_lowest_first<S>()
    ensures read { (read : Access → Change S ℕ) (field : FieldUnit) (s : S) (numbers : List ℕ) (after : S) →
        InTurn read (units_of field.bit_offset field.bits field.access) s numbers after → bits_read read field s ≡
        (Ok (packed (bits_in_units (units_of field.bit_offset field.bits field.access) numbers)), after) }
    ensures unread { (read : Access → Change S ℕ) (field : FieldUnit) (e : Refusal) (s after : S) →
        EndsRefused read e (units_of field.bit_offset field.bits field.access) s after →
        bits_read read field s ≡ (Err e, after) }
    ensures written { (write : Access → Change S (Unit {0})) (units : List Access) (s : S)
        (answers : List (Unit {0})) (after : S) → InTurn write units s answers after →
        write_units write units s ≡ (Ok tt, after) }
    ensures unwritten { (write : Access → Change S (Unit {0})) (units : List Access) (e : Refusal) (s after : S) →
        EndsRefused write e units s after → write_units write units s ≡ (Err e, after) }
    ensures read_in_region { (accesses : Accesses S) (region : Region) (field : FieldUnit) (s : S) (numbers : List ℕ)
        (after : S) → InTurn (read_unit accesses region field.access)
        (units_of field.bit_offset field.bits field.access) s numbers after → read_field accesses region field s ≡
        (Ok (packed (bits_in_units (units_of field.bit_offset field.bits field.access) numbers)), after) }
    ensures unread_in_region { (accesses : Accesses S) (region : Region) (field : FieldUnit) (e : Refusal)
        (s after : S) → EndsRefused (read_unit accesses region field.access) e
        (units_of field.bit_offset field.bits field.access) s after →
        read_field accesses region field s ≡ (Err e, after) }
    ensures written_in_region { (accesses : Accesses S) (region : Region) (field : FieldUnit) (source : List ℕ) (s : S)
        (answers : List (Unit {0})) (after : S) → InTurn (write_unit accesses region field source)
        (units_of field.bit_offset field.bits field.access) s answers after →
        write_field accesses region field source s ≡ (Ok tt, after) }
    ensures unwritten_in_region { (accesses : Accesses S) (region : Region) (field : FieldUnit) (source : List ℕ)
        (e : Refusal) (s after : S) → EndsRefused (write_unit accesses region field source) e
        (units_of field.bit_offset field.bits field.access) s after →
        write_field accesses region field source s ≡ (Err e, after) }
{}
