//! Which units a field has.
ghost use Rattle.std.specs.Prelude.{◌≡◌, ◌<◌, ℕ, []};
ghost use Rattle.ar_space.specs.declared.space.Width.{Width};
ghost use Rattle.aml_fields.specs.Units.{units_of};
ghost use Rattle.aml_laws.specs.TouchedUnits.{TouchedInTurn};

/// A field of some bits has one unit for each aligned piece of its region, as wide as its accesses, that it touches
/// (ACPI 6.5, 19.6.46). The first unit is the piece that holds the field's first bit, each further one begins where the
/// one before it ends, and the last one holds the field's last bit. So no two units have the same offset, and
/// `units_are_accessed_lowest_first` accesses each piece once. A unit holds all bits of the field that lie in its
/// piece, and no others. A field of no bits has no unit. A piece of which each bit is a unit by itself is refused by
/// this.
pub fn a_field_has_one_unit_for_each_piece_that_it_touches()
    ensures touched { (bit_offset bits : ℕ) (width : Width) → 0 < bits →
        TouchedInTurn bit_offset bits width (units_of bit_offset bits width) }
    ensures untouched { (bit_offset : ℕ) (width : Width) → units_of bit_offset 0 width ≡ [] }
{}
