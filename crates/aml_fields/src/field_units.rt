//! The units of a field (ACPI 6.5, 19.6.46).
ghost use Rattle.std.specs.Prelude.{◌≡◌, ◌<◌, ◌≤◌, ◌+◌, ◌*◌};
ghost use Rattle.std.specs.Iterator.{YieldsFirst, item_count};
ghost use Rattle.ar_space.specs.Accesses.{bit_count};
ghost use Rattle.aml_fields.specs.Units.{unit_at, units_of};

use ar_space::Width;
use std::marker::Model;

/// One access of a field: a unit, and the bits of it that are the field's.
#[derive(Clone, Copy, Debug, PartialEq, Eq)]
pub struct Unit {
    /// The unit's first byte, counted from the region's start.
    pub offset: u64,
    /// The first bit of the unit that is the field's.
    pub first: usize,
    /// How many bits of the unit are the field's, 1 to 64.
    pub count: usize,
    /// Which bit of the field that first bit is.
    pub position: usize,
}

/// The units of a field, lowest first.
#[derive(Debug, Drop)]
pub struct FieldUnits {
    bit_offset: u64,
    bits: u32,
    width: Width,
    unit: u128,
    left: u128,
}

impl Model for FieldUnits {
    ghost use Rattle.std.specs.Prelude.{◌<◌, ◌+◌, ◌*◌, List};
    ghost use Rattle.ar_space.specs.Accesses.{bit_count};
    ghost use Rattle.aml_fields.specs.declared.field_units.Unit.{Unit};
    ghost use Rattle.aml_fields.specs.Units.{units_from};

    ghost Value = { List Unit };

    ghost view = { λ u. units_from u.bit_offset u.bits u.width u.unit u.left };

    ghost invariant = { λ u. (u.unit + u.left) * bit_count u.width < u.bit_offset + u.bits + bit_count u.width };
}

/// The units of a field, lowest first: aligned pieces as wide as its accesses, from the one that holds its first bit
/// to the one that holds its last. It takes no memory.
#[tactic(auto, using(crate::proofs::Turns::none_left))]
pub fn units(bit_offset: u64, bits: u32, width: Width) -> FieldUnits
    ensures { result ≡ units_of bit_offset bits width }
{
    let size = u128::from(width.bits());
    let unit = u128::from(bit_offset) / size;
    if bits == 0 {
        return FieldUnits {
            bit_offset,
            bits,
            width,
            unit,
            left: 0,
        };
    }
    let end = u128::from(bit_offset) + u128::from(bits);
    FieldUnits {
        bit_offset,
        bits,
        width,
        unit,
        left: (end + size - 1) / size - unit,
    }
}

impl Iterator for FieldUnits {
    type Item = Unit;

    ghost next_gives = { YieldsFirst (λ units. units) };

    ghost remaining = { item_count (λ units. units) };

    #[tactic(auto, using(crate::proofs::Turns::none_left, crate::proofs::Turns::one_left))]
    fn next(&mut self) -> Option<Unit> {
        if self.left == 0 {
            return None;
        }
        let unit = unit_at(self.bit_offset, self.bits, self.width, self.unit);
        self.unit += 1;
        self.left -= 1;
        Some(unit)
    }
}

/// One unit of a field.
fn unit_at(bit_offset: u64, bits: u32, width: Width, unit: u128) -> Unit
    requires { unit * bit_count width < bit_offset + bits }
    ensures { result ≡ unit_at bit_offset bits width unit }
{
    let size = u128::from(width.bits());
    let field_start = u128::from(bit_offset);
    let field_end = field_start + u128::from(bits);
    let start = unit * size;
    let end = start + size;
    Unit {
        offset: (start / 8) as u64,
        first: field_start.saturating_sub(start) as usize,
        count: end.min(field_end).saturating_sub(start.max(field_start)) as usize,
        position: start.saturating_sub(field_start) as usize,
    }
}
