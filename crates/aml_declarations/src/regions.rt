//! Terms that declare operation regions and fields (ACPI 6.5, 19.6: OperationRegion, CreateField and its like). The
//! operands stand next.
ghost use Rattle.std.specs.Prelude.{Ok};
ghost use Rattle.aml_meaning.specs.Meaning.{meaning};
ghost use Rattle.aml_frames.specs.declared.frames.Frame.TheVariants as frames;
ghost use Rattle.aml_frames.specs.Places.{at_place, terms};
ghost use Rattle.aml_frames.specs.Operands.{behind_two};
ghost use Rattle.aml_frames.specs.RegionTerms.{behind_name, behind_space, operation_region_run, region_term_run};
ghost use Rattle.aml_frames.specs.RegionTerms.{behind_region_at, part_declared, part_ends, region_declared};
ghost use Rattle.aml_frames.specs.RegionTerms.{sized_field_declared, bits_field_declared};
ghost use Rattle.aml_frames.specs.Declarations.{declared_at};
ghost use Rattle.aml_frames.specs.Follow.{place_of};
ghost use Rattle.aml_frames.specs.Steps.{Steps, frame_at};

use crate::bank_fields::declare_bank_fields;
use crate::declarations::{declare_at, done};
use crate::field_lists::{declare_fields, declare_index_fields};
use aml_fields::new_buffer_field;
use aml_frames::{Activation, DeclarationPart, Frame, Next, Position, integer_of};
use aml_meaning::{Flow, RegionKind, Running};
use aml_objects::{NamedObject, OperationRegion, Value};
use aml_terms::RowPlace;
use aml_world::{BufferFieldSize, buffer_of, field_size};
use ar_space::{Result, Space};

/// A term that declares an operation region, fields or a buffer field, by its kind and the place of its row: it is
/// done, or its first part is evaluated.
#[tactic(auto, using(crate::proofs::DeclaringFields::region_terms))]
pub fn begin_region_term<S: Space>(
    run: &mut Running<S>,
    act: &mut Activation,
    levels: u8,
    place: RowPlace,
    kind: RegionKind,
) -> Result<Next>
    ensures { Steps S.accesses 6 result act.new run.new
        (region_term_run (meaning S.accesses) kind place act.old levels, behind_region_at kind place act.old levels)
        run.old }
{
    match kind {
        RegionKind::OperationRegion => Ok(begin_operation_region(run, act, levels)),
        RegionKind::Field => {
            let flow = declare_fields(run, act, levels, place)?;
            Ok(done(act, levels, place, flow))
        }
        RegionKind::IndexField => {
            let flow = declare_index_fields(run, act, levels, place)?;
            Ok(done(act, levels, place, flow))
        }
        RegionKind::SizedBufferField(size) => Ok(Next::Term(
            levels,
            Frame::Declaration(DeclarationPart::SizedSource(size, levels)),
        )),
        RegionKind::BufferField => Ok(Next::Term(
            levels,
            Frame::Declaration(DeclarationPart::BitsSource(levels)),
        )),
    }
}

/// OperationRegion: its offset is evaluated, behind its name and its address space.
#[tactic(auto, unfolding(aml_marks::specs::Marked::a_name))]
fn begin_operation_region<S: Space>(run: &Running<S>, act: &mut Activation, levels: u8) -> Next
    ensures { Steps S.accesses 6 (Ok result) act.new run.now (
      operation_region_run (meaning S.accesses) act.old levels,
      at_place act.old (behind_two (terms act.old levels) (behind_space act.old.place)),
    ) run.now }
{
    let name = act.position();
    act.over_name();
    let space = act.next_byte();
    act.advance(1);
    let part = DeclarationPart::RegionOffset(space, name, levels);
    Next::Term(levels, Frame::Declaration(part))
}

/// A declaration of which a part was evaluated.
#[tactic(auto, using(aml_frames::proofs::Stepping::stepping))]
pub fn resume_declaration<S: Space>(
    run: &mut Running<S>,
    act: &mut Activation,
    part: DeclarationPart,
    flow: Flow,
) -> Result<Next>
    ensures { Steps S.accesses 6 result act.new run.new (frame_at S.accesses (frames.Declaration part) act.old flow)
        run.old }
{
    let value = flow.value()?;
    declare_part(run, act, part, value)
}

/// A declaration a part of which has this value: the next part is evaluated, or all are there.
#[tactic(auto, using(aml_frames::proofs::Stepping::stepping))]
fn declare_part<S: Space>(
    run: &mut Running<S>,
    act: &mut Activation,
    part: DeclarationPart,
    value: Value,
) -> Result<Next>
    ensures { Steps S.accesses 6 result act.new run.new
        (part_declared (meaning S.accesses) part value act.old, part_ends part act.old) run.old }
{
    match part {
        DeclarationPart::RegionOffset(space, name, levels) => {
            let length = DeclarationPart::RegionLength(space, name, value);
            Ok(Next::Term(levels, Frame::Declaration(length)))
        }
        DeclarationPart::RegionLength(space, name, offset) => {
            declare_region(run, act, (space, name), offset, value)
        }
        DeclarationPart::SizedSource(size, levels) => {
            let index = DeclarationPart::SizedIndex(size, value);
            Ok(Next::Term(levels, Frame::Declaration(index)))
        }
        DeclarationPart::SizedIndex(size, source) => {
            declare_sized_field(run, act, size, source, value)
        }
        DeclarationPart::BitsSource(levels) => {
            let index = DeclarationPart::BitsIndex(levels, value);
            Ok(Next::Term(levels, Frame::Declaration(index)))
        }
        DeclarationPart::BitsIndex(levels, source) => {
            let count = DeclarationPart::BitsCount(source, value);
            Ok(Next::Term(levels, Frame::Declaration(count)))
        }
        DeclarationPart::BitsCount(source, index) => {
            declare_bits_field(run, act, (source, index), value)
        }
        DeclarationPart::BankValue(levels, outer, region, bank) => {
            declare_bank_fields(run, act, (levels, outer), (region, bank), value)
        }
    }
}

/// An operation region, by its address space and where its name stands: its offset and its length were evaluated.
#[tactic(auto, using(aml_frames::proofs::Stepping::stepping), unfolding(aml_frames::specs::RegionTerms::region_declared))]
fn declare_region<S: Space>(
    run: &mut Running<S>,
    act: &Activation,
    named: (u8, Position),
    offset: Value,
    length: Value,
) -> Result<Next>
    ensures { Steps S.accesses 6 result act.now run.new
        (region_declared named.0 (place_of act.now named.1) offset length act.now, act.now) run.old }
{
    let (space, name) = named;
    let offset = integer_of(&run.world, offset)?;
    let length = integer_of(&run.world, length)?;
    let region = OperationRegion {
        space,
        offset,
        length,
    };
    declare_at(run, act, name, NamedObject::OperationRegion(region))
}

/// A buffer field whose term says how many bits it has: its buffer and its index were evaluated, and its name stands
/// next.
#[tactic(auto, using(aml_frames::proofs::Stepping::stepping, aml_frames::proofs::Lent::lent), unfolding(aml_frames::specs::RegionTerms::sized_field_declared))]
fn declare_sized_field<S: Space>(
    run: &mut Running<S>,
    act: &mut Activation,
    size: BufferFieldSize,
    source: Value,
    index: Value,
) -> Result<Next>
    ensures { Steps S.accesses 6 result act.new run.new
        (sized_field_declared size source index act.old, behind_name act.old) run.old }
{
    let buffer = buffer_of(source)?;
    let index = integer_of(&run.world, index)?;
    let first = size.first_bit(index);
    let field = new_buffer_field(run.world.objects(), buffer, first, size.bits())?;
    declare_next(run, act, NamedObject::BufferField(field))
}

/// CreateField: its buffer, the index of its first bit and the number of its bits were evaluated, and its name stands
/// next.
#[tactic(auto, using(aml_frames::proofs::Stepping::stepping, aml_frames::proofs::Lent::lent), unfolding(aml_frames::specs::RegionTerms::bits_field_declared))]
fn declare_bits_field<S: Space>(
    run: &mut Running<S>,
    act: &mut Activation,
    bits: (Value, Value),
    count: Value,
) -> Result<Next>
    ensures { Steps S.accesses 6 result act.new run.new
        (bits_field_declared bits.0 bits.1 count act.old, behind_name act.old) run.old }
{
    let (source, index) = bits;
    let buffer = buffer_of(source)?;
    let index = integer_of(&run.world, index)?;
    let count = integer_of(&run.world, count)?;
    let bits = field_size(count)?;
    let field = new_buffer_field(run.world.objects(), buffer, u128::from(index), bits)?;
    declare_next(run, act, NamedObject::BufferField(field))
}

/// The name that stands next is declared.
#[tactic(auto, using(crate::proofs::DeclaringFields::next_names), unfolding(aml_marks::specs::Marked::a_name))]
fn declare_next<S: Space>(
    run: &mut Running<S>,
    act: &mut Activation,
    object: NamedObject,
) -> Result<Next>
    ensures { Steps S.accesses 6 result act.new run.new (declared_at object act.old.place act.old, behind_name act.old)
        run.old }
{
    let name = act.position();
    act.over_name();
    declare_at(run, act, name, object)
}
