//! BankField (ACPI 6.5, 19.6 and 20.2.5.2): fields in the bank of an operation region that a value of a bank field
//! selects. The operands stand next.
ghost use Rattle.std.specs.Prelude.{◌≡◌, ◌≤◌, IfOk};
ghost use Rattle.ar_space.specs.Change.{Does};
ghost use Rattle.aml_marks.specs.Marked.{a_name, an_integer, over};
ghost use Rattle.aml_world.specs.fields.FieldLayouts.{region_found, field_found};
ghost use Rattle.aml_world.specs.state.Run.{lift};
ghost use Rattle.aml_meaning.specs.FieldTerms.{fields_laid};
ghost use Rattle.aml_meaning.specs.Meaning.{meaning};
ghost use Rattle.aml_meaning.specs.declared.term_kind.WideKind.TheVariants as wides;
ghost use Rattle.aml_frames.specs.Places.{at_place, terms};
ghost use Rattle.aml_frames.specs.RegionTerms.{behind_name, bank_declared, bank_names_run};
ghost use Rattle.aml_frames.specs.Operands.{fields_at, outside_at};
ghost use Rattle.aml_frames.specs.Follow.{at_position, wide_run};
ghost use Rattle.aml_frames.specs.Steps.{Steps};

use crate::field_lists::lay_fields;
use aml_frames::{Activation, DeclarationPart, Frame, Next, Position, integer_of, told};
use aml_meaning::{Flow, Running};
use aml_objects::{Bank, FieldSource, Value};
use ar_space::{Result, Space};

/// BankField: its package is opened.
#[tactic(auto, using(crate::proofs::BankTerms::beginning_banks))]
pub fn begin_bank_fields<S: Space>(
    run: &mut Running<S>,
    act: &mut Activation,
    levels: u8,
) -> Result<Next>
    ensures { Steps S.accesses 6 result act.new run.new (
      wide_run S.accesses (meaning S.accesses) wides.BankField act.old levels,
      at_place act.old (outside_at act.old.place),
    ) run.old }
{
    let outer = act.open();
    begin_bank_names(run, act, levels, outer)
}

/// The region and the bank field are found whose names stand next, and the value that selects the bank is evaluated.
#[tactic(auto, using(crate::proofs::BankTerms::naming_banks), unfolding(aml_frames::specs::RegionTerms::bank_names_run))]
fn begin_bank_names<S: Space>(
    run: &mut Running<S>,
    act: &mut Activation,
    levels: u8,
    outer: Position,
) -> Result<Next>
    ensures { Steps S.accesses 6 result act.new run.new
        (bank_names_run (meaning S.accesses) levels act.old, at_position act.old outer) run.old }
{
    let region = take_region(run, act)?;
    let bank = take_bank(run, act)?;
    let part = DeclarationPart::BankValue(levels, outer, region, bank);
    Ok(Next::Term(levels, Frame::Declaration(part)))
}

/// The number of the declaration of the operation region whose name stands next.
#[tactic(auto, using(aml_meaning::proofs::Runs::running), unfolding(aml_marks::specs::Marked::a_name))]
fn take_region<S: Space>(run: &mut Running<S>, act: &mut Activation) -> Result<u64>
    ensures spent { run.new.1 ≤ run.old.1 }
    ensures change { Does result run.new (lift (region_found act.old.scope (a_name act.old.place).0)) run.old }
    ensures behind { IfOk result (λ n. act.new ≡ behind_name act.old) }
{
    let name = act.name(run.world.alloc)?;
    let found = run.world.region_found(act.scope(), &name);
    let region = told(&mut run.world, act, &name, found)?;
    act.over_name();
    Ok(region)
}

/// The number of the declaration of the bank field whose name stands next.
#[tactic(auto, using(aml_meaning::proofs::Runs::running), unfolding(aml_marks::specs::Marked::a_name))]
fn take_bank<S: Space>(run: &mut Running<S>, act: &mut Activation) -> Result<u64>
    ensures spent { run.new.1 ≤ run.old.1 }
    ensures change { Does result run.new (lift (field_found act.old.scope (a_name act.old.place).0)) run.old }
    ensures behind { IfOk result (λ n. act.new ≡ behind_name act.old) }
{
    let name = act.name(run.world.alloc)?;
    let found = run.world.field_found(act.scope(), &name);
    let bank = told(&mut run.world, act, &name, found)?;
    act.over_name();
    Ok(bank)
}

/// BankField whose value was evaluated: its flags and its fields stand next.
#[tactic(auto, using(crate::proofs::BankTerms::declaring_banks), unfolding(aml_meaning::specs::BankTerms::banked_laid))]
pub(crate) fn declare_bank_fields<S: Space>(
    run: &mut Running<S>,
    act: &mut Activation,
    list: (u8, Position),
    lies_in: (u64, u64),
    value: Value,
) -> Result<Next>
    ensures { Steps S.accesses 6 result act.new run.new
        (bank_declared list.0 lies_in.0 lies_in.1 value act.old, at_position act.old list.1) run.old }
{
    let (region, field) = lies_in;
    let value = integer_of(&run.world, value)?;
    let source = FieldSource::Bank(region, Bank { field, value });
    let flow = lay_behind_flags(run, act, source, list)?;
    Ok(Next::Flow(flow))
}

/// The fields of a list whose flags stand next; evaluation goes on behind them.
fn lay_behind_flags<S: Space>(
    run: &mut Running<S>,
    act: &mut Activation,
    source: FieldSource,
    list: (u8, Position),
) -> Result<Flow>
    ensures spent { run.new.1 ≤ run.old.1 }
    ensures means { Does result run.new (fields_laid act.old.scope act.old.depth source
        (an_integer 1 act.old.place).0 (fields_at (terms act.old list.0) (over 1 act.old.place))) run.old }
    ensures behind { act.new ≡ at_position act.old list.1 }
{
    let (levels, outer) = list;
    let flags = u64::from(act.next_byte());
    act.advance(1);
    let elements = act.field_list(levels);
    let flow = lay_fields(run, act, source, flags, elements);
    act.go_to(outer);
    flow
}
