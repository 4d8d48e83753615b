//! How terms begin: what is done before the first part of a term is evaluated. The machine goes on with what is left
//! to do.
ghost use Rattle.std.specs.Prelude.{◌≡◌, ◌≢◌, ◌<◌, true, OnOk, IfOk, IfErr};
ghost use Rattle.aml_grammar.specs.Apart.{code_of};
ghost use Rattle.aml_grammar.specs.declared.opcode.Opcode.{Opcode};
ghost use Rattle.aml_grammar.specs.declared.opcode.TermCode.TheVariants as codes;
ghost use Rattle.aml_world.specs.state.PassedOver.{is_passable};
ghost use Rattle.aml_meaning.specs.Meaning.{meaning};
ghost use Rattle.aml_frames.specs.Places.{next_term, behind_term};
ghost use Rattle.aml_frames.specs.Follow.{term_run, begun_run, coded_run, behind_coded, Leads, EndsAt};
ghost use Rattle.aml_frames.specs.Weights.{step_weight, next_weight};
ghost use Rattle.aml_frames.specs.Steps.{Steps};

use aml_declarations::{begin_data, begin_declaration, begin_region_term};
use aml_frames::{Activation, Next};
use aml_meaning::{Running, TermKind, kind_of};
use aml_operators::{begin_name, begin_operator, begin_wide};
use aml_statements::begin_statement;
use aml_terms::RowPlace;
use ar_space::{EvaluationFault, NameFault, Refusal, Result, Space};

/// Begins the term that stands next, with so many levels: it costs a step.
#[inline(always)]
#[tactic(auto, using(aml_frames::proofs::Using::beginning_terms), unfolding(aml_meaning::specs::Evaluation::rule))]
pub(crate) fn begin_term<S: Space>(
    run: &mut Running<S>,
    act: &mut Activation,
    levels: u8,
) -> Result<Next>
    ensures paid { OnOk result (run.new.1 < run.old.1) }
    ensures refused { IfErr result (λ e. is_passable e ≡ true → run.new.1 < run.old.1) }
    ensures falls { IfOk result (λ n. next_weight n < step_weight) }
    ensures means { Leads S.accesses (meaning S.accesses) result act.new run.new
        (term_run S.accesses (meaning S.accesses) act.old levels) run.old }
    ensures ends { EndsAt result act.new (behind_term act.old levels) }
{
    run.charge()?;
    begin_paid(run, act, levels)
}

/// A term whose step is paid.
#[inline(always)]
#[tactic(auto, using(aml_frames::proofs::Using::beginning_terms, aml_frames::proofs::Stepping::coding))]
fn begin_paid<S: Space>(run: &mut Running<S>, act: &mut Activation, levels: u8) -> Result<Next>
    ensures { Steps S.accesses step_weight result act.new run.new
        (begun_run S.accesses (meaning S.accesses) act.old levels, behind_term act.old levels) run.old }
{
    match act.take_opcode(levels) {
        Some(place) => begin_coded(run, act, levels - 1, place),
        None => begin_uncoded(run, act, levels),
    }
}

/// A term without an opcode: a name with its arguments. Nothing else is evaluated.
#[tactic(auto, using(aml_frames::proofs::Using::beginning_terms))]
fn begin_uncoded<S: Space>(run: &mut Running<S>, act: &mut Activation, levels: u8) -> Result<Next>
    requires { (opcode : Opcode) → code_of (next_term act.old levels) ≢ codes.Opcode opcode }
    ensures { Steps S.accesses step_weight result act.new run.new
        (begun_run S.accesses (meaning S.accesses) act.old levels, behind_term act.old levels) run.old }
{
    if act.is_at_call(levels) {
        return begin_name(run, act, levels - 1);
    }
    Err(Refusal::Name(NameFault::BadName))
}

/// A term whose opcode was read, by the place of its row: its operands stand next.
#[inline(always)]
#[tactic(auto, using(aml_frames::proofs::Using::beginning_terms, aml_frames::proofs::Stepping::coding, aml_declarations::proofs::DeclaringFields::coded_regions, aml_operators::proofs::WideSteps::beginning_wide))]
fn begin_coded<S: Space>(
    run: &mut Running<S>,
    act: &mut Activation,
    levels: u8,
    place: RowPlace,
) -> Result<Next>
    ensures { Steps S.accesses step_weight result act.new run.new
        (coded_run S.accesses (meaning S.accesses) place act.old levels, behind_coded place act.old levels) run.old }
{
    match kind_of(place.row().0) {
        TermKind::Operator(kind) => begin_operator(run, act, levels, kind),
        TermKind::Statement(kind) => begin_statement(run, act, levels, kind),
        TermKind::Data(kind) => begin_data(run, act, levels, place, kind),
        TermKind::Declaration(kind) => begin_declaration(run, act, levels, place, kind),
        TermKind::Region(kind) => begin_region_term(run, act, levels, place, kind),
        TermKind::Wide(kind) => begin_wide(run, act, levels, place.row().0, kind),
        TermKind::Unsupported => {
            Err(Refusal::Evaluation(EvaluationFault::Unsupported(place.row().0.number())))
        }
    }
}
