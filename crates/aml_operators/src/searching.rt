//! Match: its operands are evaluated, with the bytes of its operators between them, and then the elements are looked
//! at one after another. The field that an element is the name of is read, which is waited for (ACPI 6.5, 19.6).
ghost use Rattle.std.specs.Prelude.{◌≡◌, ◌≤◌, ◌<◌, ◌+◌, ◌-◌, None, Ok, Err, IfOk, IfErr, IfSome};
ghost use Rattle.ar_space.specs.declared.refusal.Refusal.TheVariants.{OutOfMemory};
ghost use Rattle.aml_meaning.specs.MatchTerms.{none_matches, searched_last};
ghost use Rattle.aml_meaning.specs.Meaning.{meaning};
ghost use Rattle.aml_frames.specs.declared.frames.Frame.TheVariants as frames;
ghost use Rattle.aml_frames.specs.declared.frames.Next.TheVariants as next;
ghost use Rattle.aml_frames.specs.declared.uses.Reading.TheVariants as reading;
ghost use Rattle.aml_frames.specs.Places.{at_place, terms};
ghost use Rattle.aml_frames.specs.Operands.{behind_match};
ghost use Rattle.aml_frames.specs.Matching.{match_run, match_left, match_ends, element_read, next_byte, behind_byte};
ghost use Rattle.aml_frames.specs.Follow.{read_access, resumed, next_ends, Leads};
ghost use Rattle.aml_frames.specs.Weights.{most_searched, search_weight, step_weight, next_weight};
ghost use Rattle.aml_frames.specs.Steps.{Steps, frame_at};

use aml_accesses::read_access;
use aml_frames::{Activation, Boxed, Frame, MatchPart, Next, Reading, leave};
use aml_meaning::{Flow, Running};
use aml_objects::{Field, Value};
use aml_world::{Held, Search, Searching};
use ar_space::{Result, Space};
use std::alloc::Global;

/// Match: its package is evaluated.
#[tactic(auto, using(crate::proofs::Matching::beginning))]
pub(crate) fn begin_match<S: Space>(run: &Running<S>, act: &Activation, levels: u8) -> Result<Next>
    ensures { Steps S.accesses step_weight result act.now run.now (
      match_run S.accesses (meaning S.accesses) act.now levels,
      at_place act.now (behind_match (terms act.now levels) act.now.place),
    ) run.now }
{
    let next = wait_for(run.world.alloc, levels, MatchPart::Package)?;
    Ok(next)
}

/// A Match of which an operand was evaluated.
#[tactic(auto, using(aml_frames::proofs::Stepping::stepping))]
pub fn resume_match<S: Space>(
    run: &Running<S>,
    act: &mut Activation,
    levels: u8,
    part: Boxed<MatchPart>,
    flow: Flow,
) -> Result<Next>
    ensures { Steps S.accesses (most_searched + 7) result act.new run.now
        (frame_at S.accesses (frames.Match levels part) act.old flow) run.now }
{
    let value = flow.value()?;
    next_operand(run, act, levels, part.into_inner(), value)
}

/// A Match an operand of which has this value: the next one is evaluated, or the search begins.
#[tactic(auto, using(crate::proofs::Matching::matching))]
fn next_operand<S: Space>(
    run: &Running<S>,
    act: &mut Activation,
    levels: u8,
    part: MatchPart,
    value: Value,
) -> Result<Next>
    ensures { Steps S.accesses (most_searched + 7) result act.new run.now
        (match_left S.accesses (meaning S.accesses) part levels value act.old, match_ends part levels act.old) run.now }
{
    match part {
        MatchPart::Package => {
            let operator = take_byte(act);
            let next = wait_for(run.world.alloc, levels, MatchPart::First(value, operator))?;
            Ok(next)
        }
        MatchPart::First(source, first) => {
            let operator = take_byte(act);
            let second = MatchPart::Second(source, (first, value), operator);
            let next = wait_for(run.world.alloc, levels, second)?;
            Ok(next)
        }
        MatchPart::Second(source, first, second) => {
            let start = MatchPart::Start(source, first, (second, value));
            let next = wait_for(run.world.alloc, levels, start)?;
            Ok(next)
        }
        MatchPart::Start(source, first, second) => {
            let searching = run.world.begin_search(source, first, second, value)?;
            search_on(run, act, searching.search, searching.left)
        }
    }
}

/// The byte that stands next, which is gone over.
#[tactic(auto, using(aml_frames::proofs::Forming::bytes))]
fn take_byte(act: &mut Activation) -> u8
    ensures byte { result ≡ next_byte act.old }
    ensures behind { act.new ≡ behind_byte act.old }
{
    let byte = act.next_byte();
    act.advance(1);
    byte
}

/// The operand that stands next, and the Match that waits for it.
fn wait_for(alloc: Global, levels: u8, part: MatchPart) -> Result<Next>
    ensures next { IfOk result (λ n. n ≡ next.Term levels (frames.Match levels part)) }
    ensures falls { IfOk result (λ n. next_weight n ≤ most_searched + 4) }
    ensures memory { IfErr result (λ e. e ≡ OutOfMemory) }
{
    let held = Boxed::new(alloc, part)?;
    Ok(Next::Term(levels, Frame::Match(levels, held)))
}

/// The elements that are left, one after another: the first that matches, or the first that is the name of a field,
/// which is read.
fn search_on<S: Space>(
    run: &Running<S>,
    act: &Activation,
    search: Search,
    left: usize,
) -> Result<Next>
    ensures { Steps S.accesses (search_weight left + 4) result act.now run.now
        (searched_last S.accesses (meaning S.accesses) act.now.depth search left, act.now) run.now }
{
    let mut rest = left;
    'elements: while rest > 0 {
        let looked = look_at(run, act, search, rest)?;
        if let Some(next) = looked {
            return Ok(next);
        }
        rest -= 1;
    }
    find_none(run, act)
}

/// The next element, where so many are left: what is left to do where it matches, or where it is the name of a field;
/// nothing where it does not match.
#[tactic(auto, using(crate::proofs::Matching::looking))]
fn look_at<S: Space>(
    run: &Running<S>,
    act: &Activation,
    search: Search,
    left: usize,
) -> Result<Option<Next>>
    requires { 0 < left }
    ensures falls { IfOk result (λ o. IfSome o (λ n. next_weight n < search_weight left + 4)) }
    ensures means { IfOk result (λ o. IfSome o (λ n. Leads S.accesses (meaning S.accesses) (Ok n) act.now run.now
        (searched_last S.accesses (meaning S.accesses) act.now.depth search left) run.now)) }
    ensures ends { IfOk result (λ o. IfSome o (λ n. next_ends n act.now ≡ act.now)) }
    ensures passed { IfOk result (λ o. o ≡ None → searched_last S.accesses (meaning S.accesses) act.now.depth search
        left run.now ≡ searched_last S.accesses (meaning S.accesses) act.now.depth search (left - 1) run.now) }
    ensures refused { IfErr result (λ e. Leads S.accesses (meaning S.accesses) (Err e) act.now run.now
        (searched_last S.accesses (meaning S.accesses) act.now.depth search left) run.now) }
{
    let index = search.count.saturating_sub(left);
    let held = run.world.element_held(search.source, index)?;
    match held {
        None => Ok(None),
        Some(Held::Value(value)) => {
            let meets = run.world.value_meets(&search, value)?;
            if meets {
                return Ok(Some(Next::Flow(Flow::Value(Value::Integer(index as u64)))));
            }
            Ok(None)
        }
        Some(Held::Field(field)) => {
            let next = read_element(run.world.alloc, act, search, left, field)?;
            Ok(Some(next))
        }
    }
}

/// The field that an element is the name of is read, where so many elements are left.
fn read_element(
    alloc: Global,
    act: &Activation,
    search: Search,
    left: usize,
    field: Field,
) -> Result<Next>
    requires { 0 < left }
    ensures falls { IfOk result (λ n. next_weight n < search_weight left + 4) }
    ensures next { IfOk result (λ n. n ≡ next.AccessThen (read_access act.now field reading.Value)
        (frames.Matched (record { search = search; left = left }))) }
    ensures memory { IfErr result (λ e. e ≡ OutOfMemory) }
{
    let access = read_access(act, field, Reading::Value);
    let held = Boxed::new(alloc, access)?;
    let searching = Boxed::new(alloc, Searching { search, left })?;
    Ok(Next::AccessThen(held, Frame::Matched(searching)))
}

/// No element matches: Ones.
#[tactic(auto, using(aml_frames::proofs::Stepping::stepping), unfolding(aml_meaning::specs::MatchTerms::none_matches))]
fn find_none<S: Space>(run: &Running<S>, act: &Activation) -> Result<Next>
    ensures { Steps S.accesses 4 result act.now run.now (none_matches, act.now) run.now }
{
    let value = run.world.integer_kept(u64::MAX)?;
    Ok(Next::Flow(Flow::Value(value)))
}

/// A search whose next element is the name of a field that was read.
#[tactic(auto, using(aml_frames::proofs::Stepping::stepping))]
pub fn resume_matched<S: Space>(
    run: &Running<S>,
    act: &Activation,
    searching: Boxed<Searching>,
    flow: Flow,
) -> Result<Next>
    ensures { Steps S.accesses (search_weight (searching.left - 1) + 4) result act.now run.now
        (resumed S.accesses (meaning S.accesses) (frames.Matched searching) act.now flow, act.now) run.now }
{
    let value = flow.value()?;
    go_on_behind(run, act, searching.into_inner(), value)
}

/// A search whose next element has this value: it matches, or those behind it are looked at.
#[tactic(auto, using(aml_frames::proofs::Stepping::stepping), unfolding(aml_frames::specs::Matching::element_read))]
fn go_on_behind<S: Space>(
    run: &Running<S>,
    act: &Activation,
    searching: Searching,
    value: Value,
) -> Result<Next>
    ensures { Steps S.accesses (search_weight (searching.left - 1) + 4) result act.now run.now
        (element_read S.accesses (meaning S.accesses) act.now.depth searching value, act.now) run.now }
{
    let Searching { search, left } = searching;
    let meets = run.world.value_meets(&search, value)?;
    if meets {
        let found = search.count.saturating_sub(left);
        return leave(Flow::Value(Value::Integer(found as u64)));
    }
    search_on(run, act, search, left.saturating_sub(1))
}
