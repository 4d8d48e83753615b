//! Names of one segment without a prefix that stand next: they are read, stored to and counted without a name being
//! made (ACPI 6.5, 5.3 and 20.2.2). Where that isn't quick, each of these functions answers that it did nothing, and
//! then nothing changes.
ghost use Rattle.std.specs.Prelude.{◌≡◌, ◌<◌, None, Ok, Err, true, false, IfOk, IfErr, IfSome};
ghost use Rattle.ar_space.specs.Outcome.{NotMemory};
ghost use Rattle.aml_path.specs.Segments.{seg_of};
ghost use Rattle.aml_marks.specs.Marked.{count_at};
ghost use Rattle.aml_objects.specs.declared.value.Value.TheVariants as values;
ghost use Rattle.aml_meaning.specs.declared.flow.Flow.TheVariants as flows;
ghost use Rattle.aml_frames.specs.declared.uses.TargetUse.TheVariants as uses;
ghost use Rattle.aml_frames.specs.at_once.ShortNames.{IsSegmentAt, FindsAt, Reads, Puts};
ghost use Rattle.aml_frames.specs.at_once.Known.{CountedTarget, KnownInteger, StoredInteger, TakenTarget};

use crate::activation::Activation;
use aml_meaning::Running;
use aml_objects::NodeId;
use aml_path::Seg;
use aml_world::{Count, WorldState};
use ar_space::{Result, Space};

/// How many bytes a name of one segment takes.
const SEGMENT_LENGTH: usize = 4;

/// How many bytes the timeout of Acquire takes.
const TIMEOUT_LENGTH: usize = 2;

/// The segment of the name that begins here, where it is one segment without a prefix.
fn one_segment(act: &Activation) -> Option<Seg>
    ensures { IfSome result (λ segment. IsSegmentAt act.now.place segment) }
{
    match act.rest() {
        [first, second, third, fourth, ..] => { segment_of([*first, *second, *third, *fourth]) }
        _ => None,
    }
}

/// The segment of four characters, where they are one.
fn segment_of(bytes: [u8; 4]) -> Option<Seg>
    ensures { IfSome result (λ segment. Ok segment ≡ seg_of bytes) }
{
    match Seg::new(bytes) {
        Ok(segment) => Some(segment),
        Err(_) => None,
    }
}

/// The node that the name finds that begins here, where it is one segment without a prefix.
pub fn node_at<S>(world: &WorldState<S>, act: &Activation) -> Option<NodeId>
    ensures { IfSome result (λ id. FindsAt world.now act.now.scope act.now.place id.number) }
{
    match one_segment(act) {
        None => None,
        Some(segment) => world.node_named(act.scope(), segment),
    }
}

/// The same of a name where a value stands, which no argument follows.
fn node_of_value<S>(world: &WorldState<S>, act: &Activation, levels: u8) -> Option<NodeId>
    ensures finds { IfSome result (λ id. FindsAt world.now act.now.scope act.now.place id.number) }
    ensures levels { IfSome result (λ id. 0 < levels) }
    ensures alone { IfSome result (λ id. count_at act.now.marks act.now.place.at ≡ 0) }
{
    if levels == 0 || !act.is_at_name() || act.argument_count() > 0 {
        return None;
    }
    node_at(world, act)
}

/// The integer that a name holds which is the node with an id, if it holds one, or the bits of a field unit that are
/// read at once.
fn read_node<S: Space>(world: &mut WorldState<S>, id: NodeId) -> Result<Option<u64>>
    ensures read { IfOk result (λ read. IfSome read (λ number. Reads S.accesses id.number (Ok (flows.Value
        (values.Integer number))) world.new world.old)) }
    ensures refused { IfErr result (λ refusal. Reads S.accesses id.number (Err refusal) world.new world.old) }
    ensures none { IfOk result (λ read. read ≡ None → world.new ≡ world.old) }
    ensures memory { NotMemory result }
{
    if let Some(number) = world.node_integer(id) {
        return Ok(Some(number));
    }
    match world.node_unit(id) {
        None => Ok(None),
        Some(unit) => world.unit_integer(unit),
    }
}

/// The integer that the term gives which stands next, where it is a name of one segment that no argument follows, and
/// the name holds an integer or is a field unit whose bits are read at once. It takes a step, as the term does.
#[tactic(auto, using(crate::proofs::ShortNames::short_values))]
pub(crate) fn integer_at_name<S: Space>(
    run: &mut Running<S>,
    act: &mut Activation,
    levels: u8,
) -> Result<Option<u64>>
    ensures { KnownInteger S.accesses result act.new run.new levels act.old run.old }
{
    let Some(id) = node_of_value(&run.world, act, levels) else {
        return Ok(None);
    };
    if run.steps == 0 {
        return Ok(None);
    }
    run.steps -= 1;
    match read_node(&mut run.world, id)? {
        None => {
            run.steps += 1;
            Ok(None)
        }
        Some(number) => {
            act.advance(SEGMENT_LENGTH);
            Ok(Some(number))
        }
    }
}

/// Stores an integer to the node with an id, where a name holds an integer there, or it is a field unit whose bits
/// are written at once.
#[tactic(auto, using(crate::proofs::ShortNames::puts_integer))]
fn put_node<S: Space>(world: &mut WorldState<S>, id: NodeId, number: u64) -> Result<bool>
    ensures done { IfOk result (λ done. done ≡ true → Puts S.accesses id.number (values.Integer number) (Ok tt)
        world.new world.old) }
    ensures refused { IfErr result (λ refusal. Puts S.accesses id.number (values.Integer number) (Err refusal)
        world.new world.old) }
    ensures none { IfOk result (λ done. done ≡ false → world.new ≡ world.old) }
    ensures memory { NotMemory result }
{
    if world.put_integer_at(id, number) {
        return Ok(true);
    }
    match world.node_unit(id) {
        None => Ok(false),
        Some(unit) => world.put_unit_integer(unit, number),
    }
}

/// Stores an integer to the name that stands next, where it is one segment, and holds an integer or is a field unit
/// whose bits are written at once.
#[tactic(auto, using(crate::proofs::ShortNames::short_targets))]
pub(crate) fn put_integer_at_name<S: Space>(
    run: &mut Running<S>,
    act: &mut Activation,
    levels: u8,
    number: u64,
) -> Result<bool>
    ensures { StoredInteger S.accesses result act.new run.new number levels act.old run.old }
{
    let Some(id) = node_at(&run.world, act) else {
        return Ok(false);
    };
    if put_node(&mut run.world, id, number)? {
        act.advance(SEGMENT_LENGTH);
        return Ok(true);
    }
    Ok(false)
}

/// Counts up or down the integer that the name of one segment holds which stands next, and gives it as it is then.
#[tactic(auto, using(crate::proofs::ShortNames::short_targets))]
pub(crate) fn count_at_name<S: Space>(
    run: &mut Running<S>,
    act: &mut Activation,
    levels: u8,
    kind: Count,
) -> Option<u64>
    ensures { CountedTarget S.accesses result act.new run.new kind levels act.old run.old }
{
    let Some(id) = node_at(&run.world, act) else {
        return None;
    };
    let Some(held) = run.world.node_integer(id) else {
        return None;
    };
    let number = run.world.count_integer(kind, held);
    if !run.world.put_integer_at(id, number) {
        return None;
    }
    act.advance(SEGMENT_LENGTH);
    Some(number)
}

/// Acquires the mutex that the name of one segment names which stands next, and goes over the timeout behind it. Where
/// it names none, or one that is acquired as often as can be counted, it answers no, and nothing changes.
#[tactic(auto, using(crate::proofs::ShortNames::short_mutexes))]
pub fn acquire_at_name<S: Space>(run: &mut Running<S>, act: &mut Activation, levels: u8) -> bool
    ensures { TakenTarget S.accesses result (flows.Value (values.Integer 0)) act.new run.new uses.Acquire levels act.old
        run.old }
{
    let Some(id) = node_at(&run.world, act) else {
        return false;
    };
    if !run.world.acquire_node(id) {
        return false;
    }
    act.advance(SEGMENT_LENGTH);
    act.advance(TIMEOUT_LENGTH);
    true
}

/// Releases the mutex that the name of one segment names which stands next. Where it names none, or one that nobody
/// has acquired, it answers no, and nothing changes.
#[tactic(auto, using(crate::proofs::ShortNames::short_mutexes))]
pub fn release_at_name<S: Space>(run: &mut Running<S>, act: &mut Activation, levels: u8) -> bool
    ensures { TakenTarget S.accesses result flows.Next act.new run.new uses.Release levels act.old run.old }
{
    let Some(id) = node_at(&run.world, act) else {
        return false;
    };
    if !run.world.release_node(id) {
        return false;
    }
    act.advance(SEGMENT_LENGTH);
    true
}
