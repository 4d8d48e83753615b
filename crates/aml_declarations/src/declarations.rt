//! Terms that declare something, and the scopes that they stand in (ACPI 6.5, 19.6 and 20.2.5). The operands stand
//! next.
ghost use Rattle.std.specs.Prelude.{◌≡◌, ◌≤◌, Ok};
ghost use Rattle.ar_space.specs.Change.{Does};
ghost use Rattle.aml_marks.specs.Marked.{a_name};
ghost use Rattle.aml_path.specs.Paths.{resolved};
ghost use Rattle.ar_space.specs.Outcome.{Answers, NotMemory};
ghost use Rattle.aml_world.specs.state.Declaring.{new_name};
ghost use Rattle.aml_meaning.specs.Meaning.{meaning};
ghost use Rattle.aml_meaning.specs.Tasks.{module_level};
ghost use Rattle.aml_meaning.specs.DeclarationTerms.{declaring, alias_rule, method_rule};
ghost use Rattle.aml_frames.specs.declared.frames.Frame.TheVariants as frames;
ghost use Rattle.aml_frames.specs.declared.frames.Next.TheVariants as next;
ghost use Rattle.aml_frames.specs.Places.{at_place, terms};
ghost use Rattle.aml_frames.specs.Operands.{behind_one, outside_at};
ghost use Rattle.aml_frames.specs.Declarations.{coded_tree, behind_numbers, declaration_run, behind_declaration_at};
ghost use Rattle.aml_frames.specs.Declarations.{declared_at, named_run, list_in, scope_run, new_scope_run};
ghost use Rattle.aml_frames.specs.Declarations.{scope_object};
ghost use Rattle.aml_frames.specs.Follow.{place_of, at_position, behind_coded};
ghost use Rattle.aml_frames.specs.Steps.{Steps, frame_at};

use aml_frames::{
    Activation, Frame, MethodPath, Next, Position, bytes_operand, leave, number_operand, told,
};
use aml_grammar::TermReader;
use aml_meaning::{DeclarationKind, Flow, Running};
use aml_objects::{MethodFlags, NamedObject, NodeId};
use aml_path::{NameString, Path};
use aml_terms::RowPlace;
use aml_world::WorldState;
use ar_space::{Result, Space};

/// A term that declares something, or a Scope, by its kind and the place of its row: it is done, or its first part is
/// evaluated.
#[tactic(auto, using(aml_frames::proofs::Declaring::declaring_terms))]
pub fn begin_declaration<S: Space>(
    run: &mut Running<S>,
    act: &mut Activation,
    levels: u8,
    place: RowPlace,
    kind: DeclarationKind,
) -> Result<Next>
    ensures { Steps S.accesses 10 result act.new run.new (
      declaration_run (meaning S.accesses) kind place act.old levels,
      behind_declaration_at kind place act.old levels,
    ) run.old }
{
    match kind {
        DeclarationKind::Scope => begin_scope(run, act, levels),
        DeclarationKind::Device => begin_new_scope(run, act, levels, kind),
        DeclarationKind::Processor => begin_new_scope(run, act, levels, kind),
        DeclarationKind::PowerResource => begin_new_scope(run, act, levels, kind),
        DeclarationKind::ThermalZone => begin_new_scope(run, act, levels, kind),
        DeclarationKind::Name => Ok(begin_named(run, act, levels)),
        DeclarationKind::Alias => {
            let flow = declare_alias(run, act, levels, place)?;
            Ok(done(act, levels, place, flow))
        }
        DeclarationKind::External => Ok(done(act, levels, place, Flow::Next)),
        DeclarationKind::Method => {
            let flow = declare_method(run, act, levels, place)?;
            Ok(done(act, levels, place, flow))
        }
        DeclarationKind::Mutex => {
            let flow = declare(run, act, levels, place, NamedObject::Mutex(0))?;
            Ok(done(act, levels, place, flow))
        }
        DeclarationKind::Event => {
            let flow = declare(run, act, levels, place, NamedObject::Event(0))?;
            Ok(done(act, levels, place, flow))
        }
    }
}

/// A term of which no part is evaluated is done.
pub(crate) fn done(act: &mut Activation, levels: u8, place: RowPlace, flow: Flow) -> Next
    ensures flow { result ≡ next.Flow flow }
    ensures behind { act.new ≡ behind_coded place act.old levels }
{
    act.over_operands(levels, place);
    Next::Flow(flow)
}

/// The path that a name stands for that is declared.
fn resolve<S>(world: &mut WorldState<S>, act: &Activation, name: &NameString) -> Result<Path>
    ensures path { Answers result (resolved name.now act.now.scope) }
    ensures world { world.new ≡ world.old }
{
    let path = name.resolve_in(world.alloc, act.scope().path);
    told(world, act, name, path)
}

/// A name is declared, by the path that it stands for.
fn declare_path<S>(
    world: &mut WorldState<S>,
    act: &Activation,
    name: &NameString,
    path: Path,
    object: NamedObject,
) -> Result<u64>
    ensures { Does result world.new (new_name (module_level act.now.depth) path object) world.old }
{
    let declared = world.new_name(act.depth() == 0, path, object);
    told(world, act, name, declared)
}

// ---- terms of which no part is evaluated

/// The name that is the first operand of a term is declared.
#[tactic(auto, using(aml_meaning::proofs::Runs::running), unfolding(aml_meaning::specs::DeclarationTerms::declaring))]
fn declare<S: Space>(
    run: &mut Running<S>,
    act: &Activation,
    levels: u8,
    place: RowPlace,
    object: NamedObject,
) -> Result<Flow>
    ensures spent { run.new.1 ≤ run.old.1 }
    ensures means { Does result run.new (declaring (meaning S.accesses) act.now.scope act.now.depth (coded_tree place
        act.now levels) 0 object) run.old }
{
    let name = act.coded_term(levels, place).name(run.world.alloc, 0)?;
    let path = resolve(&mut run.world, act, &name)?;
    declare_path(&mut run.world, act, &name, path, object)?;
    Ok(Flow::Next)
}

/// Alias: another name for what a name finds.
#[tactic(auto, using(aml_meaning::proofs::Runs::running), unfolding(aml_meaning::specs::DeclarationTerms::alias_rule))]
fn declare_alias<S: Space>(
    run: &mut Running<S>,
    act: &Activation,
    levels: u8,
    place: RowPlace,
) -> Result<Flow>
    ensures spent { run.new.1 ≤ run.old.1 }
    ensures means { Does result run.new
        (alias_rule (meaning S.accesses) act.now.scope act.now.depth (coded_tree place act.now levels)) run.old }
{
    let term = act.coded_term(levels, place);
    let source = term.name(run.world.alloc, 0)?;
    let located = run.world.locate(act.scope(), &source);
    let target = told(&mut run.world, act, &source, located)?;
    let name = term.name(run.world.alloc, 1)?;
    let path = resolve(&mut run.world, act, &name)?;
    let object = NamedObject::Alias(target.into_path());
    declare_path(&mut run.world, act, &name, path, object)?;
    Ok(Flow::Next)
}

/// Method: its flags, and the bytes of its body.
#[tactic(auto, using(aml_meaning::proofs::Runs::running), unfolding(aml_meaning::specs::DeclarationTerms::method_rule))]
fn declare_method<S: Space>(
    run: &mut Running<S>,
    act: &Activation,
    levels: u8,
    place: RowPlace,
) -> Result<Flow>
    ensures spent { run.new.1 ≤ run.old.1 }
    ensures means { Does result run.new
        (method_rule (meaning S.accesses) act.now.scope act.now.depth (coded_tree place act.now levels)) run.old }
{
    let term = act.coded_term(levels, place);
    let name = term.name(run.world.alloc, 0)?;
    let path = resolve(&mut run.world, act, &name)?;
    let flags = number_operand(&term, 1)?;
    let body = bytes_operand(run.world.alloc, &term, 2)?;
    let flags = MethodFlags {
        byte: (flags % 256) as u8,
    };
    let declared = run.world.new_method(act.depth() == 0, path, flags, body);
    told(&mut run.world, act, &name, declared)?;
    Ok(Flow::Next)
}

// ---- names that are declared behind a value

/// Name: its datum is evaluated.
#[tactic(auto, using(aml_frames::proofs::Declaring::naming), unfolding(aml_marks::specs::Marked::a_name))]
fn begin_named<S: Space>(run: &Running<S>, act: &mut Activation, levels: u8) -> Next
    ensures { Steps S.accesses 6 (Ok result) act.new run.now (
      named_run (meaning S.accesses) act.old levels,
      at_place act.old (behind_one (terms act.old levels) (a_name act.old.place).1),
    ) run.now }
{
    let name = act.position();
    act.over_name();
    Next::Term(levels, Frame::Named(name))
}

/// A Name whose datum was evaluated.
#[tactic(auto, using(aml_frames::proofs::Stepping::stepping))]
pub fn resume_named<S: Space>(
    run: &mut Running<S>,
    act: &Activation,
    name: Position,
    flow: Flow,
) -> Result<Next>
    ensures { Steps S.accesses 6 result act.now run.new (frame_at S.accesses (frames.Named name) act.now flow) run.old }
{
    let value = flow.value()?;
    declare_at(run, act, name, NamedObject::Data(value))
}

/// The name that stands at a position is declared.
#[tactic(auto, using(aml_frames::proofs::Stepping::stepping), unfolding(aml_frames::specs::Declarations::declared_at))]
pub(crate) fn declare_at<S: Space>(
    run: &mut Running<S>,
    act: &Activation,
    name: Position,
    object: NamedObject,
) -> Result<Next>
    ensures { Steps S.accesses 6 result act.now run.new (declared_at object (place_of act.now name) act.now, act.now)
        run.old }
{
    let name = act.name_at(run.world.alloc, name)?;
    let path = resolve(&mut run.world, act, &name)?;
    declare_path(&mut run.world, act, &name, path, object)?;
    Ok(Next::Flow(Flow::Next))
}

// ---- scopes: their lists stand in them

/// Scope: its list is evaluated in the scope that its name finds.
#[tactic(auto, using(aml_frames::proofs::Declaring::entering), unfolding(aml_frames::specs::Declarations::scope_run, aml_marks::specs::Marked::a_name))]
fn begin_scope<S: Space>(run: &mut Running<S>, act: &mut Activation, levels: u8) -> Result<Next>
    ensures { Steps S.accesses 10 result act.new run.new
        (scope_run (meaning S.accesses) act.old levels, at_place act.old (outside_at act.old.place)) run.old }
{
    let outer = act.open();
    let name = act.name(run.world.alloc)?;
    let found = run.world.locate_scope(act.scope(), &name);
    let located = told(&mut run.world, act, &name, found)?;
    let node = located.scope().node;
    let scope = MethodPath::new(run.world.alloc, located.into_path())?;
    act.over_name();
    Ok(begin_list_in(run, act, levels, outer, (scope, node)))
}

/// Device, Processor, PowerResource or ThermalZone: its name is declared, and its list is evaluated in it.
#[tactic(auto, using(aml_frames::proofs::Declaring::entering), unfolding(aml_frames::specs::Declarations::new_scope_run, aml_marks::specs::Marked::a_name))]
fn begin_new_scope<S: Space>(
    run: &mut Running<S>,
    act: &mut Activation,
    levels: u8,
    kind: DeclarationKind,
) -> Result<Next>
    ensures { Steps S.accesses 10 result act.new run.new (
      new_scope_run (meaning S.accesses) kind (scope_object kind) act.old levels,
      at_place act.old (outside_at act.old.place),
    ) run.old }
{
    let outer = act.open();
    let name = act.name(run.world.alloc)?;
    let path = resolve(&mut run.world, act, &name)?;
    let declared = declare_scope(&mut run.world, act.depth(), &path, scope_object(kind));
    told(&mut run.world, act, &name, declared)?;
    let node = run.world.scope(&path).node;
    let scope = MethodPath::new(run.world.alloc, path)?;
    act.over_name();
    over_numbers(act, kind);
    Ok(begin_list_in(run, act, levels, outer, (scope, node)))
}

/// What a term that opens a new scope declares; of other terms a plain scope.
fn scope_object(kind: DeclarationKind) -> NamedObject
    ensures { result ≡ scope_object kind }
{
    match kind {
        DeclarationKind::Device => NamedObject::Device,
        DeclarationKind::Processor => NamedObject::Processor,
        DeclarationKind::PowerResource => NamedObject::PowerResource,
        DeclarationKind::ThermalZone => NamedObject::ThermalZone,
        _ => NamedObject::Scope,
    }
}

/// Declares a name at a path that is used again.
fn declare_scope<S: Space>(
    world: &mut WorldState<S>,
    depth: usize,
    path: &Path,
    object: NamedObject,
) -> Result<u64>
    ensures { Does result world.new (new_name (module_level depth) path.now object) world.old }
{
    let own = match path.copy(world.alloc) {
        Ok(own) => own,
        Err(refusal) => return Err(refusal),
    };
    world.new_name(depth == 0, own, object)
}

/// Goes over the numbers that a Processor and a PowerResource have behind their name.
fn over_numbers(act: &mut Activation, kind: DeclarationKind)
    ensures { act.new ≡ at_place act.old (behind_numbers kind act.old.place) }
{
    match kind {
        DeclarationKind::Processor => {
            act.advance(1);
            act.advance(4);
            act.advance(1);
        }
        DeclarationKind::PowerResource => {
            act.advance(1);
            act.advance(2);
        }
        _ => {}
    }
}

/// The list that stands next is evaluated in a scope, given with its node.
#[tactic(auto, using(aml_frames::proofs::Declaring::listing))]
fn begin_list_in<S: Space>(
    run: &Running<S>,
    act: &mut Activation,
    levels: u8,
    outer: Position,
    scope: (MethodPath, NodeId),
) -> Next
    ensures { Steps S.accesses 10 (Ok result) act.new run.now
        (list_in (meaning S.accesses) scope.0 act.old levels, at_position act.old outer) run.now }
{
    let items = act.items(levels, outer);
    let (path, node) = scope;
    let (path, node) = act.enter(path, node);
    Next::Scope(items, path, node)
}

/// A scope whose list was evaluated: names stand in the scope around it again.
#[tactic(auto, using(aml_frames::proofs::Stepping::stepping))]
pub fn resume_scope<S: Space>(
    run: &Running<S>,
    act: &mut Activation,
    scope: MethodPath,
    node: NodeId,
    flow: Flow,
) -> Result<Next>
    ensures steps { Steps S.accesses 6 result act.new run.now
        (frame_at S.accesses (frames.Scope scope node) act.old flow) run.now }
    ensures memory { NotMemory result }
{
    let _inner = act.enter(scope, node);
    leave(flow)
}
