//! Packages: their elements are evaluated one after another, and a name that is an element is searched for at each
//! use (ACPI 6.5, 19.6: Package, VarPackage, and 20.2.5.4).
ghost use Rattle.std.specs.Prelude.{◌≡◌, ◌≤◌, ◌<◌, ◌+◌, IfOk, Ok};
ghost use Rattle.aml_meaning.specs.Meaning.{meaning};
ghost use Rattle.aml_frames.specs.declared.frames.Frame.TheVariants as frames;
ghost use Rattle.aml_frames.specs.Places.{at_place};
ghost use Rattle.aml_frames.specs.Operands.{outside_at};
ghost use Rattle.aml_frames.specs.Data.{package_term_run, var_package_run, package_run, package_made, named_left};
ghost use Rattle.aml_frames.specs.Data.{unfilled, one_fewer};
ghost use Rattle.aml_frames.specs.Follow.{at_position, Leads, EndsAt};
ghost use Rattle.aml_frames.specs.Weights.{next_weight, charged};
ghost use Rattle.aml_frames.specs.Steps.{Steps, frame_at};

use aml_frames::{Activation, Boxed, Frame, Next, Package, Position, integer_of};
use aml_meaning::{Flow, Running};
use aml_objects::{Element, Elements};
use aml_world::MAX_ELEMENTS;
use ar_space::{Result, Space};
use std::alloc::Global;

/// Package: a byte says how many elements it has.
#[tactic(auto, using(aml_frames::proofs::Forming::packages))]
pub(crate) fn begin_package<S: Space>(
    run: &Running<S>,
    act: &mut Activation,
    levels: u8,
) -> Result<Next>
    ensures { Steps S.accesses 6 result act.new run.now
        (package_term_run (meaning S.accesses) act.old levels, at_place act.old (outside_at act.old.place)) run.now }
{
    let outer = act.open();
    let count = usize::from(act.next_byte());
    act.advance(1);
    let filling = unfilled(run.world.alloc, act, levels, outer, count);
    Ok(Next::Package(Boxed::new(run.world.alloc, filling)?))
}

/// VarPackage: the number of its elements is evaluated.
#[tactic(auto, using(aml_frames::proofs::Forming::packages))]
pub(crate) fn begin_var_package<S: Space>(
    run: &Running<S>,
    act: &mut Activation,
    levels: u8,
) -> Next
    ensures { Steps S.accesses 6 (Ok result) act.new run.now
        (var_package_run (meaning S.accesses) act.old levels, at_place act.old (outside_at act.old.place)) run.now }
{
    let outer = act.open();
    Next::Term(levels, Frame::VarPackage(levels, outer))
}

/// VarPackage whose number of elements was evaluated.
#[tactic(auto, using(aml_frames::proofs::Forming::counting))]
pub fn resume_var_package<S: Space>(
    run: &mut Running<S>,
    act: &mut Activation,
    levels: u8,
    outer: Position,
    flow: Flow,
) -> Result<Next>
    ensures { Steps S.accesses 6 result act.new run.new
        (frame_at S.accesses (frames.VarPackage levels outer) act.old flow) run.old }
{
    let value = flow.value()?;
    let count = integer_of(&run.world, value)?;
    run.world.within(MAX_ELEMENTS, count)?;
    let filling = unfilled(run.world.alloc, act, levels, outer, count as usize);
    Ok(Next::Package(Boxed::new(run.world.alloc, filling)?))
}

/// A package of so many elements, of which none is evaluated.
fn unfilled(alloc: Global, act: &Activation, levels: u8, outer: Position, count: usize) -> Package
    ensures { result ≡ unfilled count levels outer act.now }
{
    Package {
        count,
        left: count,
        turns: act.rest().len(),
        levels,
        outer,
        done: Elements::new(alloc),
    }
}

/// The elements of a package that are left: the next one is evaluated, or the package is made.
#[tactic(auto, using(aml_frames::proofs::Forming::elements))]
pub fn begin_element<S: Space>(
    run: &mut Running<S>,
    act: &mut Activation,
    filling: Boxed<Package>,
) -> Result<Next>
    ensures spent { run.new.1 ≤ run.old.1 }
    ensures falls { IfOk result (λ n. charged run.new.1 + next_weight n < charged run.old.1 + 4) }
    ensures means { Leads S.accesses (meaning S.accesses) result act.new run.new
        (package_run (meaning S.accesses) filling act.old) run.old }
    ensures ends { EndsAt result act.new (at_position act.old filling.outer) }
{
    let rest = act.rest().len();
    if filling.get().left == 0 || filling.get().turns == 0 || rest == 0 {
        return finish_package(run, act, filling.into_inner());
    }
    if act.is_at_call(filling.get().levels) {
        return put_name(run, act, filling);
    }
    let levels = filling.get().levels;
    Ok(Next::Term(levels, Frame::Element(one_fewer(filling))))
}

/// The same package, of which one element fewer is left.
#[inline(always)]
fn one_fewer(filling: Boxed<Package>) -> Boxed<Package>
    requires left { 0 < filling.left }
    requires turns { 0 < filling.turns }
    ensures { result ≡ one_fewer filling }
{
    let mut filling = filling;
    filling.inside.left -= 1;
    filling.inside.turns -= 1;
    filling
}

/// A package whose elements are all there.
#[tactic(auto, using(aml_frames::proofs::Stepping::stepping), unfolding(aml_frames::specs::Data::package_made))]
fn finish_package<S: Space>(
    run: &mut Running<S>,
    act: &mut Activation,
    filling: Package,
) -> Result<Next>
    ensures { Steps S.accesses 4 result act.new run.new
        (package_made filling.count filling.done, at_position act.old filling.outer) run.old }
{
    let value = run.world.new_package(filling.count, filling.done)?;
    act.go_to(filling.outer);
    Ok(Next::Flow(Flow::Value(value)))
}

/// A name is an element: it costs a step, and isn't searched for.
#[tactic(auto, using(aml_frames::proofs::Forming::naming), unfolding(aml_frames::specs::Data::named_left, aml_marks::specs::Marked::a_name))]
fn put_name<S: Space>(
    run: &mut Running<S>,
    act: &mut Activation,
    filling: Boxed<Package>,
) -> Result<Next>
    requires left { 0 < filling.left }
    requires turns { 0 < filling.turns }
    ensures spent { run.new.1 ≤ run.old.1 }
    ensures falls { IfOk result (λ n. charged run.new.1 + next_weight n < charged run.old.1 + 4) }
    ensures means { Leads S.accesses (meaning S.accesses) result act.new run.new
        (named_left (meaning S.accesses) filling act.old) run.old }
    ensures ends { EndsAt result act.new (at_position act.old filling.outer) }
{
    let mut filling = filling;
    run.charge()?;
    let name = act.name(run.world.alloc)?;
    let scope = act.scope().path.copy(run.world.alloc)?;
    act.over_name();
    filling.inside.done.push(Element::Name(name, scope))?;
    Ok(Next::Package(one_fewer(filling)))
}

/// An element of a package that was evaluated.
#[tactic(auto, using(aml_frames::proofs::Forming::counting))]
pub fn resume_element<S: Space>(
    run: &Running<S>,
    act: &Activation,
    filling: Boxed<Package>,
    flow: Flow,
) -> Result<Next>
    ensures { Steps S.accesses 6 result act.now run.now (frame_at S.accesses (frames.Element filling) act.now flow)
        run.now }
{
    let mut filling = filling;
    let value = flow.value()?;
    filling.inside.done.push(Element::Value(value))?;
    Ok(Next::Package(filling))
}
