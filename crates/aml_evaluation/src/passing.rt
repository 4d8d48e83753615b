//! Items that the wide profile passes over: at module level a list goes on behind an item that is refused. What the
//! item left behind of the list, the scope and the place in it, is given up, so that each item is kept with a share
//! of its list.
ghost use Rattle.std.specs.Prelude.{◌≡◌, ◌+◌, ◌<◌, [], ◌∷◌, ◌++◌, true, OnOk, OnErr, IfOk, IfErr, IsOk};
ghost use Rattle.ar_space.specs.Change.{stop};
ghost use Rattle.ar_space.specs.Outcome.{NotMemory};
ghost use Rattle.ar_space.specs.declared.refusal.Refusal.TheVariants.{OutOfMemory};
ghost use Rattle.aml_world.specs.state.PassedOver.{is_passable};
ghost use Rattle.aml_meaning.specs.Meaning.{meaning};
ghost use Rattle.aml_meaning.specs.Tasks.{passes_over};
ghost use Rattle.aml_frames.specs.declared.frames.Control.TheVariants as control;
ghost use Rattle.aml_frames.specs.declared.frames.Entry.TheVariants as entry;
ghost use Rattle.aml_frames.specs.Stack.{then_all, machine, Goes, stack_weight, control_weight};

use crate::lists::next_item;
use crate::waiting::Stack;
use aml_frames::{Activation, Boxed, Control, Entry, Items, ListItem};
use aml_meaning::{Flow, Running};
use ar_space::{Refusal, Result, Space};
use std::alloc::Global;

/// Whether an item of a list is passed over where it is refused.
#[inline(always)]
pub(crate) fn passes_over<S>(run: &Running<S>, list: &Activation) -> bool
    ensures { result ≡ passes_over list.now.depth run.now.0.profile }
{
    list.depth() == 0 && run.world.profile().is_wide()
}

/// An item begins that may be passed over, and the list waits.
#[cold]
pub(crate) fn push_passable_item(alloc: Global, stack: &mut Stack, behind: Items) -> Result<Control>
    ensures act { OnOk result (stack.new.act ≡ stack.old.act) }
    ensures pushed { OnOk result (stack.new.entries.items ≡ stack.old.entries.items ++
        entry.Item (record { list = stack.old.act; behind = behind }) ∷ []) }
    ensures next { IfOk result (λ c. c ≡ control.Term behind.levels) }
    ensures memory { IfErr result (λ e. e ≡ OutOfMemory) }
{
    let list = stack.act.share()?;
    let item = Boxed::new(alloc, ListItem { list, behind })?;
    stack.entries.push(Entry::Item(item))?;
    Ok(Control::Term(behind.levels))
}

/// Goes on behind an item that is refused. Only want of memory refuses it.
#[cold]
#[tactic(auto, using(crate::proofs::Unwinding::passing))]
pub(crate) fn pass_item_over<S: Space>(
    run: &mut Running<S>,
    stack: &mut Stack,
    item: ListItem,
    refusal: Refusal,
) -> Result<Control>
    requires { is_passable refusal ≡ true }
    ensures steps { run.new.1 ≡ run.old.1 }
    ensures stack { stack.new.entries.items ≡ stack.old.entries.items }
    ensures next { IfOk result (λ c. c ≡ control.Items item.behind) }
    ensures memory { OnErr result (NotMemory result → ⊥) }
    ensures means { Goes S.accesses (meaning S.accesses) result stack.new.act stack.new.entries.items run.new
        (then_all S.accesses (meaning S.accesses) (stop refusal) stack.old.act
        (stack.old.entries.items ++ entry.Item item ∷ [])) run.old }
{
    let ListItem { list, behind } = item;
    run.world.pass_over(list.scope().path, refusal)?;
    stack.act = list;
    stack.act.over_term(behind.levels);
    Ok(Control::Items(behind))
}

/// An item is done that might have been passed over: its list goes on, or ends.
#[cold]
#[tactic(auto, using(crate::proofs::Machine::taking))]
pub(crate) fn meet_item<S: Space>(
    run: &Running<S>,
    stack: &mut Stack,
    item: Boxed<ListItem>,
    flow: Flow,
) -> Result<Control>
    ensures falls { IfOk result (λ c. stack_weight stack.new.entries.items + control_weight c <
        stack_weight stack.old.entries.items + 6) }
    ensures given { IsOk result }
    ensures means { Goes S.accesses (meaning S.accesses) result stack.new.act stack.new.entries.items run.now
        (machine S.accesses (meaning S.accesses) (control.Flow flow) stack.old.act
        (stack.old.entries.items ++ entry.Item item ∷ [])) run.now }
{
    next_item(run, stack, item.get().behind, flow)
}
