//! The stack of the machine: what waits on it, and what the machine does next.
ghost use Rattle.std.specs.Prelude.{◌≡◌, [], Ok};
ghost use Rattle.aml_frames.specs.declared.frames.Control.TheVariants as control;
ghost use Rattle.aml_frames.specs.declared.frames.Entry.TheVariants as entry;
ghost use Rattle.aml_frames.specs.declared.frames.Frame.TheVariants as frames;
ghost use Rattle.aml_frames.specs.declared.uses.TargetUse.TheVariants as uses;
ghost use Rattle.aml_meaning.specs.declared.flow.Flow.TheVariants as flows;
ghost use Rattle.aml_objects.specs.declared.value.Value.TheVariants as values;
ghost use Rattle.aml_frames.specs.Follow.{turn_items};
ghost use Rattle.aml_frames.specs.Uses.{optional};
ghost use Rattle.aml_frames.specs.Stack.{Waits};

use aml_frames::{
    Access, Activation, Boxed, Control, Entry, Frame, Items, Loop, MethodPath, Package, Target,
    TargetUse,
};
use aml_meaning::Flow;
use aml_objects::{NodeId, Reference, Value};
use ar_space::Result;
use std::alloc::Global;

/// The machine's state: the activation that is evaluated, and the entries that wait for it.
#[derive(Drop)]
pub(crate) struct Stack {
    pub(crate) act: Activation,
    pub(crate) entries: Vec<Entry>,
}

impl Stack {
    /// A stack on which nothing waits.
    pub(crate) fn new(alloc: Global, act: Activation) -> Stack
        ensures act { result.act ≡ act }
        ensures empty { result.entries.items ≡ [] }
    {
        Stack {
            act,
            entries: Vec::new(alloc),
        }
    }

    /// The term that stands next, and the frame that waits for it.
    #[inline(always)]
    pub(crate) fn wait_for_term(&mut self, levels: u8, frame: Frame) -> Result<Control>
        ensures { Waits result self.new.act self.new.entries.items (entry.Frame frame) (control.Term levels)
            self.old.act self.old.entries.items }
    {
        self.entries.push(Entry::Frame(frame))?;
        Ok(Control::Term(levels))
    }

    /// The list of a While, and what is left of the While.
    #[inline(always)]
    pub(crate) fn wait_for_turn(&mut self, turn: Loop) -> Result<Control>
        ensures { Waits result self.new.act self.new.entries.items (entry.Frame (frames.Turn turn))
            (control.Items (turn_items turn self.old.act)) self.old.act self.old.entries.items }
    {
        let items = self.act.items(turn.levels, turn.outer);
        self.entries.push(Entry::Frame(Frame::Turn(turn)))?;
        Ok(Control::Items(items))
    }

    /// The list of a scope, and the scope around it.
    pub(crate) fn wait_for_scope(
        &mut self,
        items: Items,
        path: MethodPath,
        node: NodeId,
    ) -> Result<Control>
        ensures { Waits result self.new.act self.new.entries.items (entry.Frame (frames.Scope path node))
            (control.Items items) self.old.act self.old.entries.items }
    {
        self.entries.push(Entry::Frame(Frame::Scope(path, node)))?;
        Ok(Control::Items(items))
    }

    /// The remainder of a Divide is stored, and its quotient waits.
    pub(crate) fn wait_for_remainder(
        &mut self,
        levels: u8,
        remainder: Value,
        quotient: Value,
    ) -> Result<Control>
        ensures { Waits result self.new.act self.new.entries.items (entry.Frame (frames.Quotient levels quotient))
            (control.Target (optional levels) (uses.Store remainder)) self.old.act self.old.entries.items }
    {
        self.entries
            .push(Entry::Frame(Frame::Quotient(levels, quotient)))?;
        Ok(Control::Target(Target::optional(levels), TargetUse::Store(remainder)))
    }

    /// The reference of a CondRefOf is stored.
    pub(crate) fn wait_for_reference(&mut self, levels: u8, reference: Reference) -> Result<Control>
        ensures { Waits result self.new.act self.new.entries.items (entry.Frame frames.Found) (control.Target
            (optional levels) (uses.Store (values.Reference reference))) self.old.act self.old.entries.items }
    {
        self.entries.push(Entry::Frame(Frame::Found))?;
        Ok(Control::Target(
            Target::optional(levels),
            TargetUse::Store(Value::Reference(reference)),
        ))
    }

    /// An access of a field, and the frame that waits for it.
    #[inline(always)]
    pub(crate) fn wait_for_access(&mut self, access: Boxed<Access>, frame: Frame) -> Result<Control>
        ensures { Waits result self.new.act self.new.entries.items (entry.Frame frame) (control.Access access)
            self.old.act self.old.entries.items }
    {
        self.entries.push(Entry::Frame(frame))?;
        Ok(Control::Access(access))
    }

    /// An integer, and the frame that it is handed to.
    pub(crate) fn wait_for_integer(&mut self, number: u64, frame: Frame) -> Result<Control>
        ensures { Waits result self.new.act self.new.entries.items (entry.Frame frame)
            (control.Flow (flows.Value (values.Integer number))) self.old.act self.old.entries.items }
    {
        self.entries.push(Entry::Frame(frame))?;
        Ok(Control::Flow(Flow::Value(Value::Integer(number))))
    }
}

/// A flow is handed to what waits.
#[inline(always)]
pub(crate) fn go_to_flow(flow: Flow) -> Result<Control>
    ensures { result ≡ Ok (control.Flow flow) }
{
    Ok(Control::Flow(flow))
}

/// A list begins next.
#[inline(always)]
pub(crate) fn go_to_items(items: Items) -> Result<Control>
    ensures { result ≡ Ok (control.Items items) }
{
    Ok(Control::Items(items))
}

/// The next element of a package begins next.
#[inline(always)]
pub(crate) fn go_to_package(filling: Boxed<Package>) -> Result<Control>
    ensures { result ≡ Ok (control.Package filling) }
{
    Ok(Control::Package(filling))
}

/// A target is found next.
#[inline(always)]
pub(crate) fn go_to_target(target: Target, target_use: TargetUse) -> Result<Control>
    ensures { result ≡ Ok (control.Target target target_use) }
{
    Ok(Control::Target(target, target_use))
}
