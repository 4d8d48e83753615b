//! What a step of evaluation leaves to do, and what waits for it in memory.
ghost use Rattle.std.specs.Prelude.{◌≡◌, Ok};
ghost use Rattle.aml_frames.specs.declared.frames.Next.TheVariants as nexts;

use crate::activation::Activation;
use crate::addresses::PciAccess;
use crate::banked::{BankWrites, BanksLeft};
use crate::boxed::Boxed;
use crate::indexed::{UnitWrites, UnitsLeft};
use crate::position::{MethodPath, Position};
use crate::uses::{Access, Dyadic, Inquiry, Monadic, SecondOperand, Target, TargetUse};
use aml_fields::Unit;
use aml_meaning::Flow;
use aml_objects::{Body, Elements, Field, NodeId, Reference, Value};
use aml_path::Path;
use aml_world::{BufferFieldSize, Count, Searching, StoreTarget};
use ar_space::Result;

/// The items of a list that are left.
#[derive(Clone, Copy, Debug)]
pub struct Items {
    /// At most so many items are left: at first as many as the list has bytes. Definitions count it down; the bytes end
    /// no later.
    pub left: usize,
    /// How many levels of terms are read.
    pub levels: u8,
    /// Where evaluation goes on behind the list.
    pub outer: Position,
}

/// A While: where its predicate stands, and where evaluation goes on behind it. It is the same at each turn. Parameters
/// of this type are named `turn`.
#[derive(Clone, Copy, Debug)]
pub struct Loop {
    /// How many levels of terms are read below it.
    pub levels: u8,
    /// Where its predicate stands, with its list behind it.
    pub predicate: Position,
    /// Where evaluation goes on behind it.
    pub outer: Position,
}

/// What is called.
#[derive(Drop)]
pub enum Callee {
    /// The control method at this path, with a share of its body.
    Method(Path, Body),
    /// The predefined control method `\_OSI`, which has no body.
    Osi,
}

/// A call, while its arguments are evaluated from left to right.
#[derive(Drop)]
pub struct Call {
    /// What is called.
    pub callee: Callee,
    /// How many arguments are left.
    pub left: u8,
    /// How many levels of terms are read below the call.
    pub levels: u8,
    /// The node of what is called, where it is known: the scope of the body is looked for there first.
    pub node: Option<NodeId>,
    /// The arguments that are evaluated.
    pub done: Vec<Value>,
}

/// A package, while its elements are evaluated one after another.
#[derive(Drop)]
pub struct Package {
    /// How many elements it has.
    pub count: usize,
    /// How many of them are left.
    pub left: usize,
    /// At most so many elements stand next: at first as many as the package has bytes.
    pub turns: usize,
    /// How many levels of terms are read below it.
    pub levels: u8,
    /// Where evaluation goes on behind it.
    pub outer: Position,
    /// The elements that are evaluated.
    pub done: Elements,
}

/// An operand of a declaration of a region, of a buffer field or of fields of a bank, while it is evaluated, with
/// what was read and evaluated before it.
#[derive(Clone, Copy, Debug)]
pub enum DeclarationPart {
    /// The offset of an operation region with so many levels below it: its address space, and where its name stands.
    RegionOffset(u8, Position, u8),
    /// The length of an operation region: its address space, where its name stands, and its offset.
    RegionLength(u8, Position, Value),
    /// The buffer of a field whose term says how many bits it has, with so many levels below it.
    SizedSource(BufferFieldSize, u8),
    /// The index of such a field: its buffer.
    SizedIndex(BufferFieldSize, Value),
    /// The buffer of a field of any size, with so many levels below it.
    BitsSource(u8),
    /// The index of the first bit of such a field, with so many levels below it: its buffer.
    BitsIndex(u8, Value),
    /// How many bits such a field has: its buffer, and the index of its first bit.
    BitsCount(Value, Value),
    /// The value that selects the bank of a BankField with so many levels below it: where evaluation goes on behind
    /// its package, and the numbers of the declarations of its region and of its bank field.
    BankValue(u8, Position, u64, u64),
}

/// An operand of a Match, while it is evaluated, with what was read and evaluated before it. The bytes of operators
/// stand behind the operands before them.
#[derive(Clone, Copy, Debug)]
pub enum MatchPart {
    /// The package.
    Package,
    /// The first object: the package, and the byte of the first operator.
    First(Value, u8),
    /// The second object: the package, the first operator with its object, and the byte of the second operator.
    Second(Value, (u8, Value), u8),
    /// The start: the package, and both operators with their objects.
    Start(Value, (u8, Value), (u8, Value)),
}

/// A term that is half done, which waits for what a part of it leaves.
#[derive(Drop)]
pub enum Frame {
    /// A list, while one of its items is evaluated.
    Items(Items),
    /// An If, while its predicate is evaluated: the levels below it, and where evaluation goes on behind its package.
    If(u8, Position),
    /// A While, while its predicate is evaluated.
    Predicate(Loop),
    /// A While, while its list is evaluated.
    Turn(Loop),
    /// A Return, while its argument is evaluated.
    Return,
    /// A Stall or a Sleep, while its time is evaluated, and a Notify, while its value is.
    Pause,
    /// A Fatal, while its argument is evaluated.
    Fatal,
    /// A call, while an argument is evaluated; those behind it are left.
    Argument(Boxed<Call>),
    /// A Buffer, while its size is evaluated: where evaluation goes on behind it.
    Buffer(Position),
    /// A VarPackage with so many levels below it, while the number of its elements is evaluated: where evaluation
    /// goes on behind it.
    VarPackage(u8, Position),
    /// A package, while one of its elements is evaluated; those behind it are left.
    Element(Boxed<Package>),
    /// An operator with so many levels below it, while its only operand is evaluated.
    Operand(Monadic, u8),
    /// An operator with so many levels below it, while the first of its operands is evaluated.
    First(Dyadic, u8),
    /// The same, while the second one is.
    Second(SecondOperand),
    /// A Mid with so many levels below it, while the third of its operands is evaluated: the first two.
    Third(u8, Value, Value),
    /// A term whose value this is, while a field is written with it.
    Give(Value),
    /// A Divide with so many levels below it, while its remainder is stored: its quotient.
    Quotient(u8, Value),
    /// A CondRefOf that found something, while the reference is stored.
    Found,
    /// A target that is an Index, while its value is evaluated.
    IndexTarget(TargetUse),
    /// A target that is a DerefOf, while its operand is evaluated.
    DerefTarget(TargetUse),
    /// SizeOf or ObjectType of a term that refers, while its value is evaluated.
    Referent(Inquiry),
    /// Increment or Decrement of a field that the target leads to, while it is read.
    Counted(Count, Boxed<(StoreTarget, Field)>),
    /// An access of a field of PCI_Config, while a part of its address is asked for.
    Address(Boxed<PciAccess>),
    /// An access of a field behind an index field, while the offset of this unit is written to the index field: the
    /// data field is read then.
    UnitChosen(Boxed<UnitsLeft>, Unit),
    /// The same, while the data field is read.
    UnitRead(Boxed<UnitsLeft>, Unit),
    /// A write of a field behind an index field, while the offset of a unit is written to the index field: the data
    /// field is written with this number then.
    UnitMerged(Boxed<UnitWrites>, u64),
    /// The same, while the data field is written.
    UnitWritten(Boxed<UnitWrites>),
    /// An access of a field of a bank, while the bank is selected: this unit is read then.
    BankRead(Boxed<BanksLeft>, Unit),
    /// A write of a field of a bank, while the bank is selected: the unit with this offset is written with this
    /// number then.
    BankWrite(Boxed<BankWrites>, u64, u64),
    /// A Name, while its datum is evaluated: where its name stands.
    Named(Position),
    /// A Scope, a Device, a Processor, a PowerResource or a ThermalZone, while its list is evaluated: the scope
    /// around it, and its node.
    Scope(MethodPath, NodeId),
    /// A declaration of an operation region, of a buffer field or of fields of a bank, while one of its operands is
    /// evaluated.
    Declaration(DeclarationPart),
    /// A Match with so many levels below it, while one of its operands is evaluated.
    Match(u8, Boxed<MatchPart>),
    /// A Match, while the field is read that its next element is the name of.
    Matched(Boxed<Searching>),
    /// A Wait, while its timeout is evaluated: the number of the declaration that its operand names, if it names one.
    Wait(Option<u64>),
}

/// What a step leaves to do: nothing where it has finished its term, else a part of the term that is evaluated next.
#[derive(Drop)]
pub enum Next {
    /// Nothing: this is what the term leaves.
    Flow(Flow),
    /// The term that stands next, with so many levels, and then a frame.
    Term(u8, Frame),
    /// A list.
    Items(Items),
    /// The list of a While, and then what is left of the While.
    Turn(Loop),
    /// The list of a scope, and then the scope around it.
    Scope(Items, MethodPath, NodeId),
    /// The elements of a package that are left, and then the package.
    Package(Boxed<Package>),
    /// The body of a control method.
    Body(Boxed<Activation>),
    /// The body of a control method, which gives a part of an address, and then what is left of the access.
    BodyThen(Boxed<Activation>, Boxed<PciAccess>),
    /// The target that stands next, and what is done with it.
    Target(Target, TargetUse),
    /// The targets of a Divide with so many levels below it: its remainder and its quotient are stored.
    Division(u8, Value, Value),
    /// The target of a CondRefOf with so many levels below it, to which a reference is stored.
    Found(u8, Reference),
    /// An access of a field, and then a frame.
    AccessThen(Boxed<Access>, Frame),
    /// Nothing but a frame, which this integer is handed to.
    IntegerThen(u64, Frame),
}

/// An item of a list that may be passed over, while it is evaluated.
#[derive(Drop)]
pub struct ListItem {
    /// The list, which stands at the item.
    pub list: Activation,
    /// The items behind it.
    pub behind: Items,
}

// Each turn of the machine's loop moves a frame, what a step leaves to do, and what is done next.
const _: () = prove!(size_of::<Frame>() == 64);

const _: () = prove!(size_of::<Next>() == 80);

/// What stands on the stack.
#[derive(Drop)]
pub enum Entry {
    /// A term that is half done.
    Frame(Frame),
    /// An item of a list at module level, which the wide profile passes over where it is refused.
    Item(Boxed<ListItem>),
    /// A call of a control method: what goes on behind it, and the path of the control method.
    Leave(Boxed<Activation>, MethodPath),
}

/// What the machine does at its next step.
#[derive(Drop)]
pub enum Control {
    /// It begins the term that stands next, with so many levels.
    Term(u8),
    /// It begins a list.
    Items(Items),
    /// It begins the next element of a package.
    Package(Boxed<Package>),
    /// It finds the target that stands next.
    Target(Target, TargetUse),
    /// It accesses a field.
    Access(Boxed<Access>),
    /// It hands a flow to what waits for it.
    Flow(Flow),
}

const _: () = prove!(size_of::<Entry>() == 72);

const _: () = prove!(size_of::<Control>() == 40);

/// Nothing is left to do: this is what the term leaves.
#[inline(always)]
pub fn leave(flow: Flow) -> Result<Next>
    ensures { result ≡ Ok (nexts.Flow flow) }
{
    Ok(Next::Flow(flow))
}
