//! What waits for targets, and what is done with the bits of fields.
ghost use Rattle.std.specs.Prelude.{◌≡◌};
ghost use Rattle.aml_frames.specs.Uses.{super, optional};

use aml_objects::{Field, Octets, Value};
use aml_world::{Conversion, Count, EventChange, OneOperand, RegionField, Test, TwoOperands};
use ar_space::Width;

/// An operator with one operand.
#[derive(Clone, Copy, Debug)]
pub enum Monadic {
    /// Store: the operand is stored to what a SuperName names.
    Store,
    /// CopyObject: the operand is stored to what a SimpleName names, without a conversion.
    CopyObject,
    /// An operand and a target.
    One(OneOperand),
    /// An operand and a target, which takes what is formed.
    Convert(Conversion),
    LNot,
    DerefOf,
}

/// An operator with two operands.
#[derive(Clone, Copy, Debug)]
pub enum Dyadic {
    /// Two operands and a target.
    Two(TwoOperands),
    /// Divide: two targets, that of the remainder first.
    Divide,
    /// Two operands, and no target.
    Test(Test),
    /// ToString: two operands and a target, which takes what is formed.
    ToString,
    /// Mid: a third operand, and a target.
    Mid,
}

/// An operator whose first operand has a value: the second one is evaluated.
#[derive(Clone, Copy, Debug)]
pub struct SecondOperand {
    pub kind: Dyadic,
    /// How many levels of terms are read below the operator.
    pub levels: u8,
    /// The value of the first operand.
    pub first: Value,
}

/// What is asked of what an operand refers to.
#[derive(Clone, Copy, Debug)]
pub enum Inquiry {
    SizeOf,
    ObjectType,
}

/// How an operand names a target (ACPI 6.5, 20.2.2).
#[derive(Clone, Copy, Debug)]
pub enum TargetForm {
    /// SuperName: a name, a local, an argument, Debug, or a term that refers.
    SuperName,
    /// Target: the same, or none.
    Target,
}

/// A target that stands next, with so many levels.
#[derive(Clone, Copy, Debug)]
pub struct Target {
    pub form: TargetForm,
    pub levels: u8,
}

impl Target {
    /// A SuperName that stands next.
    pub fn super_name(levels: u8) -> Target
        ensures { result ≡ super levels }
    {
        Target {
            form: TargetForm::SuperName,
            levels,
        }
    }

    /// A Target that stands next.
    pub fn optional(levels: u8) -> Target
        ensures { result ≡ optional levels }
    {
        Target {
            form: TargetForm::Target,
            levels,
        }
    }
}

/// What is done with a target.
#[derive(Clone, Copy, Debug)]
pub enum TargetUse {
    /// A value is stored to it, and is the value of the term.
    Store(Value),
    /// A value is stored to it without a conversion, and is the value of the term.
    CopyObject(Value),
    /// What a conversion formed is stored to it, and is the value of the term.
    Form(Value),
    /// Increment and Decrement.
    Count(Count),
    /// SizeOf and ObjectType.
    Inquire(Inquiry),
    Acquire,
    Release,
    RefOf,
    /// CondRefOf, whose own target stands next, with so many levels.
    CondRefOf(u8),
    /// Notify, whose value stands next, with so many levels.
    Notify(u8),
    /// Signal and Reset.
    Event(EventChange),
    /// Wait, whose timeout stands next, with so many levels.
    Wait(u8),
}

/// What the bits of a field are read as.
#[derive(Clone, Copy, Debug)]
pub enum Reading {
    /// The value of the field.
    Value,
    /// An integer that is counted.
    Integer,
    /// An integer that is a part of an address.
    Part,
    /// The unit of an access of this width.
    Unit(Width),
    /// What SizeOf and ObjectType tell of the field's value.
    Inquire(Inquiry),
}

/// What is accessed.
#[derive(Clone, Copy, Debug)]
pub enum Accessed {
    Field(Field),
    /// A field of a region, behind which another field lies.
    Unit(RegionField),
}

/// What an access does.
#[derive(Drop)]
pub enum Doing {
    /// The bits are read.
    Read(Reading),
    /// Bits are written.
    Write(Octets),
}

/// An access of a field, for whose address so many calls may be made one inside another.
#[derive(Drop)]
pub struct Access {
    pub calls: usize,
    pub object: Accessed,
    pub doing: Doing,
}
