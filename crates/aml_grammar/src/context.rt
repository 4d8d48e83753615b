//! What holds where a term is read.

use aml_path::Path;

/// Where a term may stand.
#[derive(Clone, Copy, Debug, PartialEq, Eq)]
pub enum Position {
    /// An item of a list.
    ListItem,
    /// An operand that gives a value.
    TermArg,
    /// An operand that is data.
    DataObject,
    /// An element of a package.
    PackageElement,
    /// An operand that is a place.
    SuperName,
}

/// What holds around a term.
#[derive(Clone, Copy, Debug)]
pub struct Context {
    /// The list is the body of a control method.
    pub body: bool,
    /// The term is inside a While.
    pub in_loop: bool,
    /// Where the item of the handed-in list begins that holds the term; none for that item itself.
    pub item: Option<usize>,
}

/// What the operands of a term leave for later ones.
#[derive(Drop)]
pub struct Earlier {
    /// The path under which a list of the term stands.
    pub path: Option<Path>,
    /// The number of arguments of an Alias' source, or the object type of an External.
    pub count: u8,
}
