//! What a question writes as the operands of a call.

use aml_objects::Content;
use ar_space::IntegerWidth;
use test_rows::Exchange;

/// A value that a question writes.
#[derive(Drop)]
pub struct Operand {
    kind: Kind,
    integer: u64,
    bytes: Vec<u8>,
}

/// The type of a value.
#[derive(Clone, Copy)]
enum Kind {
    Integer,
    String,
    Buffer,
    Other,
}

/// The words for types.
const KINDS: [(&str, Kind); 4] = [
    ("integer", Kind::Integer),
    ("string", Kind::String),
    ("buffer", Kind::Buffer),
    ("other", Kind::Other),
];

/// How wide integers are, by their bits.
const WIDTHS: [(&str, IntegerWidth); 2] = [
    ("32", IntegerWidth::Bits32),
    ("64", IntegerWidth::Bits64),
];

impl Operand {
    /// The value `integer NUMBER`, `string BYTES`, `buffer BYTES` or `other`.
    fn new(asked: &mut Exchange, text: &str) -> Operand {
        let (kind, written) = text.split_once(' ').unwrap_or((text, ""));
        let kind = asked.one_of(&KINDS, kind, Kind::Other);
        let integer = match kind {
            Kind::Integer => asked.digits(written, 16, u64::MAX),
            _ => 0,
        };
        Operand {
            kind,
            integer,
            bytes: asked.bytes_of(written),
        }
    }

    /// The value as conversions and operators see it.
    pub fn content(&self) -> Content<'_> {
        match self.kind {
            Kind::Integer => Content::Integer(self.integer),
            Kind::String => Content::String(self.bytes.as_slice()),
            Kind::Buffer => Content::Buffer(self.bytes.as_slice()),
            Kind::Other => Content::Other,
        }
    }
}

/// How wide integers are.
pub fn integer_width(asked: &mut Exchange) -> IntegerWidth {
    let bits = asked.word();
    asked.one_of(&WIDTHS, bits, IntegerWidth::Bits64)
}

/// The value that stands before ` and `, or that all that is left is.
pub fn value_of(asked: &mut Exchange) -> Operand {
    let text = asked.until(" and ");
    Operand::new(asked, text)
}
