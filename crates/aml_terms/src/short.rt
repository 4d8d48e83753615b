//! Terms whose first byte alone says how long they are.
ghost use Rattle.std.specs.Prelude.{◌≡◌};
ghost use Rattle.aml_terms.specs.ShortTerms.{short_length};

/// By the first byte of a term, how many bytes it takes: a Local, an Arg, a number and the like. 0 stands for all
/// other terms.
static LENGTHS: [u8; 256] = [
    // written by tools/opcodes.py from tables/opcodes.txt: lengths: begin
    1, 1, 0, 0, 0, 0, 0, 0, 0, 0, 2, 3, 5, 0, 9, 0, 0, 0, 0, 0, 0, 0, 0, 0, 0, 0, 0, 0, 0, 0, 0, 0,
    0, 0, 0, 0, 0, 0, 0, 0, 0, 0, 0, 0, 0, 0, 0, 0, 0, 0, 0, 0, 0, 0, 0, 0, 0, 0, 0, 0, 0, 0, 0, 0,
    0, 0, 0, 0, 0, 0, 0, 0, 0, 0, 0, 0, 0, 0, 0, 0, 0, 0, 0, 0, 0, 0, 0, 0, 0, 0, 0, 0, 0, 0, 0, 0,
    1, 1, 1, 1, 1, 1, 1, 1, 1, 1, 1, 1, 1, 1, 1, 0, 0, 0, 0, 0, 0, 0, 0, 0, 0, 0, 0, 0, 0, 0, 0, 0,
    0, 0, 0, 0, 0, 0, 0, 0, 0, 0, 0, 0, 0, 0, 0, 0, 0, 0, 0, 0, 0, 0, 0, 0, 0, 0, 0, 0, 0, 0, 0, 1,
    0, 0, 0, 1, 0, 1, 0, 0, 0, 0, 0, 0, 0, 0, 0, 0, 0, 0, 0, 0, 0, 0, 0, 0, 0, 0, 0, 0, 0, 0, 0, 0,
    0, 0, 0, 0, 0, 0, 0, 0, 0, 0, 0, 0, 1, 0, 0, 0, 0, 0, 0, 0, 0, 0, 0, 0, 0, 0, 0, 0, 0, 0, 0, 0,
    0, 0, 0, 0, 0, 0, 0, 0, 0, 0, 0, 0, 0, 0, 0, 0, 0, 0, 0, 0, 0, 0, 0, 0, 0, 0, 0, 0, 0, 0, 0, 1,
    // written by tools/opcodes.py from tables/opcodes.txt: lengths: end
];

/// How many bytes a term takes that begins with this byte, where no other byte has to be read to say so; 0 for all
/// other bytes.
#[inline(always)]
pub(crate) fn short_length(first: u8) -> u8
    ensures { result ≡ short_length first }
{
    LENGTHS[usize::from(first)]
}
