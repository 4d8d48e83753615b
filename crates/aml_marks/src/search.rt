//! The marks of a list, searched by offset.
ghost use Rattle.std.specs.Prelude.{◌≡◌};
ghost use Rattle.aml_marks.specs.Marked.{Ascending, count_at};

use aml_grammar::Mark;

/// How many arguments follow a name that begins at an offset: none where no mark stands.
pub fn marked_count(marks: &[Mark], offset: usize) -> u8
    requires ascending { Ascending marks.now }
    ensures { result ≡ count_at marks.now offset }
{
    match marks.binary_search_by(|mark| mark.offset.cmp(&offset)) {
        Ok(i) => marks[i].count,
        Err(_) => 0,
    }
}
