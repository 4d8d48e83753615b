//! What stands before the end tag (ACPI 6.5, 6.4.2.9).
ghost use Rattle.std.specs.Prelude.{◌≡◌, ◌+◌, ◌≤◌, length, IfSome};
ghost use Rattle.acpi_resources.specs.Items.{items_of};
ghost use Rattle.acpi_resources.specs.EndTags.{length_before_end};

use crate::descriptor::END_TAG;
use crate::item::split_item;

/// How many bytes the items before the end tag take, or `None` where no whole end tag stands among the items that the
/// bytes begin with.
pub fn length_before_end_tag(bytes: &[u8]) -> Option<usize>
    ensures value { result ≡ length_before_end (items_of bytes.now) }
    ensures within { IfSome result (λ n. n + 2 ≤ length bytes.now) }
{
    let mut rest = bytes;
    'items: loop {
        let (item, behind) = split_item(rest)?;
        if item.tag == END_TAG {
            return Some(bytes.len() - rest.len());
        }
        rest = behind;
    }
}
