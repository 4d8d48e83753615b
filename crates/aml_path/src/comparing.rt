//! The order of segments: one comparison of the numbers that their bytes make.
ghost use Rattle.std.specs.Prelude.{◌≡◌, ◌==◌};
ghost use Rattle.std.proofs.Common.{rules};
ghost use Rattle.std.specs.Cmp.{partial_order_from_own_ties};
ghost use Rattle.std.specs.Cmp.Rules.{comparing};
ghost use Rattle.std.specs.Cmp.Lexicographic.{pointwise};
ghost use Rattle.std.specs.Int.{from_be_bytes, w32};
ghost use Rattle.std.specs.Ordering.{as_partial_cmp, nat_cmp, on};
ghost use Rattle.std.specs.Prelude.{nat_eq};
ghost use Rattle.aml_path.specs.Segments.{seg_cmp};

use crate::segment::Seg;
use std::cmp::Ordering;

/// The number that the bytes of a segment make, the first byte highest. Numbers are ordered as the bytes are.
fn number(segment: &Seg) -> u32
    ensures { result ≡ from_be_bytes w32 segment.now.bytes }
{
    u32::from_be_bytes(segment.bytes())
}

impl Ord for Seg {
    ghost cmp = { seg_cmp };

    ghost total = { Prim.search (comparing, rules) depth 9 };

    ghost matches_partial_cmp = { Prim.search (comparing, rules) depth 9 };

    ghost matches_eq = { Prim.search (comparing, rules) depth 9 };

    fn cmp(&self, other: &Seg) -> Ordering {
        let own = number(self);
        let others = number(other);
        own.cmp(&others)
    }
}

impl PartialOrd for Seg {
    ghost partial_cmp = { as_partial_cmp seg_cmp };

    ghost laws = { partial_order_from_own_ties (Prim.search (comparing, rules) depth 9) (Prim.search (comparing, rules) depth 9) };

    fn partial_cmp(&self, other: &Seg) -> Option<Ordering> {
        Some(self.cmp(other))
    }
}

impl PartialEq for Seg {
    ghost eq = { on (λ s. s.bytes) (pointwise nat_eq) };

    ghost laws = { Prim.search (comparing, rules) depth 9 };

    fn eq(&self, other: &Seg) -> bool {
        let own = number(self);
        let others = number(other);
        own == others
    }
}

impl Eq for Seg {
    ghost laws = { Prim.search (comparing, rules) depth 9 };
}
