//! What holds of every namespace: each law is the contract of a function that does nothing.
ghost use Rattle.std.specs.Prelude.{◌≡◌, List, Some, option_map};
ghost use Rattle.aml_objects.specs.declared.entry.Entry.{Entry};
ghost use Rattle.aml_namespace.specs.Numbering.{Numbered};
ghost use Rattle.std.specs.FinMap.{get};
ghost use Rattle.aml_path.specs.declared.segment.Seg.{Seg};
ghost use Rattle.aml_path.specs.Segments.{seg_cmp};
ghost use Rattle.aml_path.specs.Paths.{path_cmp};
ghost use Rattle.aml_namespace.specs.Namespace.{Map, Namespace, entry_released, mutexes_released, numbered};
ghost use Rattle.aml_namespace.specs.Walks.{children, walked, Ascending};

/// The segments of the names one level below a path ascend, so none stands twice.
#[tactic(auto, using(crate::proofs::Ascent::children_ascend))]
pub fn children_ascend()
    ensures { (path : List Seg) (names : Map) → Ascending seg_cmp (children path names) }
{}

/// The paths of all names are in path order, so none stands twice.
#[tactic(auto, using(crate::proofs::Ascent::walk_ascends))]
pub fn names_are_walked_in_path_order()
    ensures { (names : Map) → Ascending path_cmp (walked names) }
{}

/// After the mutexes are released, a path has what it had, under the same number: a mutex released, anything else as
/// it was.
#[tactic(auto, using(crate::proofs::Changes::released_at))]
pub fn releasing_changes_mutexes_alone()
    ensures { (names : Namespace) (path : List Seg) → get (mutexes_released names).map path ≡
        option_map entry_released (get names.map path) }
{}

/// What stands at a path stands under its number, so the node that is found at a path has the entry at it, and its
/// path.
#[tactic(auto, using(crate::proofs::Finding::numbered_found))]
pub fn what_is_found_stands_under_its_number()
    ensures { (names : Namespace) (path : List Seg) (entry : Entry) → Numbered names →
        get names.map path ≡ Some entry → numbered entry.number names.map ≡ Some (path, entry) }
{}
