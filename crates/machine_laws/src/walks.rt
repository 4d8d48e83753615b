//! Which names are gone over when all names of a namespace, or those below a path, are (ACPI 6.5, 5.3).
ghost use Rattle.std.specs.FinMap.{get};
ghost use Rattle.std.specs.Prelude.{◌≡◌, ◌≢◌, ◌↔◌, ◌++◌, ◌∷◌, [], List, Contains, true, is_some};
ghost use Rattle.aml_namespace.specs.Namespace.{Map};
ghost use Rattle.aml_namespace.specs.Walks.{children, walked};
ghost use Rattle.aml_path.specs.declared.segment.Seg.{Seg};

/// All names of a namespace are the paths at which something stands, but for the root, and no other paths; the names
/// one level below a path are the segments that stand below it, and no others. `names_are_walked_in_path_order` and
/// `children_ascend` say in which order, and that none is there twice. A namespace whose names are passed over is
/// refused by this.
pub fn each_name_that_stands_is_walked()
    ensures all { (names : Map) (path : List Seg) →
        Contains (walked names) path ↔ ((path ≢ []) × (is_some (get names path) ≡ true)) }
    ensures below { (names : Map) (path : List Seg) (s : Seg) →
        Contains (children path names) s ↔ (is_some (get names (path ++ s ∷ [])) ≡ true) }
{}
