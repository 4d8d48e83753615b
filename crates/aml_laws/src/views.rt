//! Data of callers, as laws and contracts see them.
ghost use Rattle.std.specs.Prelude.{◌≡◌, ℕ, List, Vec, map};
ghost use Rattle.std.specs.declared.alloc.Global.{Global};
ghost use Rattle.aml_path.specs.declared.segment.Seg.{Seg};
ghost use Rattle.aml_world.specs.declared.state.datum.Datum as datum;
ghost use Rattle.aml_world.specs.state.Given.{Givens, Nothing, Integer, Text, Bytes, Package, Named, Reference};
ghost use Rattle.aml_world.specs.state.Given.{given_of};
ghost use Rattle.aml_laws.specs.DataSeen.{in_order};

/// What callers hand in and are given is what laws and contracts speak of: no value, an integer with its number, a text
/// and a list of bytes with their bytes, a package with its elements in their order, a name with its path, and a
/// reference. A text that is seen as bytes, and a package whose last element is seen first, are refused by this.
pub fn data_are_seen_as_they_are()
    ensures nothing { given_of datum.Nothing ≡ Nothing }
    ensures integer { (n : ℕ) → given_of (datum.Integer n) ≡ Integer n }
    ensures text { (bytes : List ℕ) → given_of (datum.Text bytes) ≡ Text bytes }
    ensures bytes { (bytes : List ℕ) → given_of (datum.Bytes bytes) ≡ Bytes bytes }
    ensures package { (list : Vec datum.Datum Global) → (gs : Givens) × ((given_of (datum.Package list) ≡ Package gs) ×
        (in_order gs ≡ map given_of list.items)) }
    ensures named { (path : List Seg) → given_of (datum.Named path) ≡ Named path }
    ensures reference { given_of datum.Reference ≡ Reference }
{}
