//! What values hold.
ghost use Rattle.std.specs.Prelude.{◌≡◌, ℕ, List, slice_get, Some};
ghost use Rattle.aml_objects.specs.Contents as content;
ghost use Rattle.aml_objects.specs.Contents.{content_in};
ghost use Rattle.aml_objects.specs.declared.object.Object.{Object};
ghost use Rattle.aml_objects.specs.declared.object.Object.TheVariants as object;
ghost use Rattle.aml_objects.specs.declared.value.Value.{Value};
ghost use Rattle.aml_objects.specs.declared.value.Value.TheVariants as value;
ghost use Rattle.aml_laws.specs.StoredParts.{IsNoData};

/// What a value holds, as conversions and operators see it (ACPI 6.5, 19.3.5): an integer its number, a string and a
/// buffer all bytes of the object that they are, and no more; what is neither, as a package and a reference, holds no
/// data. Bytes behind a buffer, and a string without its last byte, are refused by this.
pub fn a_value_holds_the_bytes_of_its_object()
    ensures integer { (objects : List Object) (n : ℕ) →
        content_in objects (value.Integer n) ≡ content.Integer n }
    ensures string { (objects : List Object) (o : ℕ) (bytes : List ℕ) →
        slice_get objects o ≡ Some (object.String bytes) →
        content_in objects (value.String o) ≡ content.String bytes }
    ensures buffer { (objects : List Object) (o : ℕ) (bytes : List ℕ) →
        slice_get objects o ≡ Some (object.Buffer bytes) →
        content_in objects (value.Buffer o) ≡ content.Buffer bytes }
    ensures no_data { (objects : List Object) (v : Value) → IsNoData v → content_in objects v ≡ content.Other }
{}
