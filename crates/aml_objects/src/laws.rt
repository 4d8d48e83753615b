//! What holds of all copies: each law is the contract of a function that does nothing.
ghost use Rattle.std.specs.Prelude.{◌≡◌, ◌++◌, List};
ghost use Rattle.aml_objects.specs.declared.value.Value.{Value};
ghost use Rattle.aml_objects.specs.declared.object.Object.{Object};
ghost use Rattle.aml_objects.specs.Copies.{copied};

/// A copy, refused or not, leaves the objects that were there as they were, each under its number, and any new one
/// stands behind them.
#[tactic(auto, using(crate::proofs::Copying::copy_grows))]
pub fn a_copy_leaves_objects_as_they_were()
    ensures { (value : Value) (before : List Object) → (made : List Object) ×
        ((copied value before).1 ≡ before ++ made) }
{}
