//! Declarations.
ghost use Rattle.std.specs.Prelude.{◌≡◌, ℕ, List, Bool, Err};
ghost use Rattle.ar_space.specs.declared.refusal.Refusal.{Refusal};
ghost use Rattle.aml_path.specs.declared.segment.Seg.{Seg};
ghost use Rattle.aml_objects.specs.declared.entry.MethodFlags.{MethodFlags};
ghost use Rattle.aml_objects.specs.declared.entry.NamedObject.{NamedObject};
ghost use Rattle.aml_world.specs.state.State.{State};
ghost use Rattle.aml_world.specs.state.Declaring.{new_name, new_method};

/// A name that can't be declared, where another stands, for want of a parent, or in a control method, leaves the
/// world as it is: it has neither the name, nor the body of the control method that it was to be.
#[tactic(auto, using(crate::proofs::RefusedDeclarations::refused_names_change_nothing))]
pub fn refused_names_change_nothing<S>()
    ensures names { (module_level : Bool) (path : List Seg) (object : NamedObject) (w : State S) (e : Refusal) →
        (new_name module_level path object w).0 ≡ Err e → (new_name module_level path object w).1 ≡ w }
    ensures methods { (module_level : Bool) (path : List Seg) (flags : MethodFlags) (body : List ℕ) (w : State S)
        (e : Refusal) → (new_method module_level path flags body w).0 ≡ Err e →
        (new_method module_level path flags body w).1 ≡ w }
{}
