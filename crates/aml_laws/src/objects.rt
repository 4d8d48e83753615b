//! Objects: strings, buffers and packages.
ghost use Rattle.std.specs.Prelude.{◌≡◌, ℕ};
ghost use Rattle.ar_space.specs.Accesses.{Accesses};
ghost use Rattle.aml_world.specs.state.State.{State};
ghost use Rattle.aml_laws.specs.Becomes.{Becomes};
ghost use Rattle.aml_laws.specs.Kinds.{KeepsKinds};

/// No object goes: a string, a buffer or a package is one as long as the world stands, under the number that it got.
/// Where at most 262,144 stand, there are never more. A term that puts an object behind so many is refused by this.
#[tactic(auto, using(crate::proofs::ObjectKindsStay::object_kinds_stay))]
pub fn objects_keep_number_and_kind<S>()
    ensures kept { (accesses : Accesses S) (w v : State S) → Becomes accesses w v → KeepsKinds w.objects v.objects }
{}
