//! Strings, buffers and packages that terms form.
ghost use Rattle.std.specs.Prelude.{◌<◌, ◌≤◌, ℕ, suc, List, length};
ghost use Rattle.ar_space.specs.Accesses.{Accesses};
ghost use Rattle.ar_space.specs.declared.refusal.Refusal.{Refusal};
ghost use Rattle.aml_path.specs.declared.segment.Seg.{Seg};
ghost use Rattle.aml_grammar.specs.Tree.{Tree, Trees};
ghost use Rattle.aml_objects.specs.declared.object.Element.{Element};
ghost use Rattle.aml_objects.specs.declared.object.Object.TheVariants as object;
ghost use Rattle.aml_objects.specs.declared.value.Value.TheVariants as value;
ghost use Rattle.aml_world.specs.state.State.{State};
ghost use Rattle.aml_laws.specs.OperatorTerms.{GivesValue, IsRefused, OneInteger};
ghost use Rattle.aml_laws.specs.JoinedTerms.{with_object, Fits};
ghost use Rattle.aml_laws.specs.DataTerms.{string_term, buffer_term, package_term, var_package_term, filled_with_zeros, filled_with_none, GivesElements, GivesNoElements};

/// A string forms a new object of its very bytes, and a Buffer one of the bytes that are written out, with zeros behind
/// them up to its size, or of all of them where these are more (ACPI 6.5, 19.6: Buffer). An empty string for any, and
/// zeros in front, are refused by this.
pub fn strings_and_buffers_hold_what_is_written_out<S>()
    ensures string { (accesses : Accesses S) (scope : List Seg) (depth : ℕ) (text : List ℕ) (w : State S) (steps : ℕ) →
        Fits w text → GivesValue accesses scope depth (string_term text) (w, suc steps)
        (value.String (length w.objects)) (with_object w (object.String text), steps) }
    ensures buffer { (accesses : Accesses S) (scope : List Seg) (depth : ℕ) (x : Tree) (written : List ℕ) (w : State S)
        (steps n : ℕ) (after : State S × ℕ) → OneInteger accesses scope depth x (w, steps) n after → n ≤ 1048576 →
        Fits after.0 (filled_with_zeros n written) →
        GivesValue accesses scope depth (buffer_term x written) (w, suc steps)
        (value.Buffer (length after.0.objects)) (
          with_object after.0 (object.Buffer (filled_with_zeros n written)),
          after.1,
        ) }
{}

/// A Package forms a new object of the elements that are written out, as many as are counted, in their order, each
/// evaluated before the next, and of uninitialized ones behind them where fewer are written out; a VarPackage does so
/// with the count that its first operand gives (ACPI 6.5, 19.6: Package). A name in it isn't evaluated: it stays a
/// name. Elements in the other order, and uninitialized ones in front, are refused by this.
pub fn packages_hold_their_elements_in_order<S>()
    ensures counted { (accesses : Accesses S) (scope : List Seg) (depth n : ℕ) (ts : Trees) (w : State S) (steps : ℕ)
        (es : List Element) (after : State S × ℕ) → GivesElements accesses scope depth n ts (w, steps) es after →
        (length (filled_with_none n es) ≤ 65535) × (length after.0.objects < 262144) →
        GivesValue accesses scope depth (package_term n ts) (w, suc steps) (value.Package (length after.0.objects)) (
          with_object after.0 (object.Package (filled_with_none n es)),
          after.1,
        ) }
    ensures sized { (accesses : Accesses S) (scope : List Seg) (depth : ℕ) (x : Tree) (n : ℕ) (ts : Trees) (w : State S)
        (steps : ℕ) (between : State S × ℕ) (es : List Element) (after : State S × ℕ) →
        OneInteger accesses scope depth x (w, steps) n between → n ≤ 65535 →
        GivesElements accesses scope depth n ts between es after →
        (length (filled_with_none n es) ≤ 65535) × (length after.0.objects < 262144) →
        GivesValue accesses scope depth (var_package_term x ts) (w, suc steps)
        (value.Package (length after.0.objects)) (
          with_object after.0 (object.Package (filled_with_none n es)),
          after.1,
        ) }
{}

/// A Package and a VarPackage are refused as the first of their elements, as many as are counted, that is refused,
/// where the elements in front of it were evaluated from left to right, once the count is known; and as `NoValue` at an
/// element that gives nothing, as a call of a control method that comes to its end, and as `OutOfSteps` at a name for
/// which no step is left. No element behind it is evaluated, and no package is formed: the world and the steps are as
/// that element left them (ACPI 6.5, 19.6: Package). An element that is uninitialized where it is refused is refused by
/// this.
pub fn a_package_is_refused_as_its_elements_are<S>()
    ensures counted { (accesses : Accesses S) (scope : List Seg) (depth n : ℕ) (ts : Trees) (w : State S) (steps : ℕ)
        (e : Refusal) (after : State S × ℕ) → GivesNoElements accesses scope depth n ts (w, steps) e after →
        IsRefused accesses scope depth (package_term n ts) (w, suc steps) e after }
    ensures sized { (accesses : Accesses S) (scope : List Seg) (depth : ℕ) (x : Tree) (n : ℕ) (ts : Trees) (w : State S)
        (steps : ℕ) (between : State S × ℕ) (e : Refusal) (after : State S × ℕ) →
        OneInteger accesses scope depth x (w, steps) n between → n ≤ 65535 →
        GivesNoElements accesses scope depth n ts between e after →
        IsRefused accesses scope depth (var_package_term x ts) (w, suc steps) e after }
{}
