//! Lists of fields.
ghost use Rattle.std.specs.Prelude.{◌≡◌, ℕ, List, Ok};
ghost use Rattle.aml_path.specs.declared.segment.Seg.{Seg};
ghost use Rattle.aml_grammar.specs.Tree.{Trees};
ghost use Rattle.aml_objects.specs.declared.entry.FieldUnit.{FieldUnit};
ghost use Rattle.aml_world.specs.declared.fields.field_layout.FieldLayout.{FieldLayout};
ghost use Rattle.aml_world.specs.declared.fields.field_layout.FieldGroup.{FieldGroup};
ghost use Rattle.aml_world.specs.state.State.{State};
ghost use Rattle.aml_meaning.specs.FieldTerms.{elements_laid};
ghost use Rattle.aml_laws.specs.FieldLists.{AreNamed, InOrder, AllStand, AreLaidOut};

/// A list of fields that isn't refused leaves a field for each of its elements that have a name, at the path that the
/// name stands for and of as many bits as the element says; each begins where the one before it ends, or behind that,
/// so that no two share a bit. An offset that begins anew, or that goes back, is refused by this; how far apart fields
/// are, `fields_lie_where_their_list_lays_them_out` says.
#[tactic(auto, using(crate::proofs::FieldsInOrder::fields_in_order))]
pub fn fields_of_a_list_are_in_order<S>()
    ensures in_order { (group : FieldGroup) (scope : List Seg) (depth : ℕ) (ts : Trees) (at : FieldLayout)
        (w after : State S) → elements_laid group scope depth at ts w ≡ (Ok tt, after) →
        (fields : List (List Seg × FieldUnit)) × AreNamed scope ts fields × InOrder at.bit_offset fields ×
        AllStand after.names.map fields }
{}

/// A list of fields that isn't refused leaves each of its named elements as a field that begins just where the element
/// before it ends, of the list's own source and update rule: a named or a reserved element takes its bits, an
/// AccessField says the access width of the fields behind it, and a Connection changes nothing. A reserved element that
/// counts bytes, or an access width that holds for the next field alone, is refused by this.
#[tactic(auto, using(crate::proofs::FieldsLaidOut::fields_laid_out))]
pub fn fields_lie_where_their_list_lays_them_out<S>()
    ensures { (group : FieldGroup) (scope : List Seg) (depth : ℕ) (ts : Trees) (at : FieldLayout) (w after : State S) →
        elements_laid group scope depth at ts w ≡ (Ok tt, after) → (fields : List (List Seg × FieldUnit)) ×
        (AreLaidOut group scope at ts fields × AllStand after.names.map fields) }
{}
