//! What `names` tells of each name.
ghost use Rattle.aml_objects.specs.declared.entry.NamedObject.{NamedObject};
ghost use Rattle.aml_namespace.specs.Namespace.{Map};
ghost use Rattle.aml_namespace.specs.Walks.{walked};
ghost use Rattle.acpi_machine.specs.Kinds.{kind_of, kinds_walked};
ghost use Rattle.acpiroute_lib.specs.NameLines.{kind_text, name_lines};
ghost use Rattle.recorded_laws.specs.NamesShown.{AreLinesOf, IsShownAs};

/// What stands at a name is shown by the word of its type, which has the number that ObjectType gives for it: `Device`
/// for type 6, `Region` for type 10. A control method is shown with the number of its arguments, an alias with the path
/// that it is one of, and a scope, a reference, and a name that holds no value by words of their own. A thermal zone
/// that is shown as a device, and a method with its flags in place of its arguments, are refused by this.
#[tactic(auto, using(crate::proofs::NamesShown::shown_as))]
pub fn each_object_is_shown_by_its_type()
    ensures { (object : NamedObject) → IsShownAs object (kind_text (kind_of object)) }
{}

/// `names` writes a line for each name that is gone over, and no other line, in the same order: its path, a blank, and
/// what stands there as `each_object_is_shown_by_its_type` says. `each_name_that_stands_is_walked` says which names
/// these are. An alias that is left out, and a line without the path of its name, are refused by this.
#[tactic(auto, using(crate::proofs::NamesShown::lines_of_names))]
pub fn each_name_has_a_line_of_its_own()
    ensures { (names : Map) → AreLinesOf names (walked names) (name_lines (kinds_walked names)) }
{}
