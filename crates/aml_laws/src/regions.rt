//! Operation regions.
ghost use Rattle.std.specs.Prelude.{◌≡◌, []};
ghost use Rattle.ar_space.specs.Accesses.{Accesses};
ghost use Rattle.aml_namespace.specs.Numbering.{Numbered};
ghost use Rattle.aml_world.specs.state.State.{State};
ghost use Rattle.aml_laws.specs.Becomes.{Becomes};
ghost use Rattle.aml_laws.specs.Noted.{WithNotes, noted};
ghost use Rattle.aml_laws.specs.Histories.{History, NotesExplained, NoneRemoved};

/// In the core profile AML accesses registers through the field units that it declared, and in no other way. Each
/// access of an evaluation is one of the accesses (`units_of`) that make up a field unit: at the offset of that access
/// in the field unit's operation region, of the field's access width, and wholly within that region and its address
/// space. The field unit and the region each stood at some moment before the access, possibly before the evaluation.
///
/// From one moment to the next the world changes as evaluations change it, and in no other way (`History`). A name is
/// declared where none stands, under the next number. Names are removed where a call ends, and they are those below its
/// control method. Under a name another value takes the place of a value, and another count that of a mutex or of an
/// event; any other object stays. The law doesn't tell which values and counts they are at a moment, and which names
/// below a control method stood before its call removed them.
///
/// So it is whole where no name is declared (`none_declared`): all accesses are of field units that stood before, in
/// regions that stood before. And it is whole where no name is removed (`none_removed`): all are of field units that
/// stand after, in regions that stand after.
///
/// A field unit of a Field or a BankField lies in the region that its term names. One of an IndexField lies in no
/// region: its index field and its data field are accessed instead.
///
/// In PCI_Config the access is at the function whose address the region's scope has at the moment at which the region
/// stood: in the segment group, on the bus, and at the device and the function that the objects of the nearest device
/// with an `_ADR`, of the scope and those above it, answer when they are evaluated then. Which devices and which of
/// these objects stand, the names before or after the evaluation tell. That what they answer is the evaluation's own,
/// `a_region_of_pci_config_is_located_by_its_own_scope` and `a_pci_address_is_told_by_its_objects` say.
///
/// The wide profile has one more kind of access: a read of one byte of the configuration header of a PCI function, its
/// header type or its secondary bus number, which finds the bus behind a bridge.
///
/// An access at an offset where the field has no unit, one of another field's width, one at the function of another
/// scope, one on bus 0 in spite of `_BBN`, one at the device in the low word of `_ADR`, a copy that replaces a device,
/// and a call that removes names beside its control method are refused by this.
#[tactic(auto, using(crate::proofs::NamesOfHistories::registers_are_reached_within_regions))]
pub fn registers_are_reached_within_regions<S>()
    ensures history { (accesses : Accesses S) (w v : State S) → Becomes accesses w v → History accesses [] w v }
    ensures none_declared { (accesses : Accesses S) (w v : State (WithNotes S)) → Becomes (noted accesses) w v →
        v.names.next ≡ w.names.next → NotesExplained (noted accesses) w w.names.map w.space v.space }
    ensures none_removed { (accesses : Accesses S) (w v : State (WithNotes S)) → Becomes (noted accesses) w v →
        Numbered w.names → NoneRemoved w.names v.names →
        NotesExplained (noted accesses) w v.names.map w.space v.space }
{}
