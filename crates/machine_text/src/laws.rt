//! Laws of the definitions that the contracts cite, in the words of the subject. These functions do nothing.
ghost use Rattle.std.specs.Prelude.{◌≡◌, ◌↔◌, ℕ, List, Ok, Some, None};
ghost use Rattle.std.specs.Str.Lines.{lines};
ghost use Rattle.ar_space.specs.Bytes.{byte_at};
ghost use Rattle.ar_space.specs.declared.space.Place.{Place};
ghost use Rattle.machine_text.specs.Given.{LastGives, NoneGives};
ghost use Rattle.machine_text.specs.MachineText.{machine_text};
ghost use Rattle.machine_text.specs.declared.machine_lines.MachineText.{MachineText};

/// Where a machine text is read, the byte at a place of memory, of the ports or of a function's registers is the one
/// that the last of its lines to give a byte there gives. A place has no byte just where no line gives one.
pub fn a_byte_is_that_of_the_last_line_that_gives_one()
    ensures last { (text : List ℕ) (said : MachineText) (place : Place) (byte : ℕ) → machine_text text ≡ Ok said →
        byte_at said.space place ≡ Some byte ↔ LastGives (lines text) place byte }
    ensures none { (text : List ℕ) (said : MachineText) (place : Place) → machine_text text ≡ Ok said →
        byte_at said.space place ≡ None ↔ NoneGives (lines text) place }
{}
