//! The bytes and the operands of each opcode (ACPI 6.5, 20.3).
ghost use Rattle.std.specs.Prelude.{◌≡◌, ℕ, Some};
ghost use Rattle.aml_grammar.specs.declared.opcode.Opcode.{Opcode};
ghost use Rattle.aml_grammar.specs.declared.kinds.Row.{Row};
ghost use Rattle.aml_grammar.specs.Opcodes.{number_of};
ghost use Rattle.aml_grammar.specs.Table.{row_of};
ghost use Rattle.aml_scan.specs.Spelling.{operand_kinds};
ghost use Rattle.aml_spelling.specs.Faults.{IsCode};
ghost use Rattle.aml_spelling.specs.Encoding.{encoding};

/// Each opcode has the bytes that are written out for it in `specs/Encoding.antt`, its term may stand where it is
/// written there, begins with a package length or not, and has these operands, in this order. No other code has a row.
/// Two opcodes that change their bytes, and an operand of another kind, are refused by this.
pub fn opcodes_have_their_bytes_and_operands()
    ensures bytes { (op : Opcode) → IsCode (number_of op) (encoding op).code }
    ensures operands { (op : Opcode) → (row : Row) × (row_of (number_of op) ≡ Some row) × (row.0 ≡ op) ×
        (row.1 ≡ (encoding op).class) × (row.2 ≡ (encoding op).packaged) ×
        (operand_kinds row.3 ≡ (encoding op).operands) }
    ensures others { (n : ℕ) (row : Row) → row_of n ≡ Some row → n ≡ number_of row.0 }
{}
