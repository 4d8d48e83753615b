//! Laws of the definitions that the contracts cite, in the words of the subject. These functions do nothing.
ghost use Rattle.std.specs.Prelude.{◌≡◌, ℕ, Ok};
ghost use Rattle.std.specs.FinMap.{FinMap};
ghost use Rattle.std.specs.Ordering.{nat_cmp};
ghost use Rattle.ar_tables.specs.Conditions.{MeetTheStandard};
ghost use Rattle.ar_tables.specs.FindTables.{tables_of};
ghost use Rattle.ar_tables.specs.declared.tables.Tables.{Tables};

/// Tables that are found meet what the standard asks of the root pointer, of the list of tables, and of each table:
/// its place in memory, its length, its signature and its checksum.
pub fn tables_that_are_found_meet_the_standard()
    ensures { (image : FinMap nat_cmp ℕ) (rsdp : ℕ) (tables : Tables) → tables_of image rsdp ≡ Ok tables →
        MeetTheStandard image rsdp tables }
{}
