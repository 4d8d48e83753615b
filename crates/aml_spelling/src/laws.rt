//! What holds of every list of bytes: each law is the contract of a function that does nothing.
ghost use Rattle.std.specs.Prelude.{◌≡◌, ◌↔◌, ◌⊎◌, ◌<◌, ◌≤◌, ◌+◌, ◌++◌, ◌∷◌, ℕ, List, [], Bool, true, false};
ghost use Rattle.std.specs.Prelude.{length, Ok, Err};
ghost use Rattle.ar_space.specs.declared.refusal.Refusal.{Refusal};
ghost use Rattle.ar_space.specs.declared.refusal.Refusal.TheVariants as refusals;
ghost use Rattle.ar_space.specs.declared.refusal.TermFault.TheVariants.{BadOpcode, Truncated};
ghost use Rattle.aml_path.specs.declared.segment.Seg.{Seg};
ghost use Rattle.aml_arities.specs.declared.arities.Arity.{Arity};
ghost use Rattle.aml_grammar.specs.declared.context.Context.{Context};
ghost use Rattle.aml_grammar.specs.declared.context.Earlier.{Earlier};
ghost use Rattle.aml_grammar.specs.Operands.{scope_name, alias_source, external_name, declared_name};
ghost use Rattle.aml_path.specs.Paths.{Name};
ghost use Rattle.aml_grammar.specs.Names.{starts_name, name_string};
ghost use Rattle.aml_grammar.specs.State.{State, integer, bit_count, package_size, text};
ghost use Rattle.aml_grammar.specs.Tree.{Tree};
ghost use Rattle.aml_grammar.specs.Grammar.{Reads, Fails, reading_within, table_reading, table_reading_within, opcode};
ghost use Rattle.aml_scan.specs.Spelling.{IsInteger, IsLength, IsNameString, IsSpelled};
ghost use Rattle.aml_spelling.specs.Faults.{Spot, Starts, IsName, IsNumber, IsCount, IsText, IsSomeCode};
ghost use Rattle.aml_spelling.specs.Faults.{AtPart, AtLength, AtResolved, AtDeclared, Faulty, FaultyWithin, IsToldAs};
ghost use Rattle.aml_spelling.specs.Reach.{Stops, reach, Placed};
ghost use Rattle.aml_spelling.specs.Stands.{StandWithin, MayStand};

/// A list or a table is read as trees exactly if its bytes are a spelling of them and they may stand there: names that
/// are called or declared, or that Scope, Alias or External gives, resolve in their scopes, each name that is called
/// has as many arguments as it takes, with what is declared before it, and terms are at most 64 levels deep. The
/// arities after a table are those that its trees declare.
pub fn read_exactly_if_spelled()
    ensures list { (bs : List ℕ) (scope : List Seg) (body : Bool) (known : List Arity) (ts : List Tree) →
        Reads bs scope body known ts ↔ (IsSpelled body ts bs × (after : List Arity) ×
        MayStand scope body ts known after) }
    ensures table { (bs : List ℕ) (known : List Arity) (ts : List Tree) (after : List Arity) →
        (table_reading bs known ≡ Ok (ts, after)) ↔ (IsSpelled false ts bs × MayStand [] false ts known after) }
{}

/// A list is read within the levels of a setting exactly if its bytes are a spelling of its trees and they may stand
/// within so many levels: within 64 where the setting says more.
pub fn read_within_levels_exactly_if_spelled()
    ensures few { (levels : ℕ) (bs : List ℕ) (scope : List Seg) (body : Bool) (known : List Arity) (ts : List Tree) →
        levels ≤ 64 → (reading_within levels bs scope body known ≡ Ok ts) ↔
        (IsSpelled body ts bs × (after : List Arity) × StandWithin levels scope body ts known after) }
    ensures many { (levels : ℕ) (bs : List ℕ) (scope : List Seg) (body : Bool) (known : List Arity) (ts : List Tree) →
        64 ≤ levels → (reading_within levels bs scope body known ≡ Ok ts) ↔
        (IsSpelled body ts bs × (after : List Arity) × MayStand scope body ts known after) }
{}

/// A fault depends on no byte after the one where it is found: as many other bytes may stand there, and the fault is
/// the same.
///
/// A missing byte is found at the end of the list or package that it is missing in, an opcode at its own byte or
/// bytes, a package length once it is read; `reach` says it of each fault, and `Placed` where the offset stands.
pub fn faults_depend_on_no_later_byte()
    ensures fault { (front back other : List ℕ) (scope : List Seg) (body : Bool) (known : List Arity)
        (r : Refusal) (s : State) →
        Stops (front ++ back) scope body known r s → reach r s ≤ length front → length other ≡ length back →
        Fails (front ++ other) scope body known r }
    ensures place { (bs : List ℕ) (scope : List Seg) (body : Bool) (known : List Arity) (r : Refusal) (s : State) →
        Stops bs scope body known r s → Placed r s }
    ensures truncated { (front back other : List ℕ) (scope : List Seg) (body : Bool) (known : List Arity) (offset : ℕ) →
        Fails (front ++ back) scope body known (refusals.Term Truncated offset) → offset ≤ length front →
        length other ≡ length back →
        Fails (front ++ other) scope body known (refusals.Term Truncated offset) }
    ensures opcode { (front back other : List ℕ) (scope : List Seg) (body : Bool) (known : List Arity) (offset : ℕ) →
        Fails (front ++ back) scope body known (refusals.Term BadOpcode offset) → offset + 2 ≤ length front →
        length other ≡ length back →
        Fails (front ++ other) scope body known (refusals.Term BadOpcode offset) }
{}

/// A number, a length, a text, an opcode or a name is refused with a number and an offset exactly if it has this fault.
/// The fault is said of the bytes alone: they end where the part needs more of them, no name goes on as they do, or a
/// package length doesn't fit what is around it. A number, a count of bits or a name that stands whole has none.
pub fn parts_are_refused_exactly_if_faulty()
    ensures number { (width : ℕ) (s : State) (spot : Spot) (r : Refusal) → s.at ≡ spot.at → s.rest ≡ spot.rest →
        ((integer width s).0 ≡ Err r) ↔ AtPart (IsNumber width) spot r }
    ensures count { (s : State) (spot : Spot) (r : Refusal) → s.at ≡ spot.at → s.rest ≡ spot.rest →
        ((bit_count s).0 ≡ Err r) ↔ AtPart IsCount spot r }
    ensures package_length { (s : State) (spot : Spot) (r : Refusal) → s.at ≡ spot.at → s.rest ≡ spot.rest →
        ((package_size s).0 ≡ Err r) ↔ AtLength spot r }
    ensures string { (s : State) (spot : Spot) (r : Refusal) → s.at ≡ spot.at → s.rest ≡ spot.rest →
        ((text s).0 ≡ Err r) ↔ AtPart IsText spot r }
    ensures code { (s : State) (spot : Spot) (r : Refusal) → s.at ≡ spot.at → s.rest ≡ spot.rest →
        ((opcode s).0 ≡ Err r) ↔ AtPart IsSomeCode spot r }
    ensures name { (s : State) (spot : Spot) (r : Refusal) → s.at ≡ spot.at → s.rest ≡ spot.rest →
        ((name_string s).0 ≡ Err r) ↔ AtPart IsName spot r }
    ensures first_byte { (b : ℕ) → (starts_name b ≡ true) ↔ Starts IsName (b ∷ []) }
    ensures whole_number { (width n : ℕ) (front back : List ℕ) (spot : Spot) (r : Refusal) → spot.rest ≡ front ++ back →
        IsInteger width n front → AtPart (IsNumber width) spot r → ⊥ }
    ensures whole_count { (n : ℕ) (front back : List ℕ) (spot : Spot) (r : Refusal) → spot.rest ≡ front ++ back →
        IsLength n front → AtPart IsCount spot r → ⊥ }
    ensures whole_name { (n : Name) (front back : List ℕ) (spot : Spot) (r : Refusal) → spot.rest ≡ front ++ back →
        IsNameString n front → AtPart IsName spot r → ⊥ }
{}

/// The name of a scope, the source of an alias, the name of an External, or a name that a term declares is refused with
/// a number and an offset exactly if it has this fault: it is no name, it leads above the root, or, where it is
/// declared, it has no segment or may not be declared in a body. Of a name that has several of these faults only the
/// first one counts, in the order of the numbers 20, 21 and 34.
pub fn names_are_refused_exactly_if_faulty()
    ensures place { (s : State) (spot : Spot) (earlier : Earlier) (r : Refusal) → s.at ≡ spot.at → s.rest ≡ spot.rest →
        ((scope_name spot.scope earlier s).0 ≡ Err r) ↔ AtResolved spot r }
    ensures source { (s : State) (spot : Spot) (earlier : Earlier) (r : Refusal) → s.at ≡ spot.at → s.rest ≡ spot.rest →
        ((alias_source spot.scope earlier s).0 ≡ Err r) ↔ AtResolved spot r }
    ensures external { (s : State) (spot : Spot) (earlier : Earlier) (r : Refusal) →
        s.at ≡ spot.at → s.rest ≡ spot.rest →
        ((external_name spot.scope earlier s).0 ≡ Err r) ↔ AtResolved spot r }
    ensures declared { (s : State) (spot : Spot) (context : Context) (start count : ℕ) (earlier : Earlier)
        (r : Refusal) →
        s.at ≡ spot.at → s.rest ≡ spot.rest → context.body ≡ spot.around.body →
        ((declared_name spot.scope context start count earlier s).0 ≡ Err r) ↔ AtDeclared start spot r }
{}

/// A list or a table is refused with a number and an offset exactly if it has this fault: before it there are only
/// terms that are spelled and may stand, and at it there is what the number says. Each list is spelled and may stand,
/// or it has a fault, and never both, and never two faults.
pub fn refused_exactly_if_faulty()
    ensures list { (bs : List ℕ) (scope : List Seg) (body : Bool) (known : List Arity) (r : Refusal) →
        Fails bs scope body known r ↔ Faulty bs scope body known r }
    ensures table { (bs : List ℕ) (known : List Arity) (r : Refusal) →
        (table_reading bs known ≡ Err r) ↔ Faulty bs [] false known r }
    ensures either { (bs : List ℕ) (scope : List Seg) (body : Bool) (known : List Arity) →
        ((ts : List Tree) × IsSpelled body ts bs × (after : List Arity) × MayStand scope body ts known after)
        ⊎ ((r : Refusal) × Faulty bs scope body known r) }
    ensures one { (bs : List ℕ) (scope : List Seg) (body : Bool) (known : List Arity) (r q : Refusal) →
        Faulty bs scope body known r → Faulty bs scope body known q → r ≡ q }
    ensures not_both { (bs : List ℕ) (scope : List Seg) (body : Bool) (known after : List Arity) (ts : List Tree)
        (r : Refusal) →
        IsSpelled body ts bs → MayStand scope body ts known after → Faulty bs scope body known r → ⊥ }
{}

/// Within the levels of a setting, fewer than 64, a list or a table is refused exactly if it has a fault within so many:
/// before it there are only terms that are spelled and may stand as deep as these allow. A term that is too deep for
/// them is refused as `DepthSetting`, any other fault with its own number and offset. Where a setting says 64 or more,
/// nothing changes. For each number of levels there is never more than one fault, and never one of a list that is
/// spelled and may stand. A setting by which each fault counts as one of depth, one that tells a term that is too deep
/// as a fault of the term, and one that allows a level more are refused by this.
pub fn refused_within_levels_exactly_if_faulty()
    ensures list { (levels : ℕ) (bs : List ℕ) (scope : List Seg) (body : Bool) (known : List Arity) (r : Refusal) →
        levels < 64 → (reading_within levels bs scope body known ≡ Err r) ↔ ((fault : Refusal) ×
        FaultyWithin levels bs scope body known fault × IsToldAs fault r) }
    ensures table { (levels : ℕ) (bs : List ℕ) (known : List Arity) (r : Refusal) →
        levels < 64 → (table_reading_within levels bs known ≡ Err r) ↔ ((fault : Refusal) ×
        FaultyWithin levels bs [] false known fault × IsToldAs fault r) }
    ensures whole_list { (levels : ℕ) (bs : List ℕ) (scope : List Seg) (body : Bool) (known : List Arity)
        (r : Refusal) → 64 ≤ levels →
        (reading_within levels bs scope body known ≡ Err r) ↔ Faulty bs scope body known r }
    ensures whole_table { (levels : ℕ) (bs : List ℕ) (known : List Arity) (r : Refusal) →
        64 ≤ levels → (table_reading_within levels bs known ≡ Err r) ↔ Faulty bs [] false known r }
    ensures either { (levels : ℕ) (bs : List ℕ) (scope : List Seg) (body : Bool) (known : List Arity) → levels ≤ 64 →
        ((ts : List Tree) × IsSpelled body ts bs × (after : List Arity) × StandWithin levels scope body ts known after)
        ⊎ ((r : Refusal) × FaultyWithin levels bs scope body known r) }
    ensures one { (levels : ℕ) (bs : List ℕ) (scope : List Seg) (body : Bool) (known : List Arity) (r q : Refusal) →
        FaultyWithin levels bs scope body known r → FaultyWithin levels bs scope body known q → r ≡ q }
    ensures not_both { (levels : ℕ) (bs : List ℕ) (scope : List Seg) (body : Bool) (known after : List Arity)
        (ts : List Tree) (r : Refusal) → levels ≤ 64 → IsSpelled body ts bs →
        StandWithin levels scope body ts known after → FaultyWithin levels bs scope body known r → ⊥ }
{}
