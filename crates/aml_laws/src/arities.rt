//! How many arguments names take while bytes are read, and that evaluations keep it.
ghost use Rattle.std.specs.Prelude.{◌≡◌, ◌++◌, ◌∷◌, [], ℕ, List, take, Some, None, Ok, Err};
ghost use Rattle.ar_space.specs.Accesses.{Accesses};
ghost use Rattle.ar_space.specs.declared.refusal.Refusal.{Refusal};
ghost use Rattle.aml_path.specs.declared.segment.Seg.{Seg};
ghost use Rattle.aml_path.specs.Paths.{Name};
ghost use Rattle.aml_arities.specs.Arities.{arity_at, found, or_path, arity_of};
ghost use Rattle.aml_arities.specs.declared.arities.Arity.{Arity};
ghost use Rattle.aml_grammar.specs.Grammar.{table_reading_within};
ghost use Rattle.aml_grammar.specs.Shape.{trees_of};
ghost use Rattle.aml_grammar.specs.Tree.{Tree, Trees};
ghost use Rattle.aml_objects.specs.declared.entry.Field.{Field};
ghost use Rattle.aml_objects.specs.declared.value.Value.{Value};
ghost use Rattle.aml_namespace.specs.Namespace.{mutexes_released};
ghost use Rattle.aml_world.specs.declared.values.store_target.StoreTarget.{StoreTarget};
ghost use Rattle.aml_world.specs.state.Given.{Given};
ghost use Rattle.aml_world.specs.state.Noting.{with_passed};
ghost use Rattle.aml_world.specs.state.State.{State};
ghost use Rattle.aml_meaning.specs.Calling.{table_terms, loaded, evaluated, answered};
ghost use Rattle.aml_meaning.specs.FieldCalls.{field_read, stored_to};
ghost use Rattle.aml_meaning.specs.Calls.{invoked};
ghost use Rattle.aml_meaning.specs.Meaning.{meaning};
ghost use Rattle.aml_meaning.specs.Tasks.{Task, in_turn};
ghost use Rattle.aml_laws.specs.CountsTold.{declared_with, named_with, NoneDeclared, NoneNamed};
ghost use Rattle.aml_laws.specs.CountsTold.{IsNearestCount, HasNoCount};
ghost use Rattle.aml_laws.specs.NamesWritten.{single, StandsFor};

/// A path takes as many arguments as the last declaration of a name there tells: where a control method is declared
/// again, and where its flags are read after its name, the later number counts. Where no name was declared there, it
/// takes as many as the last External tells; where no External told of it either, the number isn't known. The law
/// excludes a number that is told first and stays.
pub fn a_path_takes_the_arguments_that_are_told_last()
    ensures declared { (front back : List Arity) (path : List Seg) (count : ℕ) → NoneDeclared path back →
        arity_at (front ++ declared_with path count ∷ back) path ≡ Some count }
    ensures external { (front back : List Arity) (path : List Seg) (count : ℕ) →
        NoneDeclared path (front ++ named_with path count ∷ back) → NoneNamed path back →
        arity_at (front ++ named_with path count ∷ back) path ≡ Some count }
    ensures unknown { (told : List Arity) (path : List Seg) → NoneDeclared path told → NoneNamed path told →
        arity_at told path ≡ None }
{}

/// How many arguments a name takes while bytes are read. A name of one segment without a prefix is looked for in its
/// scope, and then in each scope above it, up to the root: the first path there for which a number of arguments is
/// known decides. Any other name stands for one path (`StandsFor`), and the number of that path decides. Where no
/// number is known, the name takes no arguments. Which number a path has,
/// `a_path_takes_the_arguments_that_are_told_last` says. The law excludes a search that ends before the root, a search
/// for any other name, and a name without a number that takes an argument.
pub fn a_name_takes_the_arguments_of_the_nearest_count()
    ensures nearest { (told : List Arity) (scope path : List Seg) (s : Seg) (k count : ℕ) →
        IsNearestCount told scope (s ∷ []) k count → arity_of told scope (single s) path ≡ count }
    ensures nowhere { (told : List Arity) (scope path : List Seg) (s : Seg) → HasNoCount told scope (s ∷ []) →
        arity_of told scope (single s) path ≡ 0 }
    ensures one_path { (told : List Arity) (scope path : List Seg) (name : Name) (count : ℕ) →
        StandsFor scope name path → arity_at told path ≡ Some count → arity_of told scope name path ≡ count }
    ensures no_count { (told : List Arity) (scope path : List Seg) (name : Name) → StandsFor scope name path →
        arity_at told path ≡ None → arity_of told scope name path ≡ 0 }
{}

/// While bytes are read, the list of a Scope is read in the path of the Scope's name
/// (`lists_are_read_and_names_declared_in_their_scope` of `aml_spelling`). For a name of one segment without a prefix
/// this is the path that the search of `a_name_takes_the_arguments_of_the_nearest_count` finds. Where that finds none,
/// and for any other name, it is the path for which the name stands. The law excludes a list that is always read at the
/// latter path.
pub fn the_list_of_a_scope_is_read_at_the_nearest_count()
    ensures nearest { (told : List Arity) (scope path : List Seg) (s : Seg) (k count : ℕ) →
        IsNearestCount told scope (s ∷ []) k count →
        or_path path (found told scope (single s) path) ≡ take k scope ++ s ∷ [] }
    ensures nowhere { (told : List Arity) (scope path : List Seg) (s : Seg) → HasNoCount told scope (s ∷ []) →
        or_path path (found told scope (single s) path) ≡ path }
    ensures one_path { (told : List Arity) (scope path : List Seg) (name : Name) → StandsFor scope name path →
        or_path path (found told scope name path) ≡ path }
{}

/// The terms of a table are read within the levels that the world allows, and with the numbers of arguments that the
/// world keeps for names: those of the predefined names, and those that earlier tables told of their names and
/// Externals. After the reading the world also keeps the numbers that this table tells; nothing else changes before the
/// terms are evaluated. A table that can't be read is refused for that, and changes nothing but that all mutexes are
/// free. The law excludes a table that is read as if no other one were loaded, and one that tells later tables and
/// bodies nothing.
pub fn a_table_is_read_with_what_was_told_before_it<S>()
    ensures read { (w : State S) (bytes : List ℕ) (ts : List Tree) (told : List Arity) →
        table_reading_within w.nesting.levels bytes w.arities ≡ Ok (ts, told) →
        table_terms bytes w ≡ (Ok (trees_of ts), record w { arities = told }) }
    ensures unread { (w : State S) (bytes : List ℕ) (e : Refusal) →
        table_reading_within w.nesting.levels bytes w.arities ≡ Err e → table_terms bytes w ≡ (Err e, w) }
    ensures not_loaded { (accesses : Accesses S) (w : State S) (bytes : List ℕ) (steps : ℕ) (e : Refusal) →
        table_reading_within w.nesting.levels bytes w.arities ≡ Err e →
        loaded accesses bytes steps w ≡ (Err e, record w { names = mutexes_released w.names }) }
{}

/// Evaluations keep how many arguments names take, as the predefined names and the tables told it. A term, a list of
/// terms, a call of a control method, a field that is read, a store, the value of an object, an answer and a note of
/// what is passed over change none of these numbers, however they end; so an External in a body has no effect after the
/// call. Only a table adds numbers. Those that its reading told stay, however the evaluation of its terms ended; where
/// it can't be read, the numbers are those before it. The law excludes a frame of slots that forgets them where it
/// ends.
pub fn evaluation_keeps_the_arguments_that_are_told<S>()
    ensures terms { (accesses : Accesses S) (t : Task) (s : State S × ℕ) →
        (meaning accesses t s).1.0.arities ≡ s.0.arities }
    ensures lists { (accesses : Accesses S) (scope : List Seg) (depth : ℕ) (ts : Trees) (s : State S × ℕ) →
        (in_turn (meaning accesses) scope depth ts s).1.0.arities ≡ s.0.arities }
    ensures calls { (accesses : Accesses S) (depth : ℕ) (p : List Seg) (body : List ℕ) (arguments : List Value)
        (s : State S × ℕ) → (invoked (meaning accesses) depth p body arguments s).1.0.arities ≡ s.0.arities }
    ensures fields { (accesses : Accesses S) (depth : ℕ) (f : Field) (s : State S × ℕ) →
        (field_read accesses (meaning accesses) depth f s).1.0.arities ≡ s.0.arities }
    ensures stores { (accesses : Accesses S) (depth : ℕ) (target : StoreTarget) (v : Value) (s : State S × ℕ) →
        (stored_to accesses (meaning accesses) depth target v s).1.0.arities ≡ s.0.arities }
    ensures values { (accesses : Accesses S) (p : List Seg) (arguments : List Value) (steps : ℕ) (w : State S) →
        (evaluated accesses p arguments steps w).1.arities ≡ w.arities }
    ensures answers { (accesses : Accesses S) (p : List Seg) (arguments : List Given) (steps : ℕ) (w : State S) →
        (answered accesses p arguments steps w).1.arities ≡ w.arities }
    ensures notes { (scope : List Seg) (e : Refusal) (w : State S) → (with_passed scope e w).arities ≡ w.arities }
    ensures tables { (accesses : Accesses S) (bytes : List ℕ) (steps : ℕ) (w : State S) (ts : List Tree)
        (told : List Arity) → table_reading_within w.nesting.levels bytes w.arities ≡ Ok (ts, told) →
        (loaded accesses bytes steps w).1.arities ≡ told }
    ensures unread { (accesses : Accesses S) (bytes : List ℕ) (steps : ℕ) (w : State S) (e : Refusal) →
        table_reading_within w.nesting.levels bytes w.arities ≡ Err e →
        (loaded accesses bytes steps w).1.arities ≡ w.arities }
{}
