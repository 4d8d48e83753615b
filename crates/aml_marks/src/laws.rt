//! What holds of every list of bytes: each law is the contract of a function that does nothing.
ghost use Rattle.std.specs.Prelude.{◌≡◌, ◌⊎◌, ◌<◌, ◌≤◌, ℕ, List, Bool, Ok, Err, length};
ghost use Rattle.ar_space.specs.declared.refusal.Refusal.TheVariants.{Evaluation};
ghost use Rattle.ar_space.specs.declared.refusal.EvaluationFault.TheVariants.{DepthSetting};
ghost use Rattle.aml_path.specs.declared.segment.Seg.{Seg};
ghost use Rattle.aml_arities.specs.declared.arities.Arity.{Arity};
ghost use Rattle.aml_grammar.specs.State.{State};
ghost use Rattle.aml_grammar.specs.Tree.{Tree};
ghost use Rattle.aml_grammar.specs.Grammar.{term_list, term_list_within, by_arities};
ghost use Rattle.aml_grammar.specs.Grammar.{reading, reading_within, table_reading, table_reading_within};
ghost use Rattle.aml_marks.specs.Marked.{Ascending, Place, a_term, trees_by};
ghost use Rattle.aml_marks.specs.Moving.{MovesOn};

/// Where a list of terms reads as trees, its bytes and the marks that reading leaves give the same trees again, in no
/// scope and with nothing known; and the marks stand in the order of their offsets, no two at one. So they do where a
/// setting allows fewer levels.
pub fn marks_give_the_trees_again()
    ensures list { (bs : List ℕ) (scope : List Seg) (body : Bool) (known : List Arity) (ts : List Tree) (s : State) →
        term_list by_arities bs scope body known ≡ (Ok ts, s) → trees_by s.marks bs ≡ ts }
    ensures ascending { (bs : List ℕ) (scope : List Seg) (body : Bool) (known : List Arity)
        (ts : List Tree) (s : State) →
        term_list by_arities bs scope body known ≡ (Ok ts, s) → Ascending s.marks }
    ensures list_within { (levels : ℕ) (bs : List ℕ) (scope : List Seg) (body : Bool) (known : List Arity)
        (ts : List Tree) (s : State) →
        term_list_within levels by_arities bs scope body known ≡ (Ok ts, s) → trees_by s.marks bs ≡ ts }
    ensures ascending_within { (levels : ℕ) (bs : List ℕ) (scope : List Seg) (body : Bool) (known : List Arity)
        (ts : List Tree) (s : State) →
        term_list_within levels by_arities bs scope body known ≡ (Ok ts, s) → Ascending s.marks }
{}

/// What stands behind a term is what is left of the same bytes, so many bytes further on. A term takes at least one
/// byte, where a level and a byte are left.
pub fn terms_only_move_on()
    ensures on { (count : ℕ → ℕ) (levels : ℕ) (element : Bool) (p : Place) →
        MovesOn p (a_term count levels element p).1 }
    ensures byte { (count : ℕ → ℕ) (levels : ℕ) (element : Bool) (p : Place) → 0 < levels → 0 < length p.rest →
        p.at < (a_term count levels element p).1.at }
{}

/// Where a setting allows fewer levels, a list and a table read as they read within more, or they are refused as
/// `DepthSetting`; 64 levels are no setting. So fewer levels change no tree and no other refusal.
pub fn fewer_levels_only_refuse()
    ensures list { (levels more : ℕ) → levels ≤ more → (bs : List ℕ) (scope : List Seg) (body : Bool)
        (known : List Arity) →
        (reading_within levels bs scope body known ≡ reading_within more bs scope body known)
        ⊎ (reading_within levels bs scope body known ≡ Err (Evaluation DepthSetting)) }
    ensures table { (levels more : ℕ) → levels ≤ more → (bs : List ℕ) (known : List Arity) →
        (table_reading_within levels bs known ≡ table_reading_within more bs known)
        ⊎ (table_reading_within levels bs known ≡ Err (Evaluation DepthSetting)) }
    ensures whole_list { (levels : ℕ) (bs : List ℕ) (scope : List Seg) (body : Bool) (known : List Arity) →
        64 ≤ levels → reading_within levels bs scope body known ≡ reading bs scope body known }
    ensures whole_table { (levels : ℕ) (bs : List ℕ) (known : List Arity) → 64 ≤ levels →
        table_reading_within levels bs known ≡ table_reading bs known }
{}
