//! What the commands answer, and what a run tells, of the reader and the writer of the run.
ghost use Rattle.std.specs.Prelude.{◌≡◌, ◌⊎◌, ℕ, Bool, List, Option, Err};
ghost use Rattle.ar_space.specs.declared.refusal.InputFault.{InputFault};
ghost use Rattle.ar_space.specs.declared.refusal.InputFault.TheVariants.{MachineLine, ReadFault, WriteFault};
ghost use Rattle.ar_space.specs.declared.refusal.InputFault.TheVariants.{TextTooLong};
ghost use Rattle.ar_space.specs.declared.refusal.Refusal.{Refusal};
ghost use Rattle.ar_space.specs.declared.refusal.Refusal.TheVariants.{Input};
ghost use Rattle.acpiroute_shell.specs.declared.request.Request.{Request};
ghost use Rattle.acpiroute_shell.specs.ErrorLines.{error_line};
ghost use Rattle.acpiroute_shell.specs.Held.{Held};
ghost use Rattle.acpiroute_shell.specs.Input.{input_of};
ghost use Rattle.acpiroute_lib.specs.Causes.{IsCause, TellsCause};
ghost use Rattle.acpiroute_lib.specs.Commands.{IsAnswer};
ghost use Rattle.acpiroute_lib.specs.Runs.{IsAnswerOver, Ran};
ghost use Rattle.recorded_laws.specs.StreamsTold.{TellsTruly};

/// No command answers that a read or a write failed. Of the faults of the input it answers that a line is bad; over
/// an input that is too long, the answer is that it is.
#[tactic(auto, using(crate::proofs::StreamsTold::answer_of_a_line, crate::proofs::StreamsTold::answer_over_an_input))]
pub fn no_answer_is_a_failed_read_or_write()
    ensures answer { (request : Request) (input : List ℕ) (fault : InputFault) →
        IsAnswer request input (Err (Input fault)) → (n : ℕ) × (fault ≡ MachineLine n) }
    ensures over { (request : Request) (input : List ℕ) (fault : InputFault) →
        IsAnswerOver request (input_of input) (Err (Input fault))
        → ((n : ℕ) × (fault ≡ MachineLine n)) ⊎ ((fault ≡ TextTooLong) × (input_of input ≡ Err (Input TextTooLong))) }
{}

/// A run whose status is 1 tells `refused 142` only where a write to the output failed, `refused 141` only where a
/// read failed and no such write did, and `refused 143` only where the input is too long.
#[tactic(auto, using(crate::proofs::StreamsTold::cause_tells_truly))]
pub fn a_failed_read_or_write_is_told_only_where_it_was()
    ensures cause { (words : List (List ℕ)) (input : List ℕ) (r : Refusal) (read_failed write_failed : Bool) →
        IsCause words read_failed write_failed input r → TellsTruly read_failed write_failed input r }
    ensures run { (words : List (List ℕ)) (left : Option (List ℕ)) (read_failed : Bool) (status : ℕ)
        (output output2 errors errors2 : Held) → Ran words left read_failed status output output2
        errors errors2 → status ≡ 1
        → (told : TellsCause words left read_failed output2.has_failed errors errors2) ×
        TellsTruly read_failed output2.has_failed told.input told.refusal }
{}

/// The lines of a failed read, of a failed write and of an input that is too long are the lines of no other refusal.
#[tactic(auto, using(crate::proofs::StreamLines::lines_alone))]
pub fn a_failed_read_or_write_has_a_line_of_its_own()
    ensures read { (r : Refusal) → error_line r ≡ error_line (Input ReadFault) → r ≡ Input ReadFault }
    ensures write { (r : Refusal) → error_line r ≡ error_line (Input WriteFault) → r ≡ Input WriteFault }
    ensures too_long { (r : Refusal) → error_line r ≡ error_line (Input TextTooLong) → r ≡ Input TextTooLong }
{}
