//! Frames of control methods.
ghost use Rattle.std.specs.Prelude.{◌≡◌, ◌≢◌, ◌≤◌, ◌<◌, ◌+◌, ◌-◌, ◌^◌, ◌++◌, ◌∷◌, [], ℕ, List, length, slice_get};
ghost use Rattle.std.specs.Prelude.{Some, None, Ok, Err};
ghost use Rattle.ar_space.specs.declared.refusal.Refusal.TheVariants.{Evaluation};
ghost use Rattle.ar_space.specs.declared.refusal.EvaluationFault.TheVariants.{ObjectLimit};
ghost use Rattle.ar_space.specs.Accesses.{Accesses};
ghost use Rattle.ar_space.specs.declared.integer_width.IntegerWidth.{IntegerWidth};
ghost use Rattle.aml_path.specs.declared.segment.Seg.{Seg};
ghost use Rattle.aml_grammar.specs.Tree.{Trees};
ghost use Rattle.aml_world.specs.declared.state.frame.Frame.{Frame};
ghost use Rattle.aml_world.specs.declared.state.settings.EvaluationSettings.{EvaluationSettings};
ghost use Rattle.aml_objects.specs.declared.value.Value.{Value};
ghost use Rattle.aml_world.specs.state.State.{State};
ghost use Rattle.aml_world.specs.state.Run.{Run};
ghost use Rattle.aml_world.specs.state.Slots.{frame_index, opened, closed};
ghost use Rattle.aml_world.specs.state.Invocations.{body_terms, left};
ghost use Rattle.aml_world.specs.state.Predefined.{fresh_as, predefined};
ghost use Rattle.aml_meaning.specs.declared.flow.Flow.{Flow};
ghost use Rattle.aml_meaning.specs.Calls.{invoked};
ghost use Rattle.aml_meaning.specs.Tasks.{Task, in_turn};
ghost use Rattle.aml_meaning.specs.Meaning.{meaning};
ghost use Rattle.aml_laws.specs.Becomes.{Becomes};
ghost use Rattle.aml_laws.specs.Calls.{body_frame};
ghost use Rattle.aml_laws.specs.FramesAtOnce.{meaning_but};
ghost use Rattle.aml_laws.specs.Numbers.{numbers_of, RiseTo};

/// Each frame that is opened is closed, however the evaluation ends: the same frames stand after it as before, in
/// their order.
#[tactic(auto, using(crate::proofs::FrameNumbers::frames_are_balanced))]
pub fn frames_are_balanced<S>()
    ensures balanced { (accesses : Accesses S) (w v : State S) → Becomes accesses w v →
        numbers_of v.frames ≡ numbers_of w.frames }
{}

/// No frame's number is ever given again. Those that stand have rising numbers, all below the next frame's, after
/// whatever is evaluated from the predefined names on, in either profile; and a frame that is opened stands behind
/// them, under the next number. When a call is over its frame's number is below the next one, and the end of a frame
/// leaves the next number as it was, however many frames were opened and ended inside of it: so what refers to a slot
/// of a frame that ended refers to none of a later one. A frame that gives its number back, or those of calls inside
/// of it, is refused by this.
#[tactic(auto, using(crate::proofs::FrameNumbers::frame_numbers_are_given_once, crate::proofs::FramesEnded::numbers_stay_given))]
pub fn frame_numbers_are_given_once<S>()
    ensures kept { (accesses : Accesses S) (w v : State S) → Becomes accesses w v →
        RiseTo w.started (numbers_of w.frames) → RiseTo v.started (numbers_of v.frames) }
    ensures always { (accesses : Accesses S) (settings : EvaluationSettings) (width : IntegerWidth) (osi : List (List ℕ))
        (space : S) (w : State S) → Becomes accesses (predefined (fresh_as settings width osi space)).1 w →
        RiseTo w.started (numbers_of w.frames) }
    ensures opened { (arguments : List Value) (w : State S) (number : ℕ) → RiseTo w.started (numbers_of w.frames) →
        (opened arguments w).0 ≡ Ok number →
        RiseTo (opened arguments w).1.started (numbers_of (opened arguments w).1.frames) }
    ensures behind { (arguments : List Value) (w : State S) (number : ℕ) → (opened arguments w).0 ≡ Ok number →
        numbers_of (opened arguments w).1.frames ≡ numbers_of w.frames ++ number ∷ [] }
    ensures spent { (accesses : Accesses S) (depth : ℕ) (p : List Seg) (body : List ℕ) (arguments : List Value)
        (s : State S × ℕ) (n : ℕ) → (body_frame depth p body arguments s.0).0 ≡ Ok n →
        n < (invoked (meaning accesses) depth p body arguments s).1.0.started }
    ensures ended { (p : List Seg) (w : State S) → (left p w).started ≡ w.started }
    ensures closed { (w : State S) → (closed w).started ≡ w.started }
{}

/// While a frame stands its number finds it, the latest or that of any caller; and a number that no frame has finds none.
/// So a reference to a slot of a caller is read and takes what is stored there, as `slots_take_copies` and
/// `a_dereference_reads_what_its_operand_refers_to` say of a frame that is found. The numbers of frames rise, as
/// `frame_numbers_are_given_once` says. A caller's frame that isn't found is refused by this.
pub fn a_frame_that_stands_is_found_by_its_number<S>()
    ensures stands { (w : State S) (k : ℕ) (f : Frame) → RiseTo w.started (numbers_of w.frames) →
        slice_get w.frames k ≡ Some f → frame_index f.number w.frames ≡ Some k }
    ensures ended { (w : State S) (n : ℕ) → ((k : ℕ) (f : Frame) → slice_get w.frames k ≡ Some f → f.number ≢ n) →
        frame_index n w.frames ≡ None }
{}

/// A frame has for its number how many were started before it, where these are fewer than 2^64 - 1. Where so many were,
/// no number is left: the frame is refused as too much, and nothing changes, and so is a call whose body can be read.
/// A number that is refused one too early or one too late is refused by this.
#[tactic(auto, using(crate::proofs::FramesLimited::frames_are_numbered_while_a_number_is_left))]
pub fn frames_are_numbered_while_a_number_is_left<S>()
    ensures numbered { (arguments : List Value) (w : State S) → w.started < 2 ^ 64 - 1 →
        (opened arguments w).0 ≡ Ok w.started }
    ensures refused { (arguments : List Value) (w : State S) → w.started ≡ 2 ^ 64 - 1 →
        opened arguments w ≡ (Err (Evaluation ObjectLimit), w) }
    ensures calls { (accesses : Accesses S) (depth : ℕ) (p : List Seg) (body : List ℕ) (arguments : List Value)
        (s : State S × ℕ) (ts : Trees) → depth < 32 → depth < s.0.nesting.calls →
        (body_terms p body s.0).0 ≡ Ok ts → s.0.started ≡ 2 ^ 64 - 1 →
        invoked (meaning accesses) depth p body arguments s ≡ (Err (Evaluation ObjectLimit), s) }
{}

/// The body of a control method begins only inside fewer than 32 other calls, and inside fewer than the world allows,
/// and it begins with one frame more. A call that opens two frames, and one that is too deep, is refused by this.
pub fn a_call_opens_one_frame<S>()
    ensures within { (depth : ℕ) (p : List Seg) (body : List ℕ) (arguments : List Value) (before inside : State S)
        (n : ℕ) → body_frame depth p body arguments before ≡ (Ok n, inside) →
        (depth < 32) × (depth < before.nesting.calls) }
    ensures more { (depth : ℕ) (p : List Seg) (body : List ℕ) (arguments : List Value) (before inside : State S)
        (n : ℕ) → body_frame depth p body arguments before ≡ (Ok n, inside) →
        length inside.frames ≡ length before.frames + 1 }
{}

/// At most 33 frames stand at once. Where a term, a list or a call is evaluated with at most one frame more than
/// control methods are being called, and these are at most 32, it makes no difference what a term does where more than
/// 33 frames stand (`other`): none is evaluated there. So it is outside of calls, where at most the frame of a table
/// stands: in a new world none stands, as `nothing_else_stands_before_any_table` says, and evaluations leave as many as
/// they found, as `frames_are_balanced` says. A call that leaves its frame open, one that counts as none, and a limit
/// of more calls are refused by this.
pub fn at_most_33_frames_stand_at_once<S>()
    ensures terms { (accesses : Accesses S) (other : Task → Run S Flow) (t : Task) (s : State S × ℕ) →
        t.depth ≤ 32 → length s.0.frames ≤ t.depth + 1 →
        meaning_but accesses other t s ≡ meaning accesses t s }
    ensures lists { (accesses : Accesses S) (other : Task → Run S Flow) (scope : List Seg) (depth : ℕ) (ts : Trees)
        (s : State S × ℕ) → depth ≤ 32 → length s.0.frames ≤ depth + 1 →
        in_turn (meaning_but accesses other) scope depth ts s ≡ in_turn (meaning accesses) scope depth ts s }
    ensures calls { (accesses : Accesses S) (other : Task → Run S Flow) (depth : ℕ) (p : List Seg) (body : List ℕ)
        (arguments : List Value) (s : State S × ℕ) → depth ≤ 32 → length s.0.frames ≤ depth + 1 →
        invoked (meaning_but accesses other) depth p body arguments s ≡
        invoked (meaning accesses) depth p body arguments s }
{}
