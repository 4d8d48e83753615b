//! What holds of all runs over a record of accesses, and of what the program tells of its streams: each law is the
//! contract of a function that does nothing.
#![tactic(auto)]

pub mod answers;
pub mod bounds;
pub mod names;
pub mod profiles;
pub mod watched;

ghost use Rattle.std.specs.Prelude.{◌≡◌, ◌≢◌, ◌++◌, ℕ, List, [], None, Some, Err, slice_get};
ghost use Rattle.ar_space.specs.declared.refusal.SpaceFault.{SpaceFault};
ghost use Rattle.ar_space.specs.declared.refusal.Refusal.{Refusal};
ghost use Rattle.ar_space.specs.declared.refusal.Refusal.TheVariants.{Space};
ghost use Rattle.ar_space.specs.Accesses.{Accesses};
ghost use Rattle.ar_space.specs.Outcome.{Outcome};
ghost use Rattle.space_trace.specs.declared.access.Access.{Access};
ghost use Rattle.recorded_space.specs.declared.exchange.Exchange.{Exchange};
ghost use Rattle.recorded_space.specs.Deciding.{Gives};
ghost use Rattle.recorded_space.specs.Recordings.{Recording, begun, recorded};
ghost use Rattle.route_report.specs.Reports.{RoutingReport};
ghost use Rattle.recorded_route.specs.declared.settings.Settings.{Settings};
ghost use Rattle.recorded_route.specs.Runs.{Description, described, IsDescribedRun, IsRun};
ghost use Rattle.aml_laws.specs.Noted.{WithNotes, noted};
ghost use Rattle.recorded_laws.specs.Grown.{left_by};
ghost use Rattle.recorded_laws.specs.Listed.{listed};
ghost use Rattle.recorded_laws.specs.RunNotes.{RunTells};

use acpi_configure::laws::a_problem_has_one_answer;

/// Where no access is missing from a record, the run over the record is one over any register space that gives its
/// answers: it comes out with the same report or refusal. So it is of whatever describes the machine: a text, or its
/// tables in memory.
pub fn a_run_over_a_whole_record_is_one_over_any_space<S>()
    ensures { (accesses : Accesses S) (space : S) (settings : Settings) (avoid : List ℕ)
        (description : Outcome Description) (entries : List Exchange) (outcome : Outcome RoutingReport)
        (after : Recording) → Gives accesses entries space
        → IsDescribedRun recorded settings avoid description (begun entries) outcome after → after.missing ≡ None →
        (left : S) × IsDescribedRun accesses settings avoid description space outcome left }
{}

/// A run over a register space comes out in one way, and leaves one space.
pub fn a_run_comes_out_in_one_way<S>()
    ensures { (accesses : Accesses S) (space : S) (settings : Settings) (avoid : List ℕ)
        (description : Outcome Description) (one other : Outcome RoutingReport) (left left2 : S) →
        IsDescribedRun accesses settings avoid description space one left
        → IsDescribedRun accesses settings avoid description space other left2 → (one ≡ other) × (left ≡ left2) }
{
    a_problem_has_one_answer();
}

/// The access that is missing from a record is made by each run over any register space that gives the record's
/// answers, as the next one after as many accesses as entries were used.
pub fn the_wanted_access_is_the_next_one<S>()
    ensures { (accesses : Accesses S) (space : S) (settings : Settings) (avoid : List ℕ)
        (description : Outcome Description) (entries : List Exchange) (outcome : Outcome RoutingReport)
        (after : Recording) (access : Access) → Gives accesses entries space
        → IsDescribedRun recorded settings avoid description (begun entries) outcome after → after.missing ≡ Some access
        → (outcome2 : Outcome RoutingReport) (left : S × List Access) →
        IsDescribedRun (listed accesses) settings avoid description (space, []) outcome2 left →
        slice_get left.1 after.used ≡ Some access }
{
    a_problem_has_one_answer();
}

/// Where a register space gives the answers of a record, and then answers further accesses so, it gives the answers
/// of the longer record: what a caller appends access by access stays a record of its registers.
pub fn a_record_grows_with_the_answers_of_a_space<S>()
    ensures { (accesses : Accesses S) (space : S) (entries more : List Exchange) → Gives accesses entries space →
        Gives accesses more (left_by accesses entries space) → Gives accesses (entries ++ more) space }
{}

/// Noting the accesses of a register space, each with its answer, changes no run: it comes out in the same way, and
/// leaves the same space.
pub fn noting_changes_no_run<S>()
    ensures { (accesses : Accesses S) (settings : Settings) (avoid text : List ℕ) (before : WithNotes S)
        (outcome : Outcome RoutingReport) (left : S) → IsRun accesses settings avoid text before.0 outcome left
        → (after : WithNotes S) × (left ≡ after.0) × IsRun (noted accesses) settings avoid text before outcome after }
{}

/// Where a run over a register space is refused by a fault of that space, the last of its own accesses is answered
/// with that fault, and all those before it with values. With any other refusal all are answered with values, and
/// with a report all but those that its lines tell of: `ReportedRunTells` has the run by its steps, from the text up
/// to the report, and of each what its accesses are.
pub fn a_run_tells_of_its_accesses<S>()
    ensures { (accesses : Accesses S) (settings : Settings) (avoid text : List ℕ) (before : WithNotes S)
        (outcome : Outcome RoutingReport) (after : WithNotes S) →
        IsRun (noted accesses) settings avoid text before outcome after
        → RunTells accesses settings avoid text outcome before after }
{}

/// A text that describes no tables is refused before any access: the run leaves the space as it was. What such a text
/// is refused by is no fault of a register space.
pub fn a_text_without_tables_is_refused_before_any_access<S>()
    ensures run { (accesses : Accesses S) (settings : Settings) (avoid text : List ℕ) (before : S)
        (outcome : Outcome RoutingReport) (after : S) (e : Refusal) → described text ≡ Err e →
        IsRun accesses settings avoid text before outcome after
        → (outcome ≡ Err e) × (before ≡ after) }
    ensures fault { (text : List ℕ) (fault : SpaceFault) → described text ≢ Err (Space fault) }
{}
