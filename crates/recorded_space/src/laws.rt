//! What holds of all that makes accesses: each law is the contract of a function that does nothing.
ghost use Rattle.std.specs.Prelude.{◌≡◌, ◌≢◌, ℕ, List, Some, None, slice_get};
ghost use Rattle.ar_space.specs.Accesses.{Accesses};
ghost use Rattle.space_trace.specs.declared.access.Access.{Access};
ghost use Rattle.recorded_space.specs.declared.exchange.Exchange.{Exchange};
ghost use Rattle.recorded_space.specs.Deciding.{Deciding, outcome, made, Gives, IsRecordOf};
ghost use Rattle.recorded_space.specs.Exchanges.{access_of, IsKept};
ghost use Rattle.recorded_space.specs.Recordings.{Recording, begun, recorded};

/// Where no access is missing from a record, the outcome over the record is that over any register space that gives
/// its answers.
pub fn a_whole_record_stands_for_any_space<S, A>()
    ensures { (accesses : Accesses S) (space : S) (entries : List Exchange) (what : Deciding A) →
        Gives accesses entries space → (outcome recorded what (begun entries)).1.missing ≡ None →
        (outcome recorded what (begun entries)).0 ≡ (outcome accesses what space).0 }
{}

/// The access that is missing from a record is made next over any register space that gives its answers, after as
/// many accesses as entries were used.
pub fn the_missing_access_is_the_next_one<S, A>()
    ensures { (accesses : Accesses S) (space : S) (entries : List Exchange) (what : Deciding A) (access : Access) →
        Gives accesses entries space → (outcome recorded what (begun entries)).1.missing ≡ Some access →
        slice_get (made accesses what space) (outcome recorded what (begun entries)).1.used ≡ Some access }
{}

/// Where a run stops before the end of a record, the entry there is of another access, unless its value does not fit
/// its width.
pub fn the_entry_where_a_run_stops_is_of_another_access<A>()
    ensures { (entries : List Exchange) (what : Deciding A) (access : Access) (entry : Exchange) →
        (outcome recorded what (begun entries)).1.missing ≡ Some access →
        slice_get entries (outcome recorded what (begun entries)).1.used ≡ Some entry → IsKept entry →
        access_of entry ≢ access }
{}

/// A record of the first accesses of a run over a register space, with what that answers, is used to its end, whether
/// an access is missing from it or not.
pub fn a_record_of_a_run_is_used_to_its_end<S, A>()
    ensures { (accesses : Accesses S) (space : S) (entries : List Exchange) (what : Deciding A) →
        Gives accesses entries space → IsRecordOf accesses what space entries →
        slice_get entries (outcome recorded what (begun entries)).1.used ≡ None }
{}

/// Once an access is missing, nothing that is accessed changes the record's state any more: the first one that was
/// missing stands.
pub fn what_is_missing_stands<A>()
    ensures { (now : Recording) (what : Deciding A) (access : Access) → now.missing ≡ Some access →
        (outcome recorded what now).1 ≡ now }
{}
