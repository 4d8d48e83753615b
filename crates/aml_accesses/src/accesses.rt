//! Accesses of fields by terms: what is asked for, and what waits for it (ACPI 6.5, 5.5.2.4).
ghost use Rattle.std.specs.Prelude.{◌≡◌, ◌+◌, ◌-◌};
ghost use Rattle.aml_meaning.specs.Meaning.{meaning};
ghost use Rattle.aml_frames.specs.Follow.{read_access};
ghost use Rattle.aml_frames.specs.Uses.{access_run, field_put};
ghost use Rattle.aml_frames.specs.Weights.{most};
ghost use Rattle.aml_frames.specs.Steps.{Steps};

use crate::field_access::begin_access;
use aml_frames::{Access, Accessed, Activation, Boxed, Doing, Frame, Next, Reading};
use aml_meaning::Running;
use aml_objects::{Field, Value};
use ar_space::{Result, Space};

/// How many control methods may be called one inside another.
pub(crate) const MAX_CALLS: usize = 32;

/// A field is read by a term.
#[tactic(auto)]
pub fn begin_read<S: Space>(
    run: &mut Running<S>,
    act: &Activation,
    field: Field,
    reading: Reading,
) -> Result<Next>
    ensures { Steps S.accesses most result act.now run.new
        (access_run S.accesses (meaning S.accesses) (read_access act.now field reading), act.now) run.old }
{
    begin_access(run, act, read_access(act, field, reading))
}

/// A read of a field by a term.
pub fn read_access(act: &Activation, field: Field, reading: Reading) -> Access
    ensures { result ≡ read_access act.now field reading }
{
    Access {
        calls: MAX_CALLS.saturating_sub(act.depth()),
        object: Accessed::Field(field),
        doing: Doing::Read(reading),
    }
}

/// A value is written to a field by a term, which has a value then.
#[tactic(auto, using(aml_frames::proofs::Using::using_targets), unfolding(aml_world::specs::fields::Fields::field_stored))]
pub fn begin_write<S: Space>(
    run: &Running<S>,
    act: &Activation,
    field: Field,
    value: Value,
) -> Result<Next>
    ensures { Steps S.accesses (most + 4) result act.now run.now
        (field_put S.accesses (meaning S.accesses) field value act.now, act.now) run.now }
{
    let bytes = run.world.bytes_in(value)?;
    let access = Access {
        calls: MAX_CALLS.saturating_sub(act.depth()),
        object: Accessed::Field(field),
        doing: Doing::Write(bytes),
    };
    Ok(Next::AccessThen(Boxed::new(run.world.alloc, access)?, Frame::Give(value)))
}
