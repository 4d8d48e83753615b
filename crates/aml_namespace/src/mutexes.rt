//! Mutexes: whether one is acquired, and its release (ACPI 6.5, 19.6).
ghost use Rattle.std.specs.Prelude.{◌≡◌};
ghost use Rattle.aml_namespace.specs.Namespace.{released};
ghost use Rattle.aml_namespace.specs.Mutexes.{acquired};

use aml_objects::NamedObject;

/// 1 for a mutex that is acquired, and 0 for anything else.
pub(crate) fn acquired(object: &NamedObject) -> usize
    ensures { result ≡ acquired object.now }
{
    match object {
        NamedObject::Mutex(0) => 0,
        NamedObject::Mutex(_) => 1,
        _ => 0,
    }
}

/// Releases what is a mutex.
pub(crate) fn release(object: &mut NamedObject)
    ensures { object.new ≡ released object.old }
{
    if let NamedObject::Mutex(count) = object {
        *count = 0;
    }
}
