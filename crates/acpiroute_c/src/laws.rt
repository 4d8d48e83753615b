//! What holds of all accesses: each law is the contract of a function that does nothing.
ghost use Rattle.std.specs.Prelude.{◌≡◌, ◌<◌, ◌^◌, ℕ, Some, Ok, Err};
ghost use Rattle.ar_space.specs.declared.refusal.SpaceFault.TheVariants.{NoRegister, Device};
ghost use Rattle.ar_space.specs.Accesses.{bit_count};
ghost use Rattle.ar_space.specs.declared.space.Place.{Place};
ghost use Rattle.ar_space.specs.declared.space.Width.{Width};
ghost use Rattle.space_trace.specs.declared.access.Access.TheVariants as access;
ghost use Rattle.recorded_space.specs.declared.exchange.Exchange.TheVariants as exchange;
ghost use Rattle.acpiroute_c.specs.Accesses.{exchange_of, access_form, IsPlace};

/// A read that is wanted, with a value of its width that was read, is an entry that holds this read; so is one that a
/// device refused.
#[tactic(auto, using(crate::proofs::Forms::read_back))]
pub fn a_wanted_read_that_is_answered_is_its_entry()
    ensures done { (place : Place) (width : Width) (value : ℕ) → IsPlace place → value < 2 ^ bit_count width →
        exchange_of (record (access_form (access.Read place width)) { value = value }) ≡
        Some (exchange.Read place width (Ok value)) }
    ensures no_register { (place : Place) (width : Width) → IsPlace place →
        exchange_of (record (access_form (access.Read place width)) { answer = 1 }) ≡
        Some (exchange.Read place width (Err NoRegister)) }
    ensures failed { (place : Place) (width : Width) → IsPlace place →
        exchange_of (record (access_form (access.Read place width)) { answer = 2 }) ≡
        Some (exchange.Read place width (Err Device)) }
{}

/// A write that is wanted is the entry of a write that was done as it is, and with an answer the entry of one that
/// was refused.
#[tactic(auto, using(crate::proofs::Forms::written_back))]
pub fn a_wanted_write_that_is_answered_is_its_entry()
    ensures done { (place : Place) (width : Width) (value : ℕ) → IsPlace place →
        exchange_of (access_form (access.Write place width value)) ≡ Some (exchange.Write place width value (Ok tt)) }
    ensures no_register { (place : Place) (width : Width) (value : ℕ) → IsPlace place →
        exchange_of (record (access_form (access.Write place width value)) { answer = 1 }) ≡
        Some (exchange.Write place width value (Err NoRegister)) }
    ensures failed { (place : Place) (width : Width) (value : ℕ) → IsPlace place →
        exchange_of (record (access_form (access.Write place width value)) { answer = 2 }) ≡
        Some (exchange.Write place width value (Err Device)) }
{}
