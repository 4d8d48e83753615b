//! The calls of a machine that change it (ACPI 6.5, 5.5).
ghost use Rattle.std.specs.Prelude.{◌≡◌, [], ◌∷◌, Ok, Err, IfErr, map, true};
ghost use Rattle.std.specs.FinMap.{contains_key};
ghost use Rattle.ar_space.specs.declared.refusal.Refusal.TheVariants.{OutOfMemory};
ghost use Rattle.ar_space.specs.declared.refusal.Refusal.TheVariants as refusals;
ghost use Rattle.ar_space.specs.declared.refusal.MachineFault.TheVariants.{Spent};
ghost use Rattle.ar_space.specs.Outcome.{Answers, seen};
ghost use Rattle.ar_space.specs.Change.{Does, DoesInPlace};
ghost use Rattle.aml_world.specs.state.Given.{given_of};
ghost use Rattle.aml_world.specs.declared.state.datum.Datum.TheVariants as datum;
ghost use Rattle.acpi_machine.specs.FixedPaths.{at_root, below_root};
ghost use Rattle.acpi_machine.specs.Noticing.{noticed, ran_out};
ghost use Rattle.acpi_machine.specs.Stops.{Made};
ghost use Rattle.acpi_machine.specs.Calls.{object_answered, evaluated_object, object_called, called_where_it_stands};
ghost use Rattle.acpi_machine.specs.Calls.{refused_call, call_passing, initial_calls, started};
ghost use Rattle.acpi_machine.specs.Calls.{initialized, texts_kept, few_texts_kept, osi_set};

use crate::loading::few_texts;
use crate::machine::Machine;
use crate::mode::mode_number;
use aml_interp::answer;
use aml_objects::Octets;
use aml_path::{Path, Seg};
use aml_world::Datum;
use ar_space::{MachineFault, Refusal, Result, Space};
use ar_tables::Mode;
use std::alloc::Global;

pub(crate) const SPENT: Refusal = Refusal::Machine(MachineFault::Spent);

impl<S: Space> Machine<S> {
    /// Tells the firmware the mode, and initializes it: calls `\_INI`, `\_SB_._INI` (ACPI 6.5, 6.5.1), and `\_PIC`
    /// (5.8.1) with 0 for `Pic` or 1 for `Apic`, each where its name stands, each within the machine's steps. What
    /// they answer is dropped; the first that is refused ends it. In the wide profile such a refusal as loading goes on
    /// behind is passed over, and the next call follows. The mode is kept, however that ends, unless memory runs out.
    ///
    /// `Spent` where an earlier call ran out of memory; then nothing changes.
    ///
    /// ```
    /// machine.initialize(alloc, Mode::Apic)?;
    /// ```
    #[tactic(auto, using(crate::proofs::Noticed::spending), unfolding(crate::specs::Calls::initialized))]
    pub fn initialize(&mut self, alloc: Global, mode: Mode) -> Result<()>
        ensures answer { Does result self.new (initialized S.accesses mode) self.old }
        ensures memory { IfErr result (λ refusal. refusal ≡ OutOfMemory → self.new.spent ≡ true) }
        ensures spent { self.old.spent ≡ true → (result ≡ Err (refusals.Machine Spent)) × (self.new ≡ self.old) }
    {
        if self.spent {
            return Err(SPENT);
        }
        self.initialize_noticed(alloc, mode)
    }

    /// What the object at a path answers within the machine's steps (ACPI 6.5, 5.5.2).
    ///
    /// A path where nothing stands is refused as `NotFound`, another count of arguments as `ArityChanged`; an object
    /// that isn't a method is read, and takes no arguments. `Spent` where an earlier call ran out of memory; then
    /// nothing changes.
    ///
    /// ```
    /// let path = Path::from_text(alloc, b"\\_SB_.LNKA._STA")?;
    /// if let Datum::Integer(status) = machine.evaluate_object(alloc, &path, Vec::new(alloc))? {
    ///     println!(rt; "{status:X}")?;
    /// }
    /// ```
    #[tactic(auto, using(crate::proofs::Noticed::spending), unfolding(crate::specs::Calls::evaluated_object))]
    pub fn evaluate_object(
        &mut self,
        alloc: Global,
        path: &Path,
        arguments: Vec<Datum>,
    ) -> Result<Datum>
        ensures answer { Does (seen given_of result) self.new (evaluated_object S.accesses path.now
            (map given_of arguments.items)) self.old }
        ensures memory { IfErr result (λ refusal. refusal ≡ OutOfMemory → self.new.spent ≡ true) }
        ensures evaluated { Made (evaluated_object S.accesses path.now
            (map given_of arguments.items)) self.old self.new }
        ensures spent { self.old.spent ≡ true → (result ≡ Err (refusals.Machine Spent)) × (self.new ≡ self.old) }
    {
        if self.spent {
            return Err(SPENT);
        }
        self.answer_noticed(alloc, path, arguments)
    }

    /// Other texts that `_OSI` knows, in place of those before (ACPI 6.5, 5.7.2). More than 64 are refused as
    /// `ObjectLimit`. `Spent` where an earlier call ran out of memory. Where it is refused nothing changes. It takes
    /// no memory.
    #[tactic(auto, using(crate::proofs::Noticed::spending), unfolding(crate::specs::Calls::osi_set))]
    pub fn set_osi(&mut self, texts: Vec<Octets>) -> Result<()>
        ensures { DoesInPlace result self.new (osi_set texts.items) self.old }
    {
        if self.spent {
            return Err(SPENT);
        }
        self.set_texts_if_few(texts)
    }

    #[tactic(auto, using(ar_space::proofs::Changes::changing), unfolding(crate::specs::Calls::few_texts_kept))]
    fn set_texts_if_few(&mut self, texts: Vec<Octets>) -> Result<()>
        ensures { DoesInPlace result self.new (few_texts_kept texts.items) self.old }
    {
        few_texts(&texts)?;
        self.set_texts(texts)
    }

    #[tactic(auto, unfolding(crate::specs::Calls::texts_kept))]
    fn set_texts(&mut self, texts: Vec<Octets>) -> Result<()>
        ensures { DoesInPlace result self.new (texts_kept texts.items) self.old }
    {
        self.world.set_osi(texts);
        Ok(())
    }

    #[tactic(auto, using(crate::proofs::Noticed::noticing))]
    fn initialize_noticed(&mut self, alloc: Global, mode: Mode) -> Result<()>
        ensures answer { Does result self.new (started S.accesses mode) self.old }
        ensures memory { IfErr result (λ refusal. refusal ≡ OutOfMemory → self.new.spent ≡ true) }
    {
        let outcome = self.set_mode_and_call(alloc, mode);
        self.notice(&outcome);
        outcome
    }

    #[tactic(auto, using(crate::proofs::Noticed::noticing))]
    fn answer_noticed(&mut self, alloc: Global, path: &Path, arguments: Vec<Datum>) -> Result<Datum>
        ensures answer { Does (seen given_of result) self.new (object_answered S.accesses path.now
            (map given_of arguments.items)) self.old }
        ensures memory { IfErr result (λ refusal. refusal ≡ OutOfMemory → self.new.spent ≡ true) }
    {
        let outcome = self.answer(alloc, path, arguments);
        self.notice(&outcome);
        outcome
    }

    /// The machine is spent from now on where a call ran out of memory.
    pub(crate) fn notice<A>(&mut self, outcome: &Result<A>)
        ensures { self.new ≡ noticed outcome.now self.old }
    {
        if ran_out(outcome) {
            self.spent = true;
        }
    }

    #[tactic(auto, unfolding(crate::specs::Calls::started))]
    fn set_mode_and_call(&mut self, alloc: Global, mode: Mode) -> Result<()>
        ensures { Does result self.new (started S.accesses mode) self.old }
    {
        self.mode = mode;
        self.call_methods(alloc, mode)
    }

    #[tactic(auto, using(ar_space::proofs::Changes::changing), unfolding(crate::specs::Calls::initial_calls))]
    fn call_methods(&mut self, alloc: Global, mode: Mode) -> Result<()>
        ensures { Does result self.new (initial_calls S.accesses mode) self.old }
    {
        let root_ini = at_root(alloc, *b"_INI")?;
        self.call_where_it_stands(alloc, &root_ini, Vec::new(alloc))?;
        let bus_ini = below_root(alloc, *b"_SB_", *b"_INI")?;
        self.call_where_it_stands(alloc, &bus_ini, Vec::new(alloc))?;
        let pic = at_root(alloc, *b"_PIC")?;
        self.call_where_it_stands(alloc, &pic, one_integer(alloc, mode_number(mode))?)
    }

    /// Calls what stands at a path itself, if anything does.
    #[tactic(auto, unfolding(crate::specs::Calls::called_where_it_stands))]
    fn call_where_it_stands(
        &mut self,
        alloc: Global,
        path: &Path,
        arguments: Vec<Datum>,
    ) -> Result<()>
        ensures { Does result self.new (called_where_it_stands S.accesses path.now
            (map given_of arguments.items)) self.old }
    {
        if self.stands(path) {
            self.call_passing(alloc, path, arguments)
        } else {
            Ok(())
        }
    }

    /// Calls what stands at a path. A refusal may be passed over in the wide profile.
    #[tactic(auto, using(crate::proofs::Passing::passing))]
    fn call_passing(&mut self, alloc: Global, path: &Path, arguments: Vec<Datum>) -> Result<()>
        ensures { Does result self.new (call_passing path.now (object_called S.accesses path.now
            (map given_of arguments.items))) self.old }
    {
        match self.call(alloc, path, arguments) {
            Ok(()) => Ok(()),
            Err(refusal) => self.pass_call_over(path, refusal),
        }
    }

    /// Passes over the refusal of a call at a path, as initializing does in the wide profile: it is noted. In the core
    /// profile, and where it isn't such a refusal as loading goes on behind, it is handed back, and nothing changes.
    #[tactic(auto, using(crate::proofs::Passing::passing))]
    pub fn pass_call_over(&mut self, path: &Path, refusal: Refusal) -> Result<()>
        ensures { Does result self.new (refused_call path.now refusal) self.old }
    {
        if self.world.running.world.profile().is_wide() {
            self.world.running.world.pass_over(path, refusal)
        } else {
            Err(refusal)
        }
    }

    #[tactic(auto, using(ar_space::proofs::Changes::changing), unfolding(crate::specs::Calls::object_called))]
    fn call(&mut self, alloc: Global, path: &Path, arguments: Vec<Datum>) -> Result<()>
        ensures { Does result self.new (object_called S.accesses path.now (map given_of arguments.items)) self.old }
    {
        self.answer(alloc, path, arguments)?;
        Ok(())
    }

    /// Whether a name stands at a path.
    fn stands(&self, path: &Path) -> bool
        ensures { result ≡ contains_key self.now.world.names.map path.now }
    {
        self.world.names().get(path).is_some()
    }

    #[tactic(auto, using(crate::proofs::Noticed::worlds))]
    fn answer(&mut self, alloc: Global, path: &Path, arguments: Vec<Datum>) -> Result<Datum>
        ensures { Does (seen given_of result) self.new (object_answered S.accesses path.now
            (map given_of arguments.items)) self.old }
    {
        answer(alloc, &mut self.world, path, arguments, self.steps)
    }
}

fn ran_out<A>(outcome: &Result<A>) -> bool
    ensures { result ≡ ran_out outcome.now }
{
    matches!(outcome, Err(Refusal::OutOfMemory))
}

#[tactic(auto, using(ar_space::proofs::Outcomes::answering), unfolding(crate::specs::FixedPaths::at_root))]
fn at_root(alloc: Global, name: [u8; 4]) -> Result<Path>
    ensures { Answers result (at_root name) }
{
    let segment = Seg::new(name)?;
    path_of_one(alloc, segment)
}

#[tactic(auto, using(ar_space::proofs::Outcomes::answering), unfolding(crate::specs::FixedPaths::below_root))]
fn below_root(alloc: Global, parent: [u8; 4], name: [u8; 4]) -> Result<Path>
    ensures { Answers result (below_root parent name) }
{
    let above = Seg::new(parent)?;
    let segment = Seg::new(name)?;
    path_of_two(alloc, above, segment)
}

fn path_of_one(alloc: Global, segment: Seg) -> Result<Path>
    ensures { Answers result (Ok (segment ∷ [])) }
{
    Path::root(alloc).child(alloc, segment)
}

fn path_of_two(alloc: Global, above: Seg, segment: Seg) -> Result<Path>
    ensures { Answers result (Ok (above ∷ segment ∷ [])) }
{
    Ok(Path::from_vec(Vec::from_slice(alloc, &[above, segment])?))
}

fn one_integer(alloc: Global, number: u64) -> Result<Vec<Datum>>
    ensures { Answers (seen (λ list. list.items) result) (Ok (datum.Integer number ∷ [])) }
{
    let mut list = Vec::new(alloc);
    list.push(Datum::Integer(number))?;
    Ok(list)
}
