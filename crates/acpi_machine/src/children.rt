//! What stands one level below a path, and what it answers.
ghost use Rattle.std.specs.Prelude.{◌≡◌, Ok, IfErr, map, option_map};
ghost use Rattle.ar_space.specs.declared.refusal.Refusal.TheVariants.{OutOfMemory};
ghost use Rattle.ar_space.specs.Outcome.{Answers, seen};
ghost use Rattle.ar_space.specs.Change.{Does};
ghost use Rattle.aml_world.specs.state.Given.{given_of};
ghost use Rattle.acpi_machine.specs.Stops.{AllOrNone};
ghost use Rattle.acpi_machine.specs.Children.{stands, has_child, some_answer, answer_if_any, child_evaluated};

use crate::machine::Machine;
use aml_path::{Path, Seg};
use aml_world::Datum;
use ar_space::{Result, Space};
use std::alloc::Global;

impl<S: Space> Machine<S> {
    /// Whether a name stands one level below a path. Refused only as `OutOfMemory`.
    pub fn has_child(&self, alloc: Global, parent: &Path, name: Seg) -> Result<bool>
        ensures value { Answers result (Ok (has_child parent.now name self.now)) }
        ensures memory { IfErr result (λ refusal. refusal ≡ OutOfMemory) }
    {
        let path = parent.child(alloc, name)?;
        Ok(self.has_name(&path))
    }

    /// Evaluates the object named `name` one level below `parent` (ACPI 6.5, 5.5.2), as `evaluate_object` does, with its
    /// refusals. None where no such name stands; then nothing changes.
    ///
    /// ```
    /// let sta = Seg::new(*b"_STA")?;
    /// if let Some(Datum::Integer(status)) = machine.evaluate_child(alloc, &device, sta, Vec::new(alloc))? {
    ///     println!(rt; "{status:X}")?;
    /// }
    /// ```
    #[tactic(auto, using(crate::proofs::BelowPaths::below, crate::proofs::Stopping::making))]
    pub fn evaluate_child(
        &mut self,
        alloc: Global,
        parent: &Path,
        name: Seg,
        arguments: Vec<Datum>,
    ) -> Result<Option<Datum>>
        ensures answer { Does (seen (option_map given_of) result) self.new (child_evaluated S.accesses parent.now name
            (map given_of arguments.items)) self.old }
        ensures evaluated { AllOrNone (child_evaluated S.accesses parent.now name
            (map given_of arguments.items)) self.old self.new }
    {
        let path = parent.child(alloc, name)?;
        self.answer_if_any(alloc, &path, arguments)
    }

    /// What the object at a path answers, if a name stands there.
    #[tactic(auto, using(crate::proofs::Stopping::making), unfolding(crate::specs::Children::answer_if_any))]
    fn answer_if_any(
        &mut self,
        alloc: Global,
        path: &Path,
        arguments: Vec<Datum>,
    ) -> Result<Option<Datum>>
        ensures answer { Does (seen (option_map given_of) result) self.new (answer_if_any S.accesses path.now
            (map given_of arguments.items)) self.old }
        ensures evaluated { AllOrNone (answer_if_any S.accesses path.now
            (map given_of arguments.items)) self.old self.new }
    {
        if self.has_name(path) {
            self.some_answer(alloc, path, arguments)
        } else {
            Ok(None)
        }
    }

    /// What the object at a path answers, which has to stand.
    #[tactic(auto, using(crate::proofs::Stopping::evaluating), unfolding(crate::specs::Children::some_answer))]
    fn some_answer(
        &mut self,
        alloc: Global,
        path: &Path,
        arguments: Vec<Datum>,
    ) -> Result<Option<Datum>>
        ensures answer { Does (seen (option_map given_of) result) self.new (some_answer S.accesses path.now
            (map given_of arguments.items)) self.old }
        ensures evaluated { AllOrNone (some_answer S.accesses path.now
            (map given_of arguments.items)) self.old self.new }
    {
        let answer = self.evaluate_object(alloc, path, arguments)?;
        Ok(Some(answer))
    }

    /// Whether a name stands at a path.
    pub fn has_name(&self, path: &Path) -> bool
        ensures { result ≡ stands path.now self.now }
    {
        self.find_node(path).is_some()
    }
}
