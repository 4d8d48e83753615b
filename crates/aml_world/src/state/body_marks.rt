//! The marks of the bodies of control methods (ACPI 6.5, 5.5.2 and 20.2.5).
ghost use Rattle.std.specs.Prelude.{◌≡◌, Ok, IfSome, true, IsOkUnless};
ghost use Rattle.ar_space.specs.declared.refusal.Refusal.TheVariants.{OutOfMemory};
ghost use Rattle.ar_space.specs.Change.{Does};
ghost use Rattle.ar_space.specs.Outcome.{Answers, seen};
ghost use Rattle.aml_grammar.specs.Grammar.{reading_within};
ghost use Rattle.aml_grammar.specs.Shape.{trees_of};
ghost use Rattle.aml_marks.specs.Marked.{trees_by};
ghost use Rattle.aml_world.specs.state.Invocations.{body_terms};
ghost use Rattle.aml_world.specs.state.Known.{known_arities};

use crate::state::known_names::{Declarations, ScannedBody};
use crate::state::world_state::WorldState;
use aml_marks::{Marks, scan_list_within};
use aml_objects::Body;
use aml_path::Path;
use ar_space::Result;
use std::alloc::Global;

impl<S> WorldState<S> {
    /// The marks of the body of the control method at a path, with the arguments that names take now; refused as
    /// `scan_list_within` refuses it, within the levels that this world allows. A body that was read before is not
    /// scanned again, unless a name came or went, or a control method or an alias was replaced.
    ///
    /// They are good for the whole call: names that it declares or removes don't change how its body reads.
    pub fn body_marks(&mut self, path: &Path, body: &Body) -> Result<Marks>
        ensures marks { Does (seen (λ m. trees_of (trees_by m body.now)) result) self.new
            (body_terms path.now body.now) self.old }
        ensures unchanged { self.new ≡ self.old }
    {
        self.declarations
            .body_marks(self.alloc, self.nesting.levels, path, body)
    }
}

impl Declarations {
    /// The marks of a body, kept or scanned now within so many levels; it is refused as `scan_list_within` refuses it.
    pub(crate) fn body_marks(
        &mut self,
        alloc: Global,
        levels: usize,
        path: &Path,
        body: &Body,
    ) -> Result<Marks>
        ensures marks { Answers (seen (λ m. trees_by m body.now) result)
            (reading_within levels body.now path.now true (known_arities self.old)) }
        ensures unchanged { self.new ≡ self.old }
    {
        if let Some(marks) = self.kept_marks(levels, path, body) {
            return marks.share();
        }
        let marks = scan_list_within(alloc, levels, body.as_slice(), path, true, self)?;
        self.keep(alloc, levels, path, body, &marks)?;
        Ok(marks)
    }

    /// The marks that are kept, where they are those of this body of the control method at this path, within so many
    /// levels.
    fn kept_marks(&self, levels: usize, path: &Path, body: &Body) -> Option<&Marks>
        ensures { IfSome result (λ m. reading_within levels body.now path.now true (known_arities self.now) ≡
            Ok (trees_by m.now body.now)) }
    {
        match self.kept.get(path) {
            None => None,
            Some(kept) => {
                if kept.is_within(levels, body) {
                    Some(&kept.marks)
                } else {
                    None
                }
            }
        }
    }

    /// Keeps the marks of a body that was scanned now within so many levels, in place of others of the same control
    /// method. Where there is no memory for it, what is kept stays.
    fn keep(
        &mut self,
        alloc: Global,
        levels: usize,
        path: &Path,
        body: &Body,
        marks: &Marks,
    ) -> Result<()>
        requires { reading_within levels body.now path.now true (known_arities self.old) ≡ Ok (trees_by marks.now body.now) }
        ensures unchanged { self.new ≡ self.old }
        ensures memory { IsOkUnless result OutOfMemory }
    {
        let scanned = ScannedBody::shared(levels, body, marks)?;
        let path = path.copy(alloc)?;
        drop(self.kept.insert(path, scanned)?);
        Ok(())
    }
}

impl ScannedBody {
    /// What is kept of a scan: shares of the body and of its marks. It is refused as `OutOfMemory` where no more shares
    /// can be counted.
    fn shared(levels: usize, body: &Body, marks: &Marks) -> Result<ScannedBody>
        ensures { Answers result (Ok (record { body = body.now; levels = levels; marks = marks.now })) }
    {
        Ok(ScannedBody {
            body: body.share()?,
            levels,
            marks: marks.share()?,
        })
    }

    /// Whether this is the body of a control method, scanned within so many levels. The bytes are compared, since
    /// another table may have told of a method at the same path before.
    fn is_within(&self, levels: usize, body: &Body) -> bool
        ensures levels { result ≡ true → self.now.levels ≡ levels }
        ensures body { result ≡ true → self.now.body ≡ body.now }
    {
        self.levels == levels && self.body.as_slice() == body.as_slice()
    }
}
