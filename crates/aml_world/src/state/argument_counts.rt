//! How many arguments names take in the bodies of control methods (ACPI 6.5, 5.5.2 and 20.2.5).
ghost use Rattle.std.specs.Prelude.{◌≡◌};
ghost use Rattle.std.specs.Prelude as list;
ghost use Rattle.std.specs.FinMap.{get};
ghost use Rattle.aml_world.specs.state.Invocations.{count_of_entry, count_through};
ghost use Rattle.aml_world.specs.state.Known.{known_arities};

use crate::state::known_names::Declarations;
use crate::state::readings::arguments_of;
use aml_arities::{ArgumentCounts, deeper};
use aml_namespace::Names;
use aml_objects::{Entry, NamedObject, NodeId};
use aml_path::{Path, Seg};

/// In the body of a control method: how many arguments the names take that stand, and those of which an External
/// told. Each is looked up where it stands, so that a scan copies none.
impl ArgumentCounts for Declarations {
    ghost counts = { known_arities };

    #[tactic(auto, using(crate::proofs::BodyCounts::counting))]
    fn latest(&self, path: &Path, external: bool) -> Option<u8> {
        if external {
            self.arities.latest(path, true)
        } else {
            count_at(&self.names, path)
        }
    }

    fn deepest(&self, scope: &Path, segments: &[Seg]) -> Option<usize> {
        let named = depth_of(self.names.nearest(scope, segments));
        let told = self.arities.deepest_external(scope, segments);
        deeper(named, told)
    }
}

/// How many segments of a scope lead to what was found.
fn depth_of(near: Option<(usize, NodeId)>) -> Option<usize>
    ensures { result ≡ list.option_map (λ n. n.0) near }
{
    match near {
        None => None,
        Some((depth, _)) => Some(depth),
    }
}

/// How many arguments what stands at a path takes, if something stands there.
fn count_at(names: &Names, path: &Path) -> Option<u8>
    ensures { result ≡ list.option_map (λ e. count_through names.now.map e.object) (get names.now.map path.now) }
{
    match names.get(path) {
        None => None,
        Some(entry) => Some(count_through(names, &entry.object)),
    }
}

/// How many arguments an object takes; an alias takes those of its target.
fn count_through(names: &Names, object: &NamedObject) -> u8
    ensures { result ≡ count_through names.now.map object.now }
{
    match object {
        NamedObject::Alias(path) => count_of_entry(names.get(path)),
        NamedObject::Method(method) => method.flags.arguments(),
        _ => 0,
    }
}

fn count_of_entry(entry: Option<&Entry>) -> u8
    ensures { result ≡ count_of_entry (list.option_map (λ e. e.now) entry.entry) }
{
    match entry {
        None => 0,
        Some(entry) => arguments_of(&entry.object),
    }
}
