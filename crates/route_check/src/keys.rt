//! What is told apart by a path, and what by a number.
use aml_path::Path;
use route_model::Link;

/// What is told apart by its path.
pub(crate) trait Named {
    ghost use Rattle.std.specs.Prelude.{◌≡◌, List};
    ghost use Rattle.aml_path.specs.declared.segment.Seg.{Seg};

    ghost path: { Self → List Seg };

    /// The path.
    fn name(&self) -> &Path
        ensures { result.now ≡ path self.now };
}

impl Named for Path {
    ghost path = { λ p. p };

    fn name(&self) -> &Path {
        self
    }
}

impl Named for Link {
    ghost path = { λ l. l.path };

    fn name(&self) -> &Path {
        self.path()
    }
}

impl Named for (Path, u32) {
    ghost path = { λ g. g.0 };

    fn name(&self) -> &Path {
        &self.0
    }
}

/// What is told apart by its number.
pub(crate) trait Numbered {
    ghost use Rattle.std.specs.Prelude.{◌≡◌, ℕ};

    ghost number: { Self → ℕ };

    /// The number.
    fn number(&self) -> u32
        ensures { result ≡ number self.now };
}

impl Numbered for u32 {
    ghost number = { λ n. n };

    fn number(&self) -> u32 {
        *self
    }
}

impl Numbered for (u32, u32) {
    ghost number = { λ w. w.0 };

    fn number(&self) -> u32 {
        self.0
    }
}
