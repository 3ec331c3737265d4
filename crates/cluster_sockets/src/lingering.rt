//! How many connections linger behind their responses.
ghost use Rattle.std.specs.Prelude.{◌≡◌, ◌<◌, ◌+◌, pred, true, false};

use std::marker::Model;

/// How many connections stay open behind their responses until their clients close them, at most.
/// Further ones are closed once their response is written.
const MOST_LINGERING: usize = 256;

/// How many connections linger, 256 at most. A contract sees the number.
#[derive(Drop)]
pub(crate) struct Lingering {
    open: usize,
}

impl Model for Lingering {
    ghost use Rattle.std.specs.Prelude.{ℕ, ◌≤◌};

    ghost Value = { ℕ };

    ghost view = { λ lingering. lingering.open };

    ghost invariant = { λ lingering. lingering.open ≤ 256 };
}

impl Lingering {
    /// None lingers.
    pub(crate) fn new() -> Lingering
        ensures { result ≡ 0 }
    {
        Lingering { open: 0 }
    }

    /// Counts one more that lingers. Returns false, and counts nothing, exactly where 256 linger.
    pub(crate) fn begin(&mut self) -> bool
        ensures begun { result ≡ true → (self.old < 256) × (self.new ≡ 1 + self.old) }
        ensures full { result ≡ false → (self.old ≡ 256) × (self.new ≡ 256) }
    {
        if self.open >= MOST_LINGERING {
            return false;
        }
        self.open += 1;
        true
    }

    /// Counts one less.
    pub(crate) fn end(&mut self)
        ensures { self.new ≡ pred self.old }
    {
        self.open = self.open.saturating_sub(1);
    }
}
