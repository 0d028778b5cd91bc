//! The opening that the next statement of a chain must have.

ghost use Rattle.std.specs.Prelude.{◌≡◌, option_copied};
ghost use Rattle.statements.specs.Due.{opening_due};

use tenant_core::Opening;

/// The opening that the next period of a chain must have.
#[derive(Drop)]
pub enum Due {
    /// It is the first one, and no setup was named.
    Anything,
    /// What the one before it ended with.
    Ending(Opening),
    /// What the first period by a setup opens with, but for tokens and targets.
    Setup(Opening),
}

impl Due {
    /// The opening that is due, if one is.
    pub fn opening(&self) -> Option<&Opening>
        ensures { option_copied result ≡ opening_due self.now }
    {
        match self {
            Due::Anything => None,
            Due::Ending(opening) | Due::Setup(opening) => Some(opening),
        }
    }
}
