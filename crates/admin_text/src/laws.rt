//! Laws of the definitions, each the contract of a function that does nothing.

ghost use Rattle.admin_text.specs.Again.{SetupAgainLaw};
ghost use Rattle.admin_text.specs.Commands.{CommandLaws};
ghost use Rattle.admin_text.specs.KeyLaws.{KeyLaws};
ghost use Rattle.admin_text.specs.Setup.{SetupLaw};

use common_types::laws::numerals;
use ilp_addr::laws::{prefixes, targets};

/// What spells a command is read as it, and what is read is spelled; a text spells one command at most.
pub fn commands()
    ensures { CommandLaws }
{
    numerals();
    prefixes();
    targets();
}

/// A setup has a tenant, and 64 at most.
pub fn setups()
    ensures { SetupLaw }
{}

/// A setup that was read may be written, and its text is read as the same setup. Its tenants are 1 to 64 of different
/// names, and their peers have the numbers that they would get anew.
pub fn setups_again()
    ensures { SetupAgainLaw }
{}

/// Only the keys that [`ignored_keys`](crate::ignored_keys) passes over count: tables that agree at these have the
/// same meaning, whatever else they have.
pub fn keys_that_count()
    ensures { KeyLaws }
{}
