//! The reasons for which words are no command.

use servient_base::NoMemory;
use thiserror::Error;

/// The reason for which `Command::read` gives no command.
#[derive(Debug, Drop, Error)]
pub enum WordsFault {
    /// The words are no command line of the grammar.
    #[error("these words are no command")]
    Usage,
    #[error("out of memory")]
    NoMemory,
}

impl From<NoMemory> for WordsFault {
    ghost use Rattle.std.specs.Prelude.{◌≡◌};
    ghost use Rattle.command_words.specs.declared.fault.WordsFault.TheVariants.{NoMemory as out_of_memory};

    ghost from_gives = { λ _ fault. fault ≡ out_of_memory };

    fn from(_: NoMemory) -> Self {
        WordsFault::NoMemory
    }
}
