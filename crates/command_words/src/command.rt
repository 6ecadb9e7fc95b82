ghost use Rattle.std.specs.Prelude.{◌≡◌};
ghost use Rattle.command_words.specs.Words.{no_memory};

use cl_types::{List, NoMemory, Text};

/// What a call is to do.
#[derive(Clone, Debug, Drop)]
pub enum Command {
    /// Write the refused blocks of the lines of these files, and count them.
    Check { files: List<Text> },
    /// Write the block of each line of these files. A stream has `ring` places for messages.
    Replay { ring: u32, files: List<Text> },
}

/// Why words don't give a command.
#[derive(Clone, Copy, Debug)]
pub enum WordsFault {
    BadWords,
    NoMemory,
}

impl From<NoMemory> for WordsFault {
    ghost from_gives = { λ _ fault. fault ≡ no_memory };

    fn from(_fault: NoMemory) -> WordsFault {
        WordsFault::NoMemory
    }
}
