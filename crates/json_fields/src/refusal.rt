ghost use Rattle.std.proofs.Common.{rules};
ghost use Rattle.std.proofs.lemmas.Grind.{common_steps};
ghost use Rattle.std.specs.Prelude.{◌≡◌, IfOk};
ghost use Rattle.json_fields.specs.declared.refusal.ReadRefusal.TheVariants.{NoMemory as no_memory};

use cl_types::{Copies, NoMemory, Text};
use std::alloc::{AllocError, AllocFailed};
use thiserror::Error;

/// Why a line can't be read. The order is that in which the reasons count: of several the first in this
/// order is told.
#[derive(Clone, Debug, Drop, Error)]
pub enum ReadRefusal {
    /// The bytes are no JSON in UTF-8.
    #[error("the line isn't JSON")]
    NotJson,
    /// A field is missing that must be there, or a value is of another kind than it must be. It has the
    /// path of the field, as in `spec.ingress[0].from`.
    #[error("a value is missing or of another kind")]
    BadShape(Text),
    /// A field with this name isn't supported where it stands.
    #[error("a field isn't supported")]
    Unsupported(Text),
    #[error("a name isn't of its form")]
    BadName,
    #[error("a label isn't of its form")]
    BadLabel,
    #[error("a selector isn't of its form")]
    BadSelector,
    #[error("an address isn't of its form")]
    BadAddr,
    #[error("a block of addresses isn't of its form")]
    BadPrefix,
    #[error("a port isn't of its form")]
    BadPort,
    #[error("a priority isn't in its range")]
    BadPriority,
    #[error("an action isn't one that stands here")]
    BadAction,
    #[error("a control line isn't of its form")]
    BadControl,
    #[error("out of memory")]
    NoMemory,
}

impl Copies for ReadRefusal {
    ghost exact = { λ x y h. Prim.search (rules, common_steps) };
}

impl From<NoMemory> for ReadRefusal {
    ghost from_gives = { λ _ refusal. refusal ≡ no_memory };

    fn from(_e: NoMemory) -> ReadRefusal {
        ReadRefusal::NoMemory
    }
}

impl From<AllocError> for ReadRefusal {
    ghost from_gives = { λ _ refusal. refusal ≡ no_memory };

    fn from(_e: AllocError) -> ReadRefusal {
        ReadRefusal::NoMemory
    }
}

impl<T: Drop> From<AllocFailed<T>> for ReadRefusal {
    ghost from_gives = { λ _ refusal. refusal ≡ no_memory };

    fn from(_e: AllocFailed<T>) -> ReadRefusal {
        ReadRefusal::NoMemory
    }
}
