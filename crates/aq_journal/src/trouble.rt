//! Why a journal was not read or written.
ghost use Rattle.std.specs.Prelude.{◌≡◌};
ghost use Rattle.aq_journal.specs.Opening.{answered, refusals_after};

use aq_base::{Failed, Memory};
use aq_keeper::KeeperFault;

/// Why a journal was not read or written.
#[derive(Clone, Copy, Debug, PartialEq, Eq)]
pub(crate) enum Trouble {
    /// The disk failed.
    Failed,
    /// The bytes are no journal, or the batch is too great.
    Refused,
    /// Memory could not be had.
    Memory,
}

/// An answer as a keeper's, with what is refused counted.
pub(crate) fn counted<T>(refusals: &mut u64, answer: Result<T, Trouble>) -> Result<T, KeeperFault>
    ensures refusals { refusals.new ≡ refusals_after refusals.old answer }
    ensures same { result ≡ answered answer }
{
    match answer {
        Ok(value) => Ok(value),
        Err(Trouble::Failed) => Err(KeeperFault::Failed),
        Err(Trouble::Refused) => {
            *refusals = refusals.saturating_add(1);
            Err(KeeperFault::Failed)
        }
        Err(Trouble::Memory) => Err(KeeperFault::Memory),
    }
}

impl From<KeeperFault> for Trouble {
    ghost use Rattle.std.specs.Prelude.{◌≡◌};
    ghost use Rattle.aq_journal.specs.Opening.{trouble_of};

    ghost from_gives = { λ fault trouble. trouble ≡ trouble_of fault };

    fn from(fault: KeeperFault) -> Self {
        match fault {
            KeeperFault::Failed => Trouble::Failed,
            KeeperFault::Memory => Trouble::Memory,
        }
    }
}

impl From<Memory> for Trouble {
    ghost use Rattle.std.specs.Prelude.{◌≡◌};
    ghost use Rattle.aq_journal.specs.declared.trouble.Trouble.TheVariants as trouble;

    ghost from_gives = { λ _ fault. fault ≡ trouble.Memory };

    fn from(_: Memory) -> Self {
        Trouble::Memory
    }
}
