//! Why a question has no answer.
ghost use Rattle.std.specs.Prelude.{Some};
ghost use Rattle.aq_design.specs.WhatIf.Refusals.{fault_text};

use aq_base::Memory;
use std::error::Error;
use std::fmt;

/// Why a question has no answer.
#[derive(Clone, Copy, Debug, PartialEq, Eq)]
pub enum WhatIfFault {
    /// No monitor of the site is registered.
    UnknownSite,
    /// The first number of the list that no event has.
    UnknownEvent(u32),
    /// Memory could not be had.
    Memory,
}

impl From<Memory> for WhatIfFault {
    ghost use Rattle.std.specs.Prelude.{◌≡◌};
    ghost use Rattle.aq_design.specs.declared.what_if.fault.WhatIfFault.TheVariants as faults;

    ghost from_gives = { λ _ fault. fault ≡ faults.Memory };

    fn from(_: Memory) -> Self {
        WhatIfFault::Memory
    }
}

impl fmt::Display for WhatIfFault {
    ghost output = { λ fault. Some (fault_text fault) };

    fn fmt<W: fmt::Write>(&self, f: &mut fmt::Formatter<W>) -> fmt::Result {
        f.write_str(match self {
            WhatIfFault::UnknownSite => "no monitor of the site is registered",
            WhatIfFault::UnknownEvent(_) => "no event has the number",
            WhatIfFault::Memory => "memory",
        })
    }
}

impl Error for WhatIfFault {}
