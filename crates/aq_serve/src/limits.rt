//! How much is served on a connection.
ghost use Rattle.std.specs.Prelude.{◌≡◌};
ghost use Rattle.aq_serve.specs.declared.limits.TheConstants.{MOST_REQUESTS};

/// A connection is served so many requests at most, and ends after the reply to the last (own).
pub const MOST_REQUESTS: u32 = 1_000;

/// So many bytes are read from a connection at once, at most.
pub(crate) const PIECE: usize = 65_536;

/// The limits of a connection are these numbers.
pub fn limits_of_a_connection_are_these_numbers()
    ensures requests { MOST_REQUESTS ≡ 1_000 }
{}
