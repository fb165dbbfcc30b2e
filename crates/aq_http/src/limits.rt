//! How much a head may have.
ghost use Rattle.std.specs.Prelude.{◌≡◌};
ghost use Rattle.aq_http.specs.declared.limits.TheConstants.{MOST_HEAD, MOST_HEADERS};

/// A head has at most this many bytes, the empty lines in front of it and the one after it counted (own).
pub const MOST_HEAD: usize = 16_384;

/// A head has at most this many headers (own).
pub const MOST_HEADERS: usize = 64;

/// The limits of a head are these numbers.
pub fn limits_of_a_head_are_these_numbers()
    ensures bytes { MOST_HEAD ≡ 16_384 }
    ensures headers { MOST_HEADERS ≡ 64 }
{}
