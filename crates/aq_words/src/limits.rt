//! How much the words of a command may name (own). The limits stand in aq_base.
ghost use Rattle.std.specs.Prelude.{◌≡◌};
ghost use Rattle.aq_base.specs.declared.area.TheConstants.{MOST_AREA_SITES};
ghost use Rattle.aq_base.specs.declared.assumed.TheConstants.{MOST_ASSUMED};

/// The limits of an area's sites and of a list's entries are these numbers, on which an agency's scripts
/// rest.
pub fn limits_of_words_are_these_numbers()
    ensures sites { MOST_AREA_SITES ≡ 32 }
    ensures entries { MOST_ASSUMED ≡ 64 }
{}
