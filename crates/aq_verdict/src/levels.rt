//! Values against a level, and the years that are valid.
ghost use Rattle.std.specs.Prelude.{◌≡◌};
ghost use Rattle.aq_rules.specs.Standards.{is_above, is_at_or_below};
ghost use Rattle.aq_rules.specs.Particles.AnnualVerdict.{are_all};

/// Whether there is a value above the level.
pub(crate) fn is_above(level: i32, value: Option<i32>) -> bool
    ensures { result ≡ is_above level value }
{
    value.is_some_and(|value| value > level)
}

/// Whether there is a value at or below the level.
pub(crate) fn is_at_or_below(level: i32, value: Option<i32>) -> bool
    ensures { result ≡ is_at_or_below level value }
{
    value.is_some_and(|value| value <= level)
}

/// Whether all three years are valid.
pub(crate) fn are_all(valid: &[bool; 3]) -> bool
    ensures { result ≡ are_all valid.now }
{
    valid.iter().all(|valid| *valid)
}
