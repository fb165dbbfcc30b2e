//! What a keeper promises that never stops telling.
ghost use Rattle.std.specs.Prelude.{◌≡◌, List, Option, IsSome};
ghost use Rattle.aq_rules.specs.Kept.Rows as the_rows;
ghost use Rattle.aq_keeper.specs.Told.{Stays, told_through};

/// Of a keeper that still tells its tables as a call ends, what the call promises of them is exact: they are as
/// expected, and what was told throughout is what was told before.
pub fn told_tables_are_exact()
    ensures exact { (expected after : Option (List the_rows.Row)) → IsSome after
        → Stays expected after → after ≡ expected }
    ensures through { (before after : Option (List the_rows.Row)) → IsSome after
        → told_through before after ≡ before }
{}
