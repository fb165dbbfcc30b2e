//! Data capture and make-up samples, worked out.
#![tactic(auto)]

ghost use Rattle.std.specs.Prelude.{◌≡◌, true, false, ◌∷◌, []};
ghost use Rattle.aq_rules.specs.Standards.{years_to};
ghost use Rattle.aq_rules.specs.Particles.QuarterCounts.{capture, gives_credit, quarter_counts};
ghost use Rattle.aq_base.specs.Calendar.{day_number, quarter_number};
ghost use Rattle.aq_rules.specs.Ozone.OzoneExamples.{site};
ghost use Rattle.aq_rules.specs.Particles.ParticleExamples.{makeup_on, makeups_every, sampled_quarter, with_makeups};

/// 68 of 91 scheduled days are 75 percent, and 67 of 90 are 74. Days that are excluded take nothing
/// away. Without a scheduled day it is 0. Every sixth day is scheduled, and 7 January is missed. A
/// sample makes up for it before the 13th or exactly a week later; the 13th is scheduled, and on the
/// 8th there is none. Where every day is scheduled, one a week later makes up for none. Where every
/// third day is, one before the 10th does and one after it does not, but a week later one does. A day
/// with a sample of its own is not missed, and neither is one that is not scheduled. Of the 91 days of
/// the first quarter of 2024 every sixth, 16, is scheduled. Three of these have a sample, and the
/// sample of another day makes up for a fourth; one sample is excluded.
pub fn captures_and_credits()
    ensures enough { capture (record { scheduled = 91; creditable = 68; counted = 68 }) ≡ 75 }
    ensures too_few { capture (record { scheduled = 90; creditable = 67; counted = 67 }) ≡ 74 }
    ensures excluded { capture (record { scheduled = 91; creditable = 68; counted = 60 }) ≡ 75 }
    ensures none { capture (record { scheduled = 0; creditable = 0; counted = 0 }) ≡ 0 }
    ensures ninth { gives_credit with_makeups site (makeup_on 9) ≡ true }
    ensures twelfth { gives_credit with_makeups site (makeup_on 12) ≡ true }
    ensures week_later { gives_credit with_makeups site (makeup_on 14) ≡ true }
    ensures scheduled { gives_credit with_makeups site (makeup_on 13) ≡ false }
    ensures scheduled_a_week_later { gives_credit (makeups_every 1) site (makeup_on 14) ≡ false }
    ensures not_sampled { gives_credit with_makeups site (makeup_on 8) ≡ false }
    ensures before_the_next { gives_credit (makeups_every 3) site (makeup_on 9) ≡ true }
    ensures behind_the_next { gives_credit (makeups_every 3) site (makeup_on 12) ≡ false }
    ensures week_behind_the_next { gives_credit (makeups_every 3) site (makeup_on 14) ≡ true }
    ensures missed_is_sampled { gives_credit with_makeups site (record { missed = day_number 2024 1 13; makeup = day_number 2024 1 14 }) ≡ false }
    ensures missed_is_unscheduled { gives_credit with_makeups site (record { missed = day_number 2024 1 8; makeup = day_number 2024 1 9 }) ≡ false }
    ensures a_quarter_is_counted { quarter_counts sampled_quarter site (quarter_number 2024 0) ≡ record { scheduled = 16; creditable = 4; counted = 3 } }
{}

/// A design value is of the year and the two before it, the oldest first.
pub fn three_years_end_with_the_year()
    ensures { years_to 2023 ≡ 2021 ∷ 2022 ∷ 2023 ∷ [] }
{}
