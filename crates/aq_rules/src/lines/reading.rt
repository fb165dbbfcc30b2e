//! Which reading rule a line breaks.
ghost use Rattle.std.specs.Prelude.{◌≡◌, ℕ, ◌∷◌, [], ◌++◌, true, false, Some, None, codes, List, map, All, is_some, is_none};
ghost use Rattle.aq_base.specs.declared.rule.Rule.TheVariants.{BadBytes, BadTag, FieldCount, BadAction, BadSite, ParameterOutOfProfile, BadPoc, BadDuration, BadUnit, BadMethod, BadDate, BadTime, ValueAndNull, NeitherValueNorNull, BadValue, ValueOutOfRange, BadNull, BadQualifier, BadSpan, BadInterval, BadSeason, BadMakeup, BadCode, BadPair};
ghost use Rattle.aq_rules.specs.Lines.Spellings.{Rd, Xm, Xp, Xs, Xo, Xu, Xe, Xc, Xa, Xb};
ghost use Rattle.aq_rules.specs.Lines.Forms.{fewest_fields, most_fields};
ghost use Rattle.aq_rules.specs.Lines.Reading.{breaks, line_value, reading_rule, reading_rules, rules_of};
ghost use Rattle.aq_rules.specs.Least.{IsLeastBroken};
ghost use Rattle.aq_base.specs.declared.rule.Rule.{Rule};

/// An RD line for each rule that its form meets, of which that rule is the first one broken. Dates are
/// from 1990-01-01 to 2059-12-31.
#[tactic(auto, unfolding(crate::specs::Lines::Spellings::site_in, crate::specs::Lines::Spellings::parameter_of, crate::specs::Lines::Spellings::date_in, crate::specs::Lines::Spellings::time_in, crate::specs::Lines::Spellings::value_in, crate::specs::Lines::Spellings::qualifiers_in, aq_base::specs::Calendar::days_of_years, aq_base::specs::Calendar::days_of_months))]
pub fn rules_of_samples()
    ensures none { reading_rule (codes "RD|I|06|037|1103|44201|1|1|007|087|20240701|13:00|0.071||||V|RT") ≡ None }
    ensures bytes { reading_rule (9 ∷ codes "RD|I|06|037|1103|44201|1|1|007|087|20240701|13:00|0.071") ≡ Some BadBytes }
    ensures tag { reading_rule (codes "XY|I|06|037|1103") ≡ Some BadTag }
    ensures count { reading_rule (codes "RD|I|06|037|1103|44201|1|1|007|087|20240701|13:00") ≡ Some FieldCount }
    ensures action { reading_rule (codes "RD|i|06|037|1103|44201|1|1|007|087|20240701|13:00|0.071") ≡ Some BadAction }
    ensures site { reading_rule (codes "RD|I|6|037|1103|44201|1|1|007|087|20240701|13:00|0.071") ≡ Some BadSite }
    ensures parameter { reading_rule (codes "RD|I|06|037|1103|88502|1|1|007|087|20240701|13:00|0.071") ≡ Some ParameterOutOfProfile }
    ensures poc { reading_rule (codes "RD|I|06|037|1103|44201|0|1|007|087|20240701|13:00|0.071") ≡ Some BadPoc }
    ensures duration { reading_rule (codes "RD|I|06|037|1103|44201|1|7|007|087|20240701|13:00|0.071") ≡ Some BadDuration }
    ensures unit { reading_rule (codes "RD|I|06|037|1103|44201|1|1|105|087|20240701|13:00|0.071") ≡ Some BadUnit }
    ensures method { reading_rule (codes "RD|I|06|037|1103|44201|1|1|007|87|20240701|13:00|0.071") ≡ Some BadMethod }
    ensures date { reading_rule (codes "RD|I|06|037|1103|44201|1|1|007|087|20230229|13:00|0.071") ≡ Some BadDate }
    ensures first_day { reading_rule (codes "RD|I|06|037|1103|44201|1|1|007|087|19900101|00:00|0.071") ≡ None }
    ensures before_the_first_day { reading_rule (codes "RD|I|06|037|1103|44201|1|1|007|087|19891231|23:00|0.071") ≡ Some BadDate }
    ensures last_day { reading_rule (codes "RD|I|06|037|1103|44201|1|1|007|087|20591231|23:00|0.071") ≡ None }
    ensures after_the_last_day { reading_rule (codes "RD|I|06|037|1103|44201|1|1|007|087|20600101|00:00|0.071") ≡ Some BadDate }
    ensures time { reading_rule (codes "RD|I|06|037|1103|44201|1|1|007|087|20240701|13:30|0.071") ≡ Some BadTime }
    ensures both { reading_rule (codes "RD|I|06|037|1103|44201|1|1|007|087|20240701|13:00|0.071|AN") ≡ Some ValueAndNull }
    ensures neither { reading_rule (codes "RD|I|06|037|1103|44201|1|1|007|087|20240701|13:00| ") ≡ Some NeitherValueNorNull }
    ensures value { reading_rule (codes "RD|I|06|037|1103|44201|1|1|007|087|20240701|13:00|1e3") ≡ Some BadValue }
    ensures range { reading_rule (codes "RD|I|06|037|1103|44201|1|1|007|087|20240701|13:00|10.000") ≡ Some ValueOutOfRange }
    ensures large { reading_rule (codes "RD|I|06|037|1103|44201|1|1|007|087|20240701|13:00|99999999999") ≡ Some ValueOutOfRange }
    ensures null { reading_rule (codes "RD|I|06|037|1103|44201|1|1|007|087|20240701|13:00||A") ≡ Some BadNull }
    ensures qualifier { reading_rule (codes "RD|I|06|037|1103|44201|1|1|007|087|20240701|13:00|0.071||||rt") ≡ Some BadQualifier }
{}

/// Office lines that break reading rules, each with the first one broken.
#[tactic(auto, unfolding(crate::specs::Lines::Spellings::site_in, crate::specs::Lines::Spellings::parameter_of, crate::specs::Lines::Spellings::date_in, crate::specs::Lines::Spellings::year_in, crate::specs::Lines::Spellings::time_in, crate::specs::Lines::Spellings::interval_in, crate::specs::Lines::Spellings::event_number_in, crate::specs::Lines::Spellings::event_code_in, aq_base::specs::Calendar::days_of_years, aq_base::specs::Calendar::days_of_months, aq_base::specs::Calendar::year_of, aq_base::specs::Calendar::month_of))]
pub fn rules_of_office_lines()
    ensures action_missing { reading_rule (codes "XC|D|5") ≡ Some BadAction }
    ensures few { reading_rule (codes "XC|D") ≡ Some FieldCount }
    ensures beyond { reading_rule (codes "XA|D|06|037|1103|20240701||x") ≡ Some FieldCount }
    ensures empty_beyond { reading_rule (codes "XA|D|06|037|1103|20240701| |") ≡ None }
    ensures ozone_schedule { reading_rule (codes "XS|I|06|037|1103|44201|20240101|3|20240101") ≡ Some ParameterOutOfProfile }
    ensures deleted_makeup { reading_rule (codes "XU|D|06|037|1103|81102|20240107") ≡ Some ParameterOutOfProfile }
    ensures two_zeros { reading_rule (codes "XP|I|06|037|1103|44201|20240101|00") ≡ Some BadPoc }
    ensures no_primary { reading_rule (codes "XP|I|06|037|1103|44201|20240101|0") ≡ None }
    ensures ozone_day { reading_rule (codes "XM|U|06|037|1103|44201|1|7|N") ≡ Some BadDuration }
    ensures year { reading_rule (codes "XO|I|06|037|1103|1989|19890301|19891031") ≡ Some BadDate }
    ensures first_year { reading_rule (codes "XO|I|06|037|1103|1990|19900101|19901231") ≡ None }
    ensures last_year { reading_rule (codes "XO|I|06|037|1103|2059|20590101|20591231") ≡ None }
    ensures span { reading_rule (codes "XE|I|1|06|037|1103|44201|20240101|00:00|20250101|00:00|RT") ≡ Some BadSpan }
    ensures whole_year { reading_rule (codes "XE|I|1|06|037|1103|44201|20240101|00:00|20241231|23:00|RT") ≡ None }
    ensures interval { reading_rule (codes "XS|I|06|037|1103|88101|20240101|4|20240101") ≡ Some BadInterval }
    ensures wide_interval { reading_rule (codes "XS|I|06|037|1103|88101|20240101|06|20240101") ≡ Some BadInterval }
    ensures season { reading_rule (codes "XO|I|06|037|1103|2024|20240301|20250101") ≡ Some BadSeason }
    ensures late_makeup { reading_rule (codes "XU|I|06|037|1103|88101|20240107|20240115") ≡ Some BadMakeup }
    ensures other_quarter { reading_rule (codes "XU|I|06|037|1103|88101|20240330|20240401") ≡ Some BadMakeup }
    ensures event_code { reading_rule (codes "XE|I|1|06|037|1103|44201|20240101|00:00|20240101|05:00|V") ≡ Some BadCode }
    ensures event_number { reading_rule (codes "XC|U|01|Y") ≡ Some BadCode }
    ensures eligible { reading_rule (codes "XM|I|06|037|1103|44201|1|1|y") ≡ Some BadCode }
{}

/// The reading rules that a line of each form meets beside those of all forms, in rising number: of
/// an insertion or update those of all its fields, and of a deletion those of its key.
pub fn rules_of_each_form()
    ensures sample { rules_of Rd false ≡ BadSite ∷ ParameterOutOfProfile ∷ BadPoc ∷ BadDuration ∷ BadUnit ∷ BadMethod ∷ BadDate ∷ BadTime ∷ ValueAndNull ∷ NeitherValueNorNull ∷ BadValue ∷ ValueOutOfRange ∷ BadNull ∷ BadQualifier ∷ [] }
    ensures sample_deleted { rules_of Rd true ≡ BadSite ∷ ParameterOutOfProfile ∷ BadPoc ∷ BadDate ∷ BadTime ∷ [] }
    ensures monitor { rules_of Xm false ≡ BadSite ∷ ParameterOutOfProfile ∷ BadPoc ∷ BadDuration ∷ BadCode ∷ [] }
    ensures monitor_not_deleted { rules_of Xm true ≡ rules_of Xm false }
    ensures primary { rules_of Xp false ≡ BadSite ∷ ParameterOutOfProfile ∷ BadPoc ∷ BadDate ∷ [] }
    ensures primary_deleted { rules_of Xp true ≡ BadSite ∷ ParameterOutOfProfile ∷ BadDate ∷ [] }
    ensures schedule { rules_of Xs false ≡ BadSite ∷ ParameterOutOfProfile ∷ BadDate ∷ BadInterval ∷ [] }
    ensures schedule_deleted { rules_of Xs true ≡ BadSite ∷ ParameterOutOfProfile ∷ BadDate ∷ [] }
    ensures season { rules_of Xo false ≡ BadSite ∷ BadDate ∷ BadSeason ∷ [] }
    ensures season_deleted { rules_of Xo true ≡ BadSite ∷ BadDate ∷ [] }
    ensures makeup { rules_of Xu false ≡ BadSite ∷ ParameterOutOfProfile ∷ BadDate ∷ BadMakeup ∷ [] }
    ensures makeup_deleted { rules_of Xu true ≡ BadSite ∷ ParameterOutOfProfile ∷ BadDate ∷ [] }
    ensures event { rules_of Xe false ≡ BadSite ∷ ParameterOutOfProfile ∷ BadDate ∷ BadTime ∷ BadSpan ∷ BadCode ∷ [] }
    ensures event_deleted { rules_of Xe true ≡ BadCode ∷ [] }
    ensures concurrence { rules_of Xc false ≡ BadCode ∷ [] }
    ensures concurrence_not_deleted { rules_of Xc true ≡ rules_of Xc false }
    ensures approved { rules_of Xa false ≡ BadSite ∷ BadDate ∷ [] }
    ensures approval_deleted { rules_of Xa true ≡ BadSite ∷ BadDate ∷ [] }
    ensures combined { rules_of Xb false ≡ BadSite ∷ ParameterOutOfProfile ∷ BadDate ∷ BadPair ∷ [] }
    ensures combination_deleted { rules_of Xb true ≡ BadSite ∷ ParameterOutOfProfile ∷ [] }
{}

/// How many fields a line of each form has: an insertion or update, a deletion, and at most.
pub fn fields_of_each_form()
    ensures put { map (λ tag. fewest_fields tag false) (Rd ∷ Xm ∷ Xp ∷ Xs ∷ Xo ∷ Xu ∷ Xe ∷ Xc ∷ Xa ∷ Xb ∷ []) ≡ 13 ∷ 9 ∷ 8 ∷ 9 ∷ 8 ∷ 8 ∷ 12 ∷ 4 ∷ 6 ∷ 10 ∷ [] }
    ensures deleted { map (λ tag. fewest_fields tag true) (Rd ∷ Xm ∷ Xp ∷ Xs ∷ Xo ∷ Xu ∷ Xe ∷ Xc ∷ Xa ∷ Xb ∷ []) ≡ 12 ∷ 7 ∷ 7 ∷ 7 ∷ 6 ∷ 7 ∷ 3 ∷ 3 ∷ 6 ∷ 6 ∷ [] }
    ensures most { map most_fields (Rd ∷ Xm ∷ Xp ∷ Xs ∷ Xo ∷ Xu ∷ Xe ∷ Xc ∷ Xa ∷ Xb ∷ []) ≡ 28 ∷ 9 ∷ 8 ∷ 9 ∷ 8 ∷ 8 ∷ 12 ∷ 4 ∷ 6 ∷ 10 ∷ [] }
{}

/// Samples on both sides of a rule of their line.
#[tactic(auto, unfolding(crate::specs::Lines::Spellings::site_in, crate::specs::Lines::Spellings::parameter_of, crate::specs::Lines::Spellings::date_in, crate::specs::Lines::Spellings::time_in, crate::specs::Lines::Spellings::value_in, crate::specs::Lines::Spellings::qualifiers_in, aq_base::specs::Calendar::days_of_years, aq_base::specs::Calendar::days_of_months))]
pub fn samples_at_the_edge_of_a_rule()
    ensures last_plain_byte { reading_rule (codes "RD|I|06|037|1103|44201|1|1|007|087|20240701|13:00|0.071||~") ≡ None }
    ensures byte_127 { reading_rule (codes "RD|I|06|037|1103|44201|1|1|007|087|20240701|13:00|0.071||" ++ 127 ∷ []) ≡ Some BadBytes }
    ensures unread_fields { reading_rule (codes "RD|I|06|037|1103|44201|1|1|007|087|20240701|13:00|0.071||daily|?|||||||||||limit|uncertainty") ≡ None }
    ensures field_29 { reading_rule (codes "RD|I|06|037|1103|44201|1|1|007|087|20240701|13:00|0.071||||||||||||||||x") ≡ Some FieldCount }
    ensures behind_empty_qualifier { reading_rule (codes "RD|I|06|037|1103|44201|1|1|007|087|20240701|13:00|0.071||||V||rt") ≡ Some BadQualifier }
    ensures tenth_qualifier { reading_rule (codes "RD|I|06|037|1103|44201|1|1|007|087|20240701|13:00|0.071|||||||||||||rt") ≡ Some BadQualifier }
    ensures no_qualifier { reading_rule (codes "RD|I|06|037|1103|44201|1|1|007|087|20240701|13:00|0.071||||||||||||||rt") ≡ None }
    ensures deleted_by_key { reading_rule (codes "RD|D|06|037|1103|44201|1|x|x|x|20240701|13:00|x|x") ≡ None }
    ensures deletion_without_time { reading_rule (codes "RD|D|06|037|1103|44201|1|1|007|087|20240701") ≡ Some FieldCount }
    ensures days_of_pm10 { reading_rule (codes "RD|U|06|037|1103|81102|12|7|001|141|20240701|00:00|9999.9") ≡ None }
    ensures above_pm10 { reading_rule (codes "RD|U|06|037|1103|81102|12|7|001|141|20240701|00:00|10000.0") ≡ Some ValueOutOfRange }
    ensures least_pm25 { reading_rule (codes "RD|I|06|037|1103|88101|3|7|105|145|20240701|00:00|-99.99") ≡ None }
    ensures below_pm25 { reading_rule (codes "RD|I|06|037|1103|88101|3|7|105|145|20240701|00:00|-100") ≡ Some ValueOutOfRange }
    ensures unit_of_pm25 { reading_rule (codes "RD|I|06|037|1103|88101|3|7|001|145|20240701|00:00|12.3") ≡ Some BadUnit }
{}

/// Office lines on both sides of a rule of their form.
#[tactic(auto, unfolding(crate::specs::Lines::Spellings::site_in, crate::specs::Lines::Spellings::parameter_of, crate::specs::Lines::Spellings::date_in, crate::specs::Lines::Spellings::year_in, crate::specs::Lines::Spellings::time_in, crate::specs::Lines::Spellings::interval_in, crate::specs::Lines::Spellings::event_number_in, crate::specs::Lines::Spellings::event_code_in, aq_base::specs::Calendar::days_of_years, aq_base::specs::Calendar::days_of_months, aq_base::specs::Calendar::year_of, aq_base::specs::Calendar::month_of))]
pub fn office_lines_at_the_edge_of_a_rule()
    ensures schedule_deleted { reading_rule (codes "XS|D|06|037|1103|88101|20240101") ≡ None }
    ensures schedule_of_any_day { reading_rule (codes "XS|D|06|037|1103|88101") ≡ Some FieldCount }
    ensures schedule_deleted_by_key { reading_rule (codes "XS|D|06|037|1103|81102|20240101|4|x") ≡ None }
    ensures every_second_day { reading_rule (codes "XS|I|06|037|1103|88101|20240101|2|20240107") ≡ None }
    ensures anchor { reading_rule (codes "XS|I|06|037|1103|88101|20240101|2|20240230") ≡ Some BadDate }
    ensures season_without_year { reading_rule (codes "XO|D|06|037|1103") ≡ Some FieldCount }
    ensures year_of_a_deletion { reading_rule (codes "XO|D|06|037|1103|2060|x|x") ≡ Some BadDate }
    ensures last_day_of_season { reading_rule (codes "XO|I|06|037|1103|2024|20240301|20241331") ≡ Some BadDate }
    ensures season_of_one_day { reading_rule (codes "XO|I|06|037|1103|2024|20240301|20240301") ≡ None }
    ensures season_before_its_year { reading_rule (codes "XO|I|06|037|1103|2024|20231101|20240331") ≡ Some BadSeason }
    ensures primary_of_ninety_nine { reading_rule (codes "XP|I|06|037|1103|81102|20240101|99") ≡ None }
    ensures makeup_of_a_week { reading_rule (codes "XU|I|06|037|1103|88101|20240107|20240114") ≡ None }
    ensures makeup_of_the_same_day { reading_rule (codes "XU|I|06|037|1103|88101|20240107|20240107") ≡ Some BadMakeup }
    ensures event_of_an_hour { reading_rule (codes "XE|I|7|06|037|1103|44201|20240101|05:00|20240101|05:00|RT") ≡ None }
    ensures event_backwards { reading_rule (codes "XE|I|7|06|037|1103|44201|20240101|05:00|20240101|04:00|RT") ≡ Some BadSpan }
    ensures site_of_event { reading_rule (codes "XE|I|7|06|037|103|44201|20240101|05:00|20240102|06:00|RT") ≡ Some BadSite }
    ensures parameter_of_event { reading_rule (codes "XE|I|7|06|037|1103|88502|20240101|05:00|20240102|06:00|RT") ≡ Some ParameterOutOfProfile }
    ensures last_date_of_event { reading_rule (codes "XE|I|7|06|037|1103|44201|20240101|05:00|20240132|06:00|RT") ≡ Some BadDate }
    ensures last_time_of_event { reading_rule (codes "XE|I|7|06|037|1103|44201|20240101|05:00|20240102|24:00|RT") ≡ Some BadTime }
    ensures last_event_number { reading_rule (codes "XE|D|999999") ≡ None }
    ensures beyond_event_numbers { reading_rule (codes "XE|D|1000000") ≡ Some BadCode }
    ensures event_deleted_by_number { reading_rule (codes "XE|D|7|x") ≡ None }
    ensures concurrence_inserted { reading_rule (codes "XC|I|7|Y") ≡ Some BadAction }
    ensures approval_updated { reading_rule (codes "XA|U|06|037|1103|20240701") ≡ Some BadAction }
    ensures designation_updated { reading_rule (codes "XP|U|06|037|1103|44201|20240101|1") ≡ Some BadAction }
    ensures monitor_deleted { reading_rule (codes "XM|D|06|037|1103|44201|1") ≡ Some BadAction }
{}

/// Lines that combine two sites, of ozone or PM2.5. Both sites are read before the parameter and the
/// date, and then they must differ. Of a deletion six fields are read, and no field after them.
#[tactic(auto, unfolding(crate::specs::Lines::Spellings::site_in, crate::specs::Lines::Spellings::parameter_of, crate::specs::Lines::Spellings::date_in, aq_base::specs::Calendar::days_of_years, aq_base::specs::Calendar::days_of_months))]
pub fn lines_that_combine_sites()
    ensures ozone { reading_rule (codes "XB|I|06|037|1103|44201|20240702|06|037|1104") ≡ None }
    ensures particles { reading_rule (codes "XB|I|06|037|1103|88101|20240702|06|037|1104") ≡ None }
    ensures pm10 { reading_rule (codes "XB|I|06|037|1103|81102|20240702|06|037|1104") ≡ Some ParameterOutOfProfile }
    ensures same_site { reading_rule (codes "XB|I|06|037|1103|44201|20240702|06|037|1103") ≡ Some BadPair }
    ensures same_number_elsewhere { reading_rule (codes "XB|I|06|037|1103|44201|20240702|06|059|1103") ≡ None }
    ensures joined_site_before_parameter { reading_rule (codes "XB|I|06|037|1103|81102|20240702|06|37|1104") ≡ Some BadSite }
    ensures parameter_before_date { reading_rule (codes "XB|I|06|037|1103|81102|20240732|06|037|1104") ≡ Some ParameterOutOfProfile }
    ensures date_before_pair { reading_rule (codes "XB|I|06|037|1103|44201|20240732|06|037|1103") ≡ Some BadDate }
    ensures nine_fields { reading_rule (codes "XB|I|06|037|1103|44201|20240702|06|037") ≡ Some FieldCount }
    ensures eleven_fields { reading_rule (codes "XB|I|06|037|1103|44201|20240702|06|037|1104|x") ≡ Some FieldCount }
    ensures updated { reading_rule (codes "XB|U|06|037|1103|44201|20240702|06|037|1104") ≡ Some BadAction }
    ensures deleted { reading_rule (codes "XB|D|06|037|1103|44201") ≡ None }
    ensures deleted_whatever_follows { reading_rule (codes "XB|D|06|037|1103|44201|x|x|x|x") ≡ None }
    ensures deletion_of_pm10 { reading_rule (codes "XB|D|06|037|1103|81102") ≡ Some ParameterOutOfProfile }
    ensures deletion_of_five_fields { reading_rule (codes "XB|D|06|037|1103") ≡ Some FieldCount }
    ensures deletion_of_eleven_fields { reading_rule (codes "XB|D|06|037|1103|44201|||||x") ≡ Some FieldCount }
{}

/// The rule of a line is the least one of those that its form meets and that the line breaks.
pub fn the_least_rule_is_named()
    ensures rule { (line : List ℕ) (rule : Rule) → reading_rule line ≡ Some rule → IsLeastBroken (λ r. breaks r line) (reading_rules line) rule }
    ensures none { (line : List ℕ) → reading_rule line ≡ None → All (λ r. breaks r line ≡ false) (reading_rules line) }
{}

/// A line spells a value exactly if it breaks no rule.
pub fn a_value_or_a_rule()
    ensures { (line : List ℕ) → is_some (line_value line) ≡ is_none (reading_rule line) }
{}
