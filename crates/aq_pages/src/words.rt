//! What the heads and the columns of each kind of sheet mean, in plain words and in HTML.

pub(crate) const LOAD: &str =
    "A load is a text of lines that was sent under the number 'load'; 0 says that it was only tried. 'lines' \
    counts all its lines, comments and empty ones too. 'accepted' counts those that were taken, and \
    'refused' those that were not. A refused line changes nothing. A row has the place of a refused line in \
    the text, the number and the name of the first rule that it broke, and a count. The first 500 are listed \
    so. The others are counted by rule, with a dash in place of the line.";

pub(crate) const AVERAGES: &str =
    "A row is the 8-hour average that starts at 'hour'. 'average' leaves out the hours of events in which the \
    EPA has concurred, and is made of so many 'hours'. 'full' has these hours too, and is made of so many \
    'full_hours'. An average needs six hours, or a sum that is high enough. A dash says that there is none. \
    The day has the seventeen that start at 07:00 to 23:00.";

pub(crate) const OZONE_VALUE: &str =
    "The design value of three years, the last of which is 'year'. 'value' is the mean of their fourth \
    highest days, in ppm, with further digits dropped. 'test' is a dash: ozone has no test that fills in \
    missing samples. 'verdict' is Met if the value is at the level or below it, and the data are complete \
    enough to say so. It is Incomplete if they are not. It is NotMet if the value is above the level, and \
    NoValue without a value. Of a year 'ranked' counts the days that are valid and have a maximum. 'fourth' \
    is the fourth highest of these. 'season_valid' of the 'season_days' days of the season are valid or \
    approved. Each year needs three quarters of them, and the three years nine tenths on average. A dash \
    says that there is no such number.";

pub(crate) const ANNUAL_VALUE: &str =
    "The design value of three years, the last of which is 'year'. 'value' is the mean of their quarterly \
    means, in &#181;g/m&#179;. 'test' is the value with missing samples filled in, if the standard asks for \
    that test and allows it. Else it is a dash. 'verdict' is Met if the standard is met, and the data are \
    complete enough to say so or the test is passed. It is NotMet if the standard is not met, and Incomplete \
    if the data are not complete enough to say more. It is NoValue without a value. Of a year 'mean' is the \
    annual mean. 'capture1' to 'capture4' are the samples that are there, in percent of those that were due, \
    by quarter. 'valid' is Y if each quarter has 75 percent, and in some other cases. A dash says that there \
    is no such number.";

pub(crate) const DAILY_VALUE: &str =
    "The design value of three years, the last of which is 'year'. 'value' is the mean of their 98th \
    percentiles, in whole &#181;g/m&#179;. 'test' is the value with missing samples filled in, if the \
    standard asks for that test and allows it. Else it is a dash. 'verdict' is Met if the standard is met, \
    and the data are complete enough to say so or the test is passed. It is NotMet if the standard is not \
    met, and Incomplete if the data are not complete enough to say more. It is NoValue without a value. Of a \
    year 'percentile' is the 98th percentile of the days. 'counted' is the number of samples from which its \
    rank follows. 'capture1' to 'capture4' are the samples that are there, in percent of those that were \
    due, by quarter. 'valid' is Y if each quarter has 75 percent, and in some other cases. A dash says that \
    there is no such number.";

pub(crate) const PM10_VALUE: &str =
    "The design value of three years, the last of which is 'year'. 'value' is the number of days above 150 \
    &#181;g/m&#179; that are expected in a year, the mean of the three years' estimates. 'test' is a dash: \
    PM10 has no test that fills in missing samples. 'verdict' is Met if the value is 1.0 or less, and the \
    data are complete enough to say so. It is NotMet if the standard is not met, and that may be certain \
    without a value. It is Incomplete if the data are not complete enough to say more, and NoValue without a \
    value. Of a year 'exceedances' counts the days above 150, from 155.0 on since the rule rounds to tens, \
    without those that are left out. 'estimate' is their expected number, with the days that were not \
    sampled. 'lower' is the same as if no missing sample had exceeded. 'complete' is Y if each quarter has \
    three quarters of its samples. A dash says that there is no such number.";

pub(crate) const REPORT: &str =
    "A row for each site that measures the pollutant of the standard. 'value' is its design value of the \
    three years of which 'year' is the last. 'verdict' is Met if the standard is met, and the data are \
    complete enough to say so. It is NotMet if it is not met, and Incomplete if the data are not complete \
    enough to say more. It is NoValue, with a dash for the value, if there is none. Sites that were combined \
    stand apart here.";

pub(crate) const AREA_HISTORY: &str =
    "An area is a county, or some sites. 'verdict' is NotMet if one of its sites is, else Incomplete if one \
    is, else Met if one is. 'governing' is the site with the greatest design value, of several the one with \
    the lowest number. 'value' is the value of that site. 'met' counts the years up to 'year' in which the \
    area was Met, without a break. The rows are the years from the first that was NotMet up to 'year', each \
    the last of three years. Without such a year there is no row.";

pub(crate) const AREA_SITES: &str =
    "The sites of the area that measure the pollutant of the standard. 'value' and 'verdict' are of the three \
    years of which 'year' is the last. 'critical' is the most that a site may measure in the next year for \
    its value to stay at the level or below it. It is a fourth highest day, an annual mean, a 98th \
    percentile or an estimate of days, as the standard is. It speaks of the value alone: Met also needs data \
    that are complete enough. A dash says that 'year' or the year before lacks its number.";

pub(crate) const DECISIVE: &str =
    "'verdict' above the rows is the verdict as it is. A row is an event that alone would change it, and the \
    verdict then. The event is turned round: a concurrence of the EPA that stands is taken away, and one \
    that does not stand is assumed. One event is turned round at a time. Without a row no event alone \
    decides.";

pub(crate) const OZONE_DAYS: &str =
    "The ozone season goes from 'season_first' to 'season_last' and has 'season_days' days. Of these \
    'season_valid' are valid or approved. 'fourth' is the fourth highest maximum of the year's valid days. \
    Of a day 'averages' counts the 8-hour averages that it has, with all hours, of seventeen. 'valid' is Y \
    with thirteen of them, or with one that is above the level. 'approved' is Y if the day counts as \
    complete without its values. 'maximum' is its greatest average, without the hours of events in which the \
    EPA has concurred. A dash says that there is no such number.";

pub(crate) const PM25_DAYS: &str =
    "A row for each day of the year. 'scheduled' is Y if a sample was due. 'value' is the value of the day in \
    &#181;g/m&#179;. 'excluded' is Y if an event in which the EPA has concurred leaves it out. 'credit' is Y \
    if the sample makes up for a missed day. A dash says that the day has no value.";

pub(crate) const PM10_DAYS: &str =
    "A row for each day of the year. 'scheduled' is Y if a sample was due. 'stratum' is the place of its \
    stratum in the quarter: a stratum is the days from one scheduled day up to the next, six at most. \
    'value' is the value of the day in &#181;g/m&#179;. 'excluded' is Y if an event in which the EPA has \
    concurred leaves it out. 'exceeds' is Y if the value is above 150, from 155.0 on since the rule rounds \
    to tens, left out or not. A dash says that the day has no value.";

pub(crate) const HIGHEST_OZONE: &str =
    "The ten highest of the days that the standard ranks. 'ranked' counts all that it ranks: those that are \
    valid and have a maximum. 'decides' is the rank that the standard takes, the fourth. Of equal days the \
    earlier stands first. 'value' is the greatest 8-hour average of the day in ppm, without the hours of \
    events in which the EPA has concurred. It starts at 'hour', and is made of so many 'hours'.";

pub(crate) const HIGHEST_PARTICLES: &str =
    "The ten highest of the days that the standard ranks. 'ranked' counts all that it ranks: those with a \
    value that is not left out. 'decides' is the rank that the standard takes. Of PM2.5 it is that of the \
    98th percentile. Of PM10 it is a dash, since each day above 150 counts. Of equal days the earlier stands \
    first. 'value' is the value of the day in &#181;g/m&#179;.";

pub(crate) const SIMULATION: &str =
    "A simulation makes up an office and works out its reports. 'loads' counts the texts that it took. \
    'lines' counts their lines, and 'observations' the samples that stand at its end. No number of it was \
    measured.";

pub(crate) const SITES: &str =
    "'sites' counts the registered sites. A row has the numbers of a site's monitors of ozone, of PM2.5 and \
    of PM10. Monitors whose values do not count are among them, and so are those without a sample.";

pub(crate) const MONITORS: &str =
    "A row for each monitor of the site. 'parameter' is what it measures: 44201 is ozone, 88101 PM2.5, 81102 \
    PM10. 'poc' is its number among those of the parameter. 'duration' is how long a sample lasts: 1 is an \
    hour, 7 is 24 hours. 'eligible' is Y if its values count. 'observations' counts what stands of it, with \
    a value or with a code that says why there is none. 'first' and 'last' are the days of the first and of \
    the last of these. A dash says that nothing stands.";

pub(crate) const EVENTS: &str =
    "A row for each exceptional event of the site, by its number. 'parameter' is what was measured: 44201 is \
    ozone, 88101 PM2.5, 81102 PM10. 'first' and 'last' are the first and the last hour of the event. 'code' \
    is the code that a sample carries if it is to be left out. 'agreed' is the concurrence of the EPA, Y or \
    N, and a dash if there is none yet. 'flagged' counts the samples of these hours that carry the code. \
    With 0 the event leaves nothing out.";

pub(crate) const FLAGS: &str =
    "A row for each day and each code of an event that a sample carries. 'flagged' counts the samples that \
    carry the code. 'covered' counts those of them that an event of the code holds. 'excluded' counts those \
    that an event holds in which the EPA has concurred: they are left out. If the three are equal, all is \
    left out that asks to be. If 'covered' is below 'flagged', an event is missing or too short. If \
    'excluded' is below 'covered', a concurrence is missing. A sample of 24 hours stands at the first hour \
    of its day.";

pub(crate) const LOADS: &str =
    "'loads' counts the loads that were taken. A row is one of them, by its number. 'lines' counts the lines \
    of its text, comments and empty ones too. 'accepted' counts those that were taken, and 'refused' those \
    that were not. 'digest' is the SHA-256 of the text, by which the same text is known again.";

pub(crate) const COMPLETENESS: &str =
    "A row for each monitor, by its number 'poc', and each month. 'due' counts the samples that were due: \
    those of each hour, or of each scheduled day. Of these 'valued' have a value, 'null' have a code that \
    says why there is none, and 'missing' are not there. 'extra' counts the values at other days or hours. \
    'percent' is 'valued' in percent of 'due', and a dash where nothing was due. Monitors whose values do \
    not count are here too, and samples that are left out count.";

pub(crate) const PM25_QUARTERS: &str =
    "Of the year 'counted' is the number of samples that count for the 98th percentile. 'rank' is the place \
    of the percentile among the values, from the greatest on. 'percentile' is the value at that place, and \
    'mean' the mean of the four quarterly means, in &#181;g/m&#179;. Of a quarter 'scheduled' counts the \
    days on which a sample was due. 'creditable' counts those that have one, and those that were made up \
    for. 'capture' is 'creditable' in percent of 'scheduled'. 'counted' is 'creditable' without what events \
    leave out. 'days' counts all days with a value that is not left out. 'sum', 'least' and 'greatest' are \
    those of their values. A dash says that there is no such number.";

pub(crate) const PM10_QUARTERS: &str =
    "'estimate' of the year is the number of days above 150 &#181;g/m&#179; that are expected, the sum of its \
    quarters. Of a quarter 'days' counts all days, and 'scheduled' those on which a sample was due. \
    'captured' counts those of them that have one. 'strata' counts the strata with a sample: a stratum is \
    the days from one scheduled day up to the next, six at most. 'samples' counts the samples that are not \
    left out. 'exceedances' counts those above 150, from 155.0 on since the rule rounds to tens. 'estimate' \
    is their expected number, with the days that were not sampled. 'lower' is the same as if no missing \
    sample had exceeded. A dash says that there is no such number.";
