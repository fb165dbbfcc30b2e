//! The kinds of sheets that the commands of `airdv` print, and the kind of a sheet.
ghost use Rattle.std.specs.Prelude.{◌≡◌, false, find, map, option_map};
ghost use Rattle.aq_pages.specs.Kinds as book;
ghost use Rattle.aq_pages.specs.Kinds.{has_names, kind_named, names_of, same_words};

use crate::numbers::word_at;
use crate::sheet::Line;
use crate::words;
use aq_base::{Bytes, Pollutant};
use std::marker::Model;

/// What is drawn of a sheet.
#[derive(Clone, Copy)]
pub enum Picture {
    /// A bar for each head but the first.
    Counts,
    /// A bar for each row, by the words of its value and of its verdict, counted from 0.
    Bars {
        value: usize,
        verdict: Option<usize>,
    },
    /// A square for each row, by the word of its verdict.
    Squares(usize),
    /// The two lines of a day.
    Lines,
    /// The days of a year of a pollutant.
    Days(Pollutant),
    /// A bar for each of the highest days.
    Highest,
    Nothing,
}

/// Whether something is drawn of a sheet.
pub fn has_picture(picture: Picture) -> bool
    ensures { result ≡ book.has_picture picture }
{
    match picture {
        Picture::Nothing => false,
        _ => true,
    }
}

/// A kind of sheet, told by the names of its heads and of its columns.
#[derive(Drop)]
pub struct Kind {
    /// What it is called, in HTML.
    pub title: &'static str,
    pub heads: Names,
    pub columns: Names,
    pub picture: Picture,
    /// What its heads and its columns mean, in plain words and in HTML; empty for a sheet of no kind.
    pub words: &'static str,
}

/// Names in their order.
pub type Names = &'static [&'static str];

impl Model for Kind {
    ghost use Rattle.std.specs.Prelude.{map};
    ghost use Rattle.aq_pages.specs.Kinds as book;

    ghost Value = { book.SheetKind };

    ghost view = { λ kind. record { title = kind.title.now; heads = map (λ name. name.now) kind.heads.now; columns = map (λ name. name.now) kind.columns.now; picture = kind.picture; words = kind.words.now } };
}

/// All kinds, in the order in which they are tried.
pub fn kinds() -> [Kind; 24]
    ensures { result ≡ book.kinds }
{
    [
        Kind {
            title: "What a load did",
            heads: &["load", "lines", "accepted", "refused"],
            columns: &["line", "rule", "name", "count"],
            picture: Picture::Counts,
            words: words::LOAD,
        },
        Kind {
            title: "8-hour ozone averages of a day, in ppm",
            heads: &["site", "day"],
            columns: &["hour", "average", "hours", "full", "full_hours"],
            picture: Picture::Lines,
            words: words::AVERAGES,
        },
        Kind {
            title: "The design value of a site",
            heads: &["standard", "site", "year", "value", "test", "verdict"],
            columns: &["year", "ranked", "fourth", "season_days", "season_valid"],
            picture: Picture::Bars {
                value: 2,
                verdict: None,
            },
            words: words::OZONE_VALUE,
        },
        Kind {
            title: "The design value of a site",
            heads: &["standard", "site", "year", "value", "test", "verdict"],
            columns: &[
                "year", "mean", "capture1", "capture2", "capture3", "capture4", "valid",
            ],
            picture: Picture::Bars {
                value: 1,
                verdict: None,
            },
            words: words::ANNUAL_VALUE,
        },
        Kind {
            title: "The design value of a site",
            heads: &["standard", "site", "year", "value", "test", "verdict"],
            columns: &[
                "year",
                "percentile",
                "counted",
                "capture1",
                "capture2",
                "capture3",
                "capture4",
                "valid",
            ],
            picture: Picture::Bars {
                value: 1,
                verdict: None,
            },
            words: words::DAILY_VALUE,
        },
        Kind {
            title: "The design value of a site",
            heads: &["standard", "site", "year", "value", "test", "verdict"],
            columns: &["year", "estimate", "lower", "exceedances", "complete"],
            picture: Picture::Bars {
                value: 1,
                verdict: None,
            },
            words: words::PM10_VALUE,
        },
        Kind {
            title: "The design values of all sites",
            heads: &["standard", "year"],
            columns: &["site", "value", "verdict"],
            picture: Picture::Bars {
                value: 1,
                verdict: Some(2),
            },
            words: words::REPORT,
        },
        Kind {
            title: "The history of an area",
            heads: &["standard", "year", "verdict", "governing", "value", "met"],
            columns: &["year", "verdict", "value"],
            picture: Picture::Bars {
                value: 2,
                verdict: Some(1),
            },
            words: words::AREA_HISTORY,
        },
        Kind {
            title: "The sites of an area",
            heads: &["standard", "year"],
            columns: &["site", "value", "verdict", "critical"],
            picture: Picture::Bars {
                value: 1,
                verdict: Some(2),
            },
            words: words::AREA_SITES,
        },
        Kind {
            title: "The events that decide, and the verdict with each turned round",
            heads: &["standard", "site", "year", "verdict"],
            columns: &["event", "verdict"],
            picture: Picture::Squares(1),
            words: words::DECISIVE,
        },
        Kind {
            title: "The ozone days of a year, in ppm",
            heads: &[
                "site",
                "year",
                "season_first",
                "season_last",
                "season_days",
                "season_valid",
                "fourth",
            ],
            columns: &["day", "averages", "valid", "approved", "maximum"],
            picture: Picture::Days(Pollutant::Ozone),
            words: words::OZONE_DAYS,
        },
        Kind {
            title: "The PM2.5 days of a year, in &#181;g/m&#179;",
            heads: &["site", "parameter", "year"],
            columns: &["day", "scheduled", "value", "excluded", "credit"],
            picture: Picture::Days(Pollutant::Pm25),
            words: words::PM25_DAYS,
        },
        Kind {
            title: "The PM10 days of a year, in &#181;g/m&#179;",
            heads: &["site", "parameter", "year"],
            columns: &[
                "day",
                "scheduled",
                "stratum",
                "value",
                "excluded",
                "exceeds",
            ],
            picture: Picture::Days(Pollutant::Pm10),
            words: words::PM10_DAYS,
        },
        Kind {
            title: "The highest days of a year",
            heads: &["site", "parameter", "year", "ranked", "decides"],
            columns: &["rank", "day", "value", "hour", "hours"],
            picture: Picture::Highest,
            words: words::HIGHEST_OZONE,
        },
        Kind {
            title: "The highest days of a year",
            heads: &["site", "parameter", "year", "ranked", "decides"],
            columns: &["rank", "day", "value"],
            picture: Picture::Highest,
            words: words::HIGHEST_PARTICLES,
        },
        Kind {
            title: "What a simulation took",
            heads: &["loads", "lines", "observations"],
            columns: &[],
            picture: Picture::Nothing,
            words: words::SIMULATION,
        },
        Kind {
            title: "The sites",
            heads: &["sites"],
            columns: &["site", "ozone", "pm25", "pm10"],
            picture: Picture::Nothing,
            words: words::SITES,
        },
        Kind {
            title: "The monitors of a site",
            heads: &["site"],
            columns: &[
                "parameter",
                "poc",
                "duration",
                "eligible",
                "observations",
                "first",
                "last",
            ],
            picture: Picture::Nothing,
            words: words::MONITORS,
        },
        Kind {
            title: "The events of a site",
            heads: &["site"],
            columns: &[
                "event",
                "parameter",
                "first",
                "last",
                "code",
                "agreed",
                "flagged",
            ],
            picture: Picture::Nothing,
            words: words::EVENTS,
        },
        Kind {
            title: "The flags of a year",
            heads: &["site", "parameter", "year"],
            columns: &["day", "code", "flagged", "covered", "excluded"],
            picture: Picture::Nothing,
            words: words::FLAGS,
        },
        Kind {
            title: "The loads",
            heads: &["loads"],
            columns: &["load", "lines", "accepted", "refused", "digest"],
            picture: Picture::Nothing,
            words: words::LOADS,
        },
        Kind {
            title: "The completeness of a year",
            heads: &["site", "parameter", "year"],
            columns: &[
                "poc", "month", "due", "valued", "null", "missing", "extra", "percent",
            ],
            picture: Picture::Nothing,
            words: words::COMPLETENESS,
        },
        Kind {
            title: "The quarters of a year of PM2.5",
            heads: &["site", "year", "counted", "rank", "percentile", "mean"],
            columns: &[
                "quarter",
                "scheduled",
                "creditable",
                "capture",
                "counted",
                "days",
                "sum",
                "least",
                "greatest",
            ],
            picture: Picture::Nothing,
            words: words::PM25_QUARTERS,
        },
        Kind {
            title: "The quarters of a year of PM10",
            heads: &["site", "year", "estimate"],
            columns: &[
                "quarter",
                "days",
                "scheduled",
                "captured",
                "strata",
                "samples",
                "exceedances",
                "estimate",
                "lower",
            ],
            picture: Picture::Nothing,
            words: words::PM10_QUARTERS,
        },
    ]
}

/// The kind of a sheet with other names.
fn other_kind() -> Kind
    ensures { result ≡ book.other_kind }
{
    Kind {
        title: "A sheet",
        heads: &[],
        columns: &[],
        picture: Picture::Nothing,
        words: "",
    }
}

/// Whether these words are the names.
pub fn are_same(names: &[&str], words: &[Bytes]) -> bool
    ensures { result ≡ same_words (map (λ name. name.now) names.now) words.now }
{
    let mut rest = words;
    for name in names {
        let [word, behind @ ..] = rest else {
            return false;
        };
        if name.as_bytes() != word.as_slice() {
            return false;
        }
        rest = behind;
    }
    match rest {
        [] => true,
        _ => false,
    }
}

/// Whether heads have these names.
fn are_named(names: &[&str], heads: &[Line]) -> bool
    ensures { result ≡ same_words (map (λ name. name.now) names.now) (names_of heads.now) }
{
    let mut rest = heads;
    for name in names {
        let [head, behind @ ..] = rest else {
            return false;
        };
        if name.as_bytes() != word_at(0, head.as_slice()) {
            return false;
        }
        rest = behind;
    }
    match rest {
        [] => true,
        _ => false,
    }
}

/// Whether heads and columns are as many as those of a kind. It looks at none of their names.
fn are_as_many(heads: &[Line], columns: &[Bytes], kind: &Kind) -> bool
    ensures { result ≡ false → has_names (names_of heads.now) columns.now kind.now ≡ false }
{
    if kind.heads.len() != heads.len() {
        return false;
    }
    if kind.columns.len() != columns.len() {
        return false;
    }
    true
}

/// Whether heads and columns have the names of a kind.
#[tactic(auto, unfolding(crate::specs::Kinds::has_names))]
fn is_of(heads: &[Line], columns: &[Bytes], kind: &Kind) -> bool
    ensures { result ≡ has_names (names_of heads.now) columns.now kind.now }
{
    if !are_as_many(heads, columns, kind) {
        return false;
    }
    are_named(kind.heads, heads) && are_same(kind.columns, columns)
}

/// The first kind that has the names of these heads and columns.
fn first_of<'k>(kinds: &'k [Kind], heads: &[Line], columns: &[Bytes]) -> Option<&'k Kind>
    ensures { option_map (λ kind. kind.now) result ≡ find (has_names (names_of heads.now) columns.now) kinds.now }
{
    for kind in kinds {
        if is_of(heads, columns, kind) {
            return Some(kind);
        }
    }
    None
}

fn copy_of(kind: &Kind) -> Kind
    ensures { result ≡ kind.now }
{
    Kind {
        title: kind.title,
        heads: kind.heads,
        columns: kind.columns,
        picture: kind.picture,
        words: kind.words,
    }
}

/// The kind of a sheet with these heads and columns.
#[tactic(auto, unfolding(crate::specs::Kinds::kind_named))]
pub fn kind_of(heads: &[Line], columns: &[Bytes]) -> Kind
    ensures { result ≡ kind_named (names_of heads.now) columns.now }
{
    match first_of(&kinds(), heads, columns) {
        Some(kind) => copy_of(kind),
        None => other_kind(),
    }
}

/// No two kinds have the same names.
#[tactic(auto, unfolding(crate::specs::Kinds::has_names, crate::specs::Kinds::kind_named, crate::specs::Kinds::kinds))]
pub fn each_kind_is_found_by_its_names()
    ensures { map (λ kind. kind_named kind.heads kind.columns) book.kinds ≡ book.kinds }
{}
