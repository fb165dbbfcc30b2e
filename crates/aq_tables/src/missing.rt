//! Which of the tables are missing, and whose database that is.
ghost use Rattle.std.specs.Prelude.{◌≡◌, ◌&&◌, not, true, false, is_some, IsTrue, IfOk, IfErr, OnOk};
ghost use Rattle.std.specs.List.{list_any};
ghost use Rattle.aq_tables.specs.Forms.{column_in, column_of, loads_form, observations_form, records_form, second_form, third_form};
ghost use Rattle.sqlite.specs.declared.error.ErrorCode.TheVariants.{NotADatabase};
ghost use Rattle.sqlite.specs.declared.error.Error.TheVariants.{SqliteFailure};
ghost use Rattle.aq_tables.specs.declared.missing.Missing.{Missing};
ghost use Rattle.aq_tables.specs.Made.{AreMissing, IsMisformed, IsMissing, IsOffice, has_tables, has_view, is_whole};

use crate::forms::{ColumnForm, TableForm, is_missing};
use sqlite::{Error, ErrorCode};
use sqlite_schema::schema::{Kind, Schema, View};

/// The tables that are missing.
#[derive(Clone, Copy)]
pub(crate) struct Missing {
    pub(crate) records: bool,
    pub(crate) observations: bool,
    pub(crate) loads: bool,
    pub(crate) second: bool,
    pub(crate) third: bool,
}

/// A column that is NOT NULL.
fn required(name: &'static str, kind: Kind) -> ColumnForm<'static>
    ensures { column_in result ≡ column_of name.now kind true }
{
    ColumnForm {
        name,
        kind,
        not_null: true,
    }
}

/// A column that may be NULL.
fn optional(name: &'static str, kind: Kind) -> ColumnForm<'static>
    ensures { column_in result ≡ column_of name.now kind false }
{
    ColumnForm {
        name,
        kind,
        not_null: false,
    }
}

fn are_records_missing(schema: &Schema) -> Result<bool, Error>
    ensures missing { IfOk result (λ missing. IsMissing missing schema.now records_form) }
    ensures refused { IfErr result (λ error. (error ≡ SqliteFailure NotADatabase) × IsMisformed schema.now records_form) }
{
    let columns = [
        required("kind", Kind::Integer),
        required("rowkey", Kind::Text),
        required("line", Kind::Text),
    ];
    let form = TableForm {
        name: "records",
        columns: &columns,
        key: None,
        primary: &[1, 2],
    };
    is_missing(schema, &form)
}

fn are_observations_missing(schema: &Schema) -> Result<bool, Error>
    ensures missing { IfOk result (λ missing. IsMissing missing schema.now observations_form) }
    ensures refused { IfErr result (λ error. (error ≡ SqliteFailure NotADatabase) × IsMisformed schema.now observations_form) }
{
    let columns = [
        required("site", Kind::Integer),
        required("pollutant", Kind::Integer),
        required("poc", Kind::Integer),
        required("hour", Kind::Integer),
        optional("value", Kind::Integer),
        required("nullcode", Kind::Text),
        required("quals", Kind::Text),
    ];
    let form = TableForm {
        name: "observations",
        columns: &columns,
        key: None,
        primary: &[1, 2, 3, 4],
    };
    is_missing(schema, &form)
}

fn are_loads_missing(schema: &Schema) -> Result<bool, Error>
    ensures missing { IfOk result (λ missing. IsMissing missing schema.now loads_form) }
    ensures refused { IfErr result (λ error. (error ≡ SqliteFailure NotADatabase) × IsMisformed schema.now loads_form) }
{
    let columns = [
        optional("number", Kind::Integer),
        required("digest", Kind::Blob),
        required("lines", Kind::Integer),
        required("accepted", Kind::Integer),
        required("listed", Kind::Text),
        required("rest", Kind::Text),
    ];
    let form = TableForm {
        name: "loads",
        columns: &columns,
        key: Some(0),
        primary: &[0],
    };
    is_missing(schema, &form)
}

fn are_second_missing(schema: &Schema) -> Result<bool, Error>
    ensures missing { IfOk result (λ missing. IsMissing missing schema.now second_form) }
    ensures refused { IfErr result (λ error. (error ≡ SqliteFailure NotADatabase) × IsMisformed schema.now second_form) }
{
    let columns = [
        required("site", Kind::Integer),
        required("pollutant", Kind::Integer),
        required("poc", Kind::Integer),
        required("hour", Kind::Integer),
        optional("value", Kind::Integer),
        optional("method", Kind::Integer),
        required("nullcode", Kind::Text),
        required("quals", Kind::Text),
    ];
    let form = TableForm {
        name: "observations2",
        columns: &columns,
        key: None,
        primary: &[1, 2, 3, 4],
    };
    is_missing(schema, &form)
}

fn are_third_missing(schema: &Schema) -> Result<bool, Error>
    ensures missing { IfOk result (λ missing. IsMissing missing schema.now third_form) }
    ensures refused { IfErr result (λ error. (error ≡ SqliteFailure NotADatabase) × IsMisformed schema.now third_form) }
{
    let columns = [
        optional("id", Kind::Integer),
        optional("value", Kind::Integer),
        optional("method", Kind::Integer),
        required("nullcode", Kind::Text),
        required("quals", Kind::Text),
    ];
    let form = TableForm {
        name: "observations3",
        columns: &columns,
        key: Some(0),
        primary: &[0],
    };
    is_missing(schema, &form)
}

/// Whether one of these is a table that is kept aside, or belongs to one.
fn is_any_aside(views: &[View]) -> bool
    ensures { result ≡ list_any (λ v. is_some v.foreign) views.now }
{
    views.iter().any(|v| v.foreign.is_some())
}

fn has_tables(schema: &Schema) -> bool
    ensures { result ≡ has_tables schema.now }
{
    schema.tables.len() != 0 || is_any_aside(schema.views.as_slice())
}

/// Whether a view has the name that the table of before had.
fn has_view(schema: &Schema) -> bool
    ensures { result ≡ has_view schema.now }
{
    schema.view_named(b"observations2".as_slice()).is_some()
}

fn each_missing(schema: &Schema) -> Result<Missing, Error>
    ensures missing { IfOk result (λ missing. AreMissing missing schema.now) }
    ensures refused { IfErr result (λ error. (error ≡ SqliteFailure NotADatabase) × ((missing : Missing) → AreMissing missing schema.now → ⊥)) }
{
    Ok(Missing {
        records: are_records_missing(schema)?,
        observations: are_observations_missing(schema)?,
        loads: are_loads_missing(schema)?,
        second: are_second_missing(schema)?,
        third: are_third_missing(schema)?,
    })
}

/// Whether the tables of an earlier program stand, and not that of today.
fn are_of_before(missing: &Missing) -> bool
    ensures { result ≡ (not missing.now.records && not missing.now.observations && not missing.now.loads && missing.now.third) }
{
    !missing.records && !missing.observations && !missing.loads && missing.third
}

/// Whether the tables of today stand, and not that of before.
fn are_of_today(missing: &Missing) -> bool
    ensures { result ≡ (not missing.now.records && not missing.now.loads && not missing.now.third && missing.now.second) }
{
    !missing.records && !missing.loads && !missing.third && missing.second
}

/// Whether the tables are those of an office, of which none is missing, or of nobody.
fn are_whole(missing: &Missing, schema: &Schema) -> bool
    ensures { AreMissing missing.now schema.now → result ≡ is_whole schema.now }
{
    if are_of_today(missing) {
        return true;
    }
    // A view that has the name of the table of before is of today alone.
    if has_view(schema) {
        return false;
    }
    if !has_tables(schema) {
        return true;
    }
    are_of_before(missing)
}

/// The tables of ours that are missing. It is refused if one that stands has another form, and if they are
/// neither those of an office nor of nobody: then some are missing, or the database is another program's.
pub(crate) fn missing_of(schema: &Schema) -> Result<Missing, Error>
    ensures missing { IfOk result (λ missing. AreMissing missing schema.now) }
    ensures whole { OnOk result (IsTrue (is_whole schema.now)) }
    ensures refused { IfErr result (λ error. (error ≡ SqliteFailure NotADatabase) × (IsOffice schema.now → ⊥)) }
{
    let missing = each_missing(schema)?;
    if are_whole(&missing, schema) {
        Ok(missing)
    } else {
        Err(Error::SqliteFailure(ErrorCode::NotADatabase))
    }
}
