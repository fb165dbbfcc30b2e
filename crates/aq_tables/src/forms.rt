//! Whether a table that stands has the form of one of ours.
ghost use Rattle.std.specs.Prelude.{◌≡◌, ◌==◌, ◌<◌, ◌^◌, ◌↔◌, [], ◌∷◌, length, filter, map, false, true, IsTrue, IfOk, IfErr};
ghost use Rattle.sqlite.specs.declared.error.ErrorCode.TheVariants.{NotADatabase};
ghost use Rattle.sqlite.specs.declared.error.Error.TheVariants.{SqliteFailure};
ghost use Rattle.sqlite.specs.declared.types.Value.TheVariants.{Null};
ghost use Rattle.sqlite.specs.Collation.TheVariants.{Binary};
ghost use Rattle.sqlite_value.specs.Keys.{plain};
ghost use Rattle.aq_tables.specs.Forms.{HasKey, HasNoMore, column_in, form_in, table_of};
ghost use Rattle.aq_tables.specs.Made.{IsMisformed, IsMissing};

use sqlite::{Error, ErrorCode};
use sqlite_schema::schema::{Column, Kind, Schema, Stamps, Table};
use sqlite_value::keys::Collation;
use sqlite_value::value::Value;

/// A column of ours. Each is strict, has no default and is compared by its bytes.
#[derive(Clone, Copy)]
pub(crate) struct ColumnForm<'a> {
    pub(crate) name: &'a str,
    pub(crate) kind: Kind,
    pub(crate) not_null: bool,
}

/// What the CREATE of a table defines, but for its tree.
#[derive(Clone, Copy)]
pub(crate) struct TableForm<'a> {
    pub(crate) name: &'a str,
    pub(crate) columns: &'a [ColumnForm<'a>],
    /// The column that is the rowid.
    pub(crate) key: Option<usize>,
    /// The places of the primary key in a row.
    pub(crate) primary: &'a [usize],
}

/// Whether a column is strict, has no default and is compared by its bytes.
fn is_plain(column: &Column) -> bool
    ensures { IsTrue result ↔ ((column.now.is_strict ≡ true) × (column.now.default ≡ Null) × (column.now.collation ≡ Binary)) }
{
    column.is_strict
        && matches!(column.default, Value::Null)
        && matches!(column.collation, Collation::Binary)
}

fn is_column(column: &Column, form: &ColumnForm<'_>) -> bool
    ensures { IsTrue result ↔ (column.now ≡ column_in form.now) }
{
    column.name.as_slice() == form.name.as_bytes()
        && column.kind == form.kind
        && column.not_null == form.not_null
        && is_plain(column)
}

fn are_columns(columns: &[Column], forms: &[ColumnForm<'_>]) -> bool
    ensures { IsTrue result ↔ (columns.now ≡ map column_in forms.now) }
{
    if columns.len() != forms.len() {
        return false;
    }
    for place in 0..forms.len() {
        if !is_column(&columns[place], &forms[place]) {
            return false;
        }
    }
    true
}

fn are_same(a: &[usize], b: &[usize]) -> bool
    ensures { IsTrue result ↔ (a.now ≡ b.now) }
{
    a == b
}

/// Whether these places are the one UNIQUE.
fn is_sole_unique(table: &Table, places: &[usize]) -> bool
    ensures { IsTrue result ↔ (table.now.uniques ≡ places.now ∷ []) }
{
    let [unique] = table.uniques.as_slice() else {
        return false;
    };
    are_same(unique.as_slice(), places)
}

/// Whether one UNIQUE alone has an order, and that is plain.
fn has_plain_order(table: &Table) -> bool
    ensures { IsTrue result ↔ (table.now.orders ≡ plain ∷ []) }
{
    let [order] = table.orders.as_slice() else {
        return false;
    };
    order.digits == 0
}

fn has_key(table: &Table, form: &TableForm<'_>) -> bool
    ensures { IsTrue result ↔ HasKey table.now (form_in form.now) }
{
    if table.key != form.key || !are_same(table.primary.as_slice(), form.primary) {
        return false;
    }
    if form.key.is_some() {
        table.uniques.is_empty() && table.orders.is_empty()
    } else {
        is_sole_unique(table, form.primary) && has_plain_order(table)
    }
}

fn is_untimed(stamps: &Stamps) -> bool
    ensures { IsTrue result ↔ (stamps.now ≡ record { places = []; terms = []; formats = [] }) }
{
    stamps.places.is_empty() && stamps.terms.roots.is_empty() && stamps.formats.is_empty()
}

/// Whether a table has no CHECK, no foreign key, no default that is computed and no AUTOINCREMENT.
fn has_no_more(table: &Table) -> bool
    ensures { IsTrue result ↔ HasNoMore table.now }
{
    table.checks.roots.is_empty()
        && table.references.is_empty()
        && table.computed.is_empty()
        && is_untimed(&table.stamps)
        && !table.is_counted
}

fn has_form(table: &Table, form: &TableForm<'_>) -> bool
    ensures { IsTrue result ↔ (table.now ≡ table_of (form_in form.now) table.now.tree) }
{
    table.name.as_slice() == form.name.as_bytes()
        && are_columns(table.columns.as_slice(), form.columns)
        && has_key(table, form)
        && has_no_more(table)
}

/// How many tables have a tree.
fn count_of(tables: &[Table], tree: &u32) -> usize
    ensures { result ≡ length (filter (λ t. t.tree == tree.now) tables.now) }
{
    tables.iter().filter(|t| t.tree == *tree).count()
}

/// Whether one table alone has a tree, which is none that a query makes up.
fn is_sole(tables: &[Table], tree: &u32) -> bool
    ensures { IsTrue result ↔ ((length (filter (λ t. t.tree == tree.now) tables.now) ≡ 1) × (tree.now < 2 ^ 31)) }
{
    count_of(tables, tree) == 1 && *tree < 0x8000_0000
}

/// Whether a table has a form, and alone has its tree.
fn is_ours(tables: &[Table], table: &Table, form: &TableForm<'_>) -> bool
    ensures { IsTrue result ↔ ((table.now ≡ table_of (form_in form.now) table.now.tree) × (length (filter (λ t. t.tree == table.now.tree) tables.now) ≡ 1) × (table.now.tree < 2 ^ 31)) }
{
    has_form(table, form) && is_sole(tables, &table.tree)
}

/// Whether no table has the name of a form. It is refused if one has it that has another form, or whose
/// tree another table has.
pub(crate) fn is_missing(schema: &Schema, form: &TableForm<'_>) -> Result<bool, Error>
    ensures missing { IfOk result (λ missing. IsMissing missing schema.now (form_in form.now)) }
    ensures refused { IfErr result (λ error. (error ≡ SqliteFailure NotADatabase) × IsMisformed schema.now (form_in form.now)) }
{
    let Some(at) = schema.table_named(form.name.as_bytes()) else {
        return Ok(true);
    };
    let tables = schema.tables.as_slice();
    let Some(table) = tables.get(at) else {
        return Err(Error::SqliteFailure(ErrorCode::NotADatabase));
    };
    if is_ours(tables, table, form) {
        Ok(false)
    } else {
        Err(Error::SqliteFailure(ErrorCode::NotADatabase))
    }
}
