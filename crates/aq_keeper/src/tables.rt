//! The rows of the tables in memory.
ghost use Rattle.std.specs.Prelude.{◌≡◌, ◌+◌, ◌≤◌, true, false, [], ◌∷◌, ◌++◌, length, drop, reverse, vec_len, vec_capacity, IfSome, IfNone, MatchOption, IfOk, OnOk, OnErr};
ghost use Rattle.aq_rules.specs.Kept.RowChanges.{row_key, changed_key, key_before, with_row_change, with_row_changes};
ghost use Rattle.aq_keeper.specs.KeyView.{key_seen};
ghost use Rattle.aq_keeper.specs.Rising.{AreBefore, StartsFrom, without_first, put_rows, Rise, keys_of_rows, changes_in};

use crate::change::{ChangeContent, RowChange};
use crate::key::{KeyView, comes_before, is_same, table_of};
use crate::row::{Row, Rows};
use aq_base::Memory;
use std::alloc::Global;
use std::marker::Model;

/// The rows of the tables in one list, in the order of tables and keys. Contracts see the list of them.
#[derive(Drop)]
pub(crate) struct Tables {
    rows: Vec<Row>,
}

impl Model for Tables {
    ghost use Rattle.std.specs.Prelude.{List};
    ghost use Rattle.aq_rules.specs.Kept.Rows as the_rows;
    ghost use Rattle.aq_keeper.specs.Rising.{Rise, keys_of_rows};

    ghost Value = { List the_rows.Row };

    ghost view = { λ tables. tables.rows.items };

    ghost invariant = { λ tables. Rise (keys_of_rows tables.rows.items) };
}

impl Tables {
    ghost use Rattle.std.specs.Prelude.{◌≡◌, true, map, IfOk, OnOk, OnErr};
    ghost use Rattle.aq_rules.specs.Kept.RowChanges.{row_key, keys_rise, with_row_changes};

    /// The tables of these rows, which are in order and have distinct keys.
    pub(crate) fn of(rows: Vec<Row>) -> Tables
        requires { keys_rise (map row_key rows.items) ≡ true }
        ensures { result ≡ rows.items }
    {
        Tables { rows }
    }

    /// All rows once more.
    pub(crate) fn read(&self, alloc: Global) -> Result<Rows, Memory>
        ensures { IfOk result (λ rows. rows ≡ self.now) }
    {
        let mut copies = Vec::with_capacity(alloc, self.rows.len())?;
        add_copies(alloc, &mut copies, &self.rows)?;
        Ok(Rows::from_vec(copies))
    }

    /// Makes the changes of a batch. After want of memory the rows are as before.
    pub(crate) fn change(&mut self, alloc: Global, batch: &[RowChange]) -> Result<(), Memory>
        ensures ok { OnOk result (self.new ≡ with_row_changes self.old batch.now) }
        ensures err { OnErr result (self.new ≡ self.old) }
    {
        let changes = copies_of(alloc, batch)?;
        change_rows(alloc, &mut self.rows, changes)
    }
}

/// Adds the same rows once more.
pub(crate) fn add_copies(alloc: Global, copies: &mut Vec<Row>, rows: &[Row]) -> Result<(), Memory>
    ensures { OnOk result (copies.new.items ≡ copies.old.items ++ rows.now) }
{
    for place in 0..rows.len() {
        let row = &rows[place];
        copies.push(row.copy(alloc)?)?;
    }
    Ok(())
}

/// The same changes once more.
fn copies_of(alloc: Global, batch: &[RowChange]) -> Result<Vec<RowChange>, Memory>
    ensures { IfOk result (λ copies. copies.items ≡ batch.now) }
{
    let mut copies = Vec::with_capacity(alloc, batch.len())?;
    for place in 0..batch.len() {
        let change = &batch[place];
        copies.push(change.copy(alloc)?)?;
    }
    Ok(copies)
}

/// The changes of a table once more, by its number.
pub(crate) fn changes_in(
    alloc: Global,
    batch: &[RowChange],
    table: u8,
) -> Result<Vec<RowChange>, Memory>
    ensures { IfOk result (λ changes. changes.items ≡ changes_in table batch.now) }
{
    let mut changes = Vec::new(alloc);
    for place in 0..batch.len() {
        let change = &batch[place];
        if table_of(change.key()) == table {
            changes.push(change.copy(alloc)?)?;
        }
    }
    Ok(changes)
}

/// Makes changes. What memory that needs is taken before a row moves.
fn change_rows(alloc: Global, rows: &mut Vec<Row>, changes: Vec<RowChange>) -> Result<(), Memory>
    requires { Rise (keys_of_rows rows.old.items) }
    ensures ok { OnOk result (rows.new.items ≡ with_row_changes rows.old.items changes.items) }
    ensures err { OnErr result (rows.new.items ≡ rows.old.items) }
    ensures rise { Rise (keys_of_rows rows.new.items) }
{
    let later = later_for(alloc, rows, changes.len())?;
    make_all(rows, later, changes);
    Ok(())
}

/// Takes the memory that so many changes need: room among the rows, and the empty list of the later ones.
pub(crate) fn later_for(
    alloc: Global,
    rows: &mut Vec<Row>,
    changes: usize,
) -> Result<Vec<Row>, Memory>
    ensures rows { rows.new.items ≡ rows.old.items }
    ensures none { IfOk result (λ later. later.items ≡ []) }
    ensures room { OnOk result (vec_len rows.new + changes ≤ vec_capacity rows.new) }
    ensures later_room { IfOk result (λ later. vec_len rows.new + changes ≤ vec_capacity later) }
{
    rows.reserve(changes)?;
    Ok(Vec::with_capacity(alloc, rows.capacity())?)
}

/// Makes changes one after the other. The rows are cut at each change's place, and the cut moves to the
/// place of the next: once over the rows if keys rise, and twice in the order of a batch.
pub(crate) fn make_all(rows: &mut Vec<Row>, later: Vec<Row>, changes: Vec<RowChange>)
    requires none { later.items ≡ [] }
    requires room { vec_len rows.old + vec_len changes ≤ vec_capacity rows.old }
    requires later_room { vec_len rows.old + vec_len changes ≤ vec_capacity later }
    requires rise { Rise (keys_of_rows rows.old.items) }
    ensures made { rows.new.items ≡ with_row_changes rows.old.items changes.items }
    ensures rise { Rise (keys_of_rows rows.new.items) }
{
    let mut later = later;
    for change in changes {
        cut_at(rows, &mut later, change.key());
        make(rows, &mut later, change);
    }
    later.reverse();
    append(rows, later);
}

/// Cuts the rows at a key: those before it, and the later ones, which stand last first.
fn cut_at(rows: &mut Vec<Row>, later: &mut Vec<Row>, key: KeyView<'_>)
    requires room { vec_len rows.old + vec_len later.old ≤ vec_capacity rows.old }
    requires later_room { vec_len rows.old + vec_len later.old ≤ vec_capacity later.old }
    requires rise { Rise (keys_of_rows (rows.old.items ++ reverse later.old.items)) }
    ensures whole { rows.new.items ++ reverse later.new.items ≡ rows.old.items
        ++ reverse later.old.items }
    ensures before { AreBefore (key_seen key.entry) rows.new.items }
    ensures later { StartsFrom (key_seen key.entry) (reverse later.new.items) }
    ensures count { vec_len rows.new + vec_len later.new ≡ vec_len rows.old + vec_len later.old }
    ensures capacity { vec_capacity rows.old ≤ vec_capacity rows.new }
    ensures later_capacity { vec_capacity later.old ≤ vec_capacity later.new }
{
    move_later(rows, later, key);
    move_earlier(rows, later, key);
}

/// Moves the rows that do not come before a key to the later ones, which stand last first. No other row
/// is touched.
fn move_later(rows: &mut Vec<Row>, later: &mut Vec<Row>, key: KeyView<'_>)
    requires room { vec_len rows.old + vec_len later.old ≤ vec_capacity later.old }
    requires rise { Rise (keys_of_rows rows.old.items) }
    ensures whole { rows.new.items ++ reverse later.new.items ≡ rows.old.items
        ++ reverse later.old.items }
    ensures before { AreBefore (key_seen key.entry) rows.new.items }
    ensures moved { StartsFrom (key_seen key.entry) (drop (length rows.new.items) rows.old.items) }
    ensures count { vec_len rows.new + vec_len later.new ≡ vec_len rows.old + vec_len later.old }
    ensures capacity { vec_capacity rows.new ≡ vec_capacity rows.old }
    ensures later_capacity { vec_capacity later.old ≤ vec_capacity later.new }
{
    for _ in 0..rows.len() {
        match next_later(rows, key) {
            Some(row) => push(later, row),
            None => return,
        }
    }
}

/// Takes the last row if it does not come before a key.
fn next_later(rows: &mut Vec<Row>, key: KeyView<'_>) -> Option<Row>
    requires { Rise (keys_of_rows rows.old.items) }
    ensures some { IfSome result (λ row. (rows.old.items ≡ rows.new.items ++ row ∷ [])
        × (key_before (row_key row) (key_seen key.entry) ≡ false)) }
    ensures none { IfNone result
        ((rows.new.items ≡ rows.old.items) × AreBefore (key_seen key.entry) rows.old.items) }
    ensures count { MatchOption result (vec_len rows.new ≡ vec_len rows.old)
        (λ _. vec_len rows.new + 1 ≡ vec_len rows.old) }
    ensures capacity { vec_capacity rows.new ≡ vec_capacity rows.old }
{
    let is_earlier = comes_before(rows.last()?.key(), key);
    if is_earlier { None } else { rows.pop() }
}

/// Moves the rows that come before a key to those that do. The later ones stand last first.
fn move_earlier(rows: &mut Vec<Row>, later: &mut Vec<Row>, key: KeyView<'_>)
    requires room { vec_len rows.old + vec_len later.old ≤ vec_capacity rows.old }
    requires before { AreBefore (key_seen key) rows.old.items }
    ensures whole { rows.new.items ++ reverse later.new.items ≡ rows.old.items
        ++ reverse later.old.items }
    ensures before { AreBefore (key_seen key.entry) rows.new.items }
    ensures later { StartsFrom (key_seen key.entry) (reverse later.new.items) }
    ensures count { vec_len rows.new + vec_len later.new ≡ vec_len rows.old + vec_len later.old }
    ensures capacity { vec_capacity rows.old ≤ vec_capacity rows.new }
    ensures later_capacity { vec_capacity later.new ≡ vec_capacity later.old }
{
    for _ in 0..later.len() {
        match next_earlier(later, key) {
            Some(row) => push(rows, row),
            None => return,
        }
    }
}

/// Takes the next of the later rows, which stand last first, if it comes before a key.
fn next_earlier(later: &mut Vec<Row>, key: KeyView<'_>) -> Option<Row>
    ensures some { IfSome result (λ row. (reverse later.old.items ≡ row ∷ reverse later.new.items)
        × (key_before (row_key row) (key_seen key.entry) ≡ true)) }
    ensures none { IfNone result ((later.new.items ≡ later.old.items)
        × StartsFrom (key_seen key.entry) (reverse later.old.items)) }
    ensures count { MatchOption result (vec_len later.new ≡ vec_len later.old)
        (λ _. vec_len later.new + 1 ≡ vec_len later.old) }
    ensures capacity { vec_capacity later.new ≡ vec_capacity later.old }
{
    let row = later.last()?;
    if comes_before(row.key(), key) {
        later.pop()
    } else {
        None
    }
}

/// Makes a change in rows that are cut at its key. The later ones stand last first.
fn make(rows: &mut Vec<Row>, later: &mut Vec<Row>, change: RowChange)
    requires room { vec_len rows.old + 1 ≤ vec_capacity rows.old }
    requires rise { Rise (keys_of_rows (rows.old.items ++ reverse later.old.items)) }
    requires before { AreBefore (changed_key change) rows.old.items }
    requires later { StartsFrom (changed_key change) (reverse later.old.items) }
    ensures made { rows.new.items ++ reverse later.new.items
        ≡ with_row_change (rows.old.items ++ reverse later.old.items) change }
    ensures rise { Rise (keys_of_rows (rows.new.items ++ reverse later.new.items)) }
    ensures count { vec_len rows.new + vec_len later.new ≤ vec_len rows.old + vec_len later.old
        + 1 }
    ensures capacity { vec_capacity rows.old ≤ vec_capacity rows.new }
    ensures later_capacity { vec_capacity later.new ≡ vec_capacity later.old }
{
    drop_same(later, change.key());
    put(rows, change);
}

/// Adds the row that a change puts, for which there is room.
fn put(rows: &mut Vec<Row>, change: RowChange)
    requires { vec_len rows.old + 1 ≤ vec_capacity rows.old }
    ensures rows { rows.new.items ≡ rows.old.items ++ put_rows change }
    ensures count { vec_len rows.new ≤ vec_len rows.old + 1 }
    ensures capacity { vec_capacity rows.old ≤ vec_capacity rows.new }
{
    match change.content {
        ChangeContent::Put(row) => push(rows, row),
        ChangeContent::Drop(_key) => {}
    }
}

/// Drops the next of the later rows, which stand last first, if it has a key.
fn drop_same(later: &mut Vec<Row>, key: KeyView<'_>)
    ensures rest { reverse later.new.items
        ≡ without_first (key_seen key.entry) (reverse later.old.items) }
    ensures len { vec_len later.new ≤ vec_len later.old }
    ensures capacity { vec_capacity later.new ≡ vec_capacity later.old }
{
    let Some(row) = later.last() else {
        return;
    };
    if is_same(row.key(), key) {
        let _dropped = later.pop();
    }
}

/// Adds rows for which there is room.
fn append(rows: &mut Vec<Row>, later: Vec<Row>)
    requires { vec_len rows.old + vec_len later ≤ vec_capacity rows.old }
    ensures { rows.new.items ≡ rows.old.items ++ later.items }
{
    let mut later = later;
    if rows.append(&mut later).is_err() {
        unreachable!()
    }
}

/// Adds a row for which there is room.
fn push(rows: &mut Vec<Row>, row: Row)
    requires { vec_len rows.old + 1 ≤ vec_capacity rows.old }
    ensures items { rows.new.items ≡ rows.old.items ++ row ∷ [] }
    ensures len { vec_len rows.new ≡ vec_len rows.old + 1 }
    ensures capacity { vec_capacity rows.old ≤ vec_capacity rows.new }
{
    if rows.push(row).is_err() {
        unreachable!()
    }
}
