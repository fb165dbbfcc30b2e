//! A journal over a disk in memory, and what is left if its calls fail or the machine stops.
use aq_base::{Bytes, Memory};
use aq_journal::{JournalKeeper, MemoryDisk};
use aq_keeper::{Keeper, LoadRow, Row, RowChange, do_keys_rise};
use std::alloc::Global;
use std::test::Fail;

/// The row of a load of which nothing is kept but its number and its digest.
fn load(alloc: Global, number: i64) -> Result<Row, Memory> {
    Ok(Row::load(LoadRow {
        number,
        digest: Bytes::from_vec([9; 32].to_vec(alloc)?),
        lines: 0,
        accepted: 0,
        listed: Bytes::new(alloc),
        rest: Bytes::new(alloc),
    }))
}

/// Whether a load was committed.
fn commit(
    alloc: Global,
    keeper: &mut JournalKeeper<MemoryDisk>,
    number: i64,
) -> Result<bool, Memory> {
    let mut batch = Vec::new(alloc);
    batch.push(RowChange::put(load(alloc, number)?))?;
    if !do_keys_rise(&batch) {
        return Ok(false);
    }
    Ok(keeper.commit(alloc, &batch).is_ok())
}

/// How many rows a journal with these bytes has, if it is one.
fn rows_in(alloc: Global, bytes: &[u8]) -> Result<Option<usize>, Memory> {
    let disk = MemoryDisk::new(bytes.to_vec(alloc)?, Vec::new(alloc));
    let mut keeper = JournalKeeper::new(disk);
    match keeper.read_all(alloc) {
        Ok(rows) => Ok(Some(rows.as_slice().len())),
        Err(_) => Ok(None),
    }
}

fn does_the_first_load_make_88_bytes(alloc: Global) -> Result<bool, Memory> {
    let disk = MemoryDisk::new(Vec::new(alloc), Vec::new(alloc));
    let mut keeper = JournalKeeper::new(disk);
    let is_done = commit(alloc, &mut keeper, 5)?;
    let bytes = keeper.disk().bytes();
    let front = b"AIRDVJ01\x01\0\0\0\x4A\0\0\0\x01\0\x02\0\0\0\0\0\0\0\x05\0\0\0\x20\x09";
    Ok(is_done && bytes.len() == 88 && bytes.starts_with(front) && bytes.ends_with(&[0; 25]))
}

fn are_other_versions_no_journal(alloc: Global) -> Result<bool, Memory> {
    let is_refused = rows_in(alloc, b"AIRDVJ02\0\0")?.is_none();
    let is_cut = rows_in(alloc, b"AIRDVJ01\x01\0")?.is_none();
    Ok(is_refused && is_cut && rows_in(alloc, b"AIRDVJ01\0\0")? == Some(0))
}

/// The sync fails after the gate was opened: the load is there once the file is opened again, and a later
/// commit leaves it out.
fn is_a_gate_shut_whose_sync_failed(alloc: Global) -> Result<bool, Memory> {
    let disk = MemoryDisk::new(Vec::new(alloc), vec![in alloc; 8]?);
    let mut keeper = JournalKeeper::new(disk);
    let is_refused = !commit(alloc, &mut keeper, 5)?;
    let is_left = rows_in(alloc, keeper.disk().bytes())? == Some(1);
    let is_done = commit(alloc, &mut keeper, 6)?;
    let bytes = keeper.disk().bytes();
    let is_out = rows_in(alloc, bytes)? == Some(1) && bytes.get(26) == Some(&6);
    Ok(is_refused && is_left && is_done && is_out)
}

/// Two loads are committed, and from a call on the disk fails. A load that was acknowledged is there once the
/// file is opened again; at the sync behind its gate it is there too.
fn does_a_stop_leave_what_is_acknowledged(alloc: Global, stop: u64) -> Result<bool, Memory> {
    let mut failing = Vec::new(alloc);
    for call in stop..stop.saturating_add(20) {
        failing.push(call)?;
    }
    let mut keeper = JournalKeeper::new(MemoryDisk::new(Vec::new(alloc), failing));
    let is_first = commit(alloc, &mut keeper, 5)?;
    let is_second = commit(alloc, &mut keeper, 6)?;
    let left = usize::from(stop >= 8) + usize::from(stop >= 12);
    Ok(
        is_first == (stop >= 9)
            && is_second == (stop >= 13)
            && rows_in(alloc, keeper.disk().bytes())? == Some(left),
    )
}

/// Once its tables are let go the keeper answers no call, and its bytes are left alone.
fn does_let_go_end_all_calls(alloc: Global) -> Result<bool, Memory> {
    let mut keeper = JournalKeeper::new(MemoryDisk::new(Vec::new(alloc), Vec::new(alloc)));
    let is_done = commit(alloc, &mut keeper, 5)?;
    keeper.let_go();
    let is_refused = !commit(alloc, &mut keeper, 6)? && keeper.read_all(alloc).is_err();
    Ok(is_done && is_refused && rows_in(alloc, keeper.disk().bytes())? == Some(1))
}

#[test]
fn what_is_acknowledged_is_kept(rt: HostRuntime) -> Result<(), Fail> {
    let alloc = rt.alloc();
    assert!(rt; does_the_first_load_make_88_bytes(alloc)?);
    assert!(rt; are_other_versions_no_journal(alloc)?);
    assert!(rt; is_a_gate_shut_whose_sync_failed(alloc)?);
    assert!(rt; does_let_go_end_all_calls(alloc)?);
    for stop in 1..14 {
        assert!(rt; does_a_stop_leave_what_is_acknowledged(alloc, stop)?);
    }
    Ok(())
}
