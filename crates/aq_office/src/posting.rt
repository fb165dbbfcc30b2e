//! Loads that are posted: checked, staged, committed, and then taken.
ghost use Rattle.std.specs.Prelude.{◌≡◌, ◌+◌, ◌<◌, ◌≤◌, true, map, IfOk, OnErr, OnOk};
ghost use Rattle.sha2.specs.Sha256.{sha256};
ghost use Rattle.aq_rules.specs.Kept.Reach.{cost};
ghost use Rattle.aq_rules.specs.Kept.RowChanges.{batch_rises, changed_key};
ghost use Rattle.aq_rules.specs.Office.Load.{New, decide, load, posted, reply};
ghost use Rattle.aq_rules.specs.Office.Office.{IsOffice, load_at};
ghost use Rattle.aq_keeper.specs.Standing.{standing_of};
ghost use Rattle.aq_book.specs.Staged.{Fits, office_with};
ghost use Rattle.aq_office.specs.Posting.{Commits, IsPosted, IsPostedShown, IsReady, LeavesTables, LosesLoad, TakenBy, standing_answer};
ghost use Rattle.aq_office.specs.declared.posting.Posted.TheVariants.{Done};

use aq_base::{Memory, Steps};
use aq_book::{Book, LoadCheck, RowChanges};
use aq_forms::Body;
use aq_keeper::{Keeper, KeeperFault, RowChange};
use aq_reports::load_sheet;
use aq_rules::kept::row_changes::{batch_gives_the_rows_after, batch_is_in_order};
use aq_rules::office::valid_load::an_office_of_nothing_is_valid;
use aq_rules::shown::well_formed::{answers_are_well_formed, other_sheets_are_well_formed};
use aq_sheets::Sheet;
use aq_staging::Staged;
use sha2::{Digest, Sha256};
use std::alloc::Global;
use std::marker::Brand;
use std::sync::ledger::{Blank, Ledger};

/// What became of a load that was posted.
#[derive(Debug, Drop)]
pub enum Posted {
    /// It stands: it was taken, or it had been before. This is the sheet of its reply.
    Done(Sheet),
    /// Its number is kept with another digest than the one that was sent.
    Conflict { kept: [u8; 32], sent: [u8; 32] },
    /// As many loads stand as may.
    Full,
    /// The keeper failed, and nothing was taken.
    Failed,
}

/// What a new load needs: what it makes of the book, its changes of rows, and the sheet of its reply.
#[derive(Drop)]
struct ReadyLoad {
    staged: Staged,
    batch: RowChanges,
    sheet: Sheet,
}

/// Posts a load under a number from 1 on: a load that is taken is committed first. The digest of a load is
/// the SHA-256 of its body. It makes at most the steps that the change from the one office to the other
/// costs. After `Memory` the book is as before or nothing stands in it, and the keeper's tables are as before
/// or have the load.
pub fn post<K: Keeper, L: Ledger>(
    alloc: Global,
    book: &mut Book,
    keeper: &mut K,
    number: u32,
    body: &Body<'_>,
    steps: &mut Steps<L>,
) -> Result<Posted, Memory>
    requires valid { IsOffice book.old }
    ensures posted { IfOk result (λ answer. IsPosted (posted book.old number (sha256 body.now) body.now)
        (standing_of book.old (K.seen keeper.old))
        (standing_of book.new (K.seen keeper.new)) answer) }
    ensures shown { IfOk result IsPostedShown }
    ensures valid { IsOffice book.new }
    ensures held { (K.seen keeper.new).is_held ≡ (K.seen keeper.old).is_held }
    ensures lost { OnErr result (LosesLoad number (sha256 body.now) body.now
        (standing_of book.old (K.seen keeper.old))
        (standing_of book.old (K.seen keeper.new))) }
    ensures steps { steps.new
        ≤ steps.old + cost book.old (load book.old number (sha256 body.now) body.now) }
{
    let digest = Sha256::digest(body.text());
    match book.check(number, &digest) {
        LoadCheck::New => post_new(alloc, book, keeper, number, digest, body, steps),
        LoadCheck::Repeat | LoadCheck::Conflict | LoadCheck::Full => {
            standing_answer(alloc, book, number, digest)
        }
    }
}

/// Posts a load as `post` does, on a counter of its own, which nobody reads.
pub fn post_uncounted<K: Keeper>(
    alloc: Global,
    book: &mut Book,
    keeper: &mut K,
    number: u32,
    body: &Body<'_>,
) -> Result<Posted, Memory>
    requires valid { IsOffice book.old }
    ensures posted { IfOk result (λ answer. IsPosted (posted book.old number (sha256 body.now) body.now)
        (standing_of book.old (K.seen keeper.old))
        (standing_of book.new (K.seen keeper.new)) answer) }
    ensures shown { IfOk result IsPostedShown }
    ensures valid { IsOffice book.new }
    ensures held { (K.seen keeper.new).is_held ≡ (K.seen keeper.old).is_held }
    ensures lost { OnErr result (LosesLoad number (sha256 body.now) body.now
        (standing_of book.old (K.seen keeper.old))
        (standing_of book.old (K.seen keeper.new))) }
{
    counted::<K, Brand>(alloc, book, keeper, number, body, Blank::new(1))
}

fn counted<K: Keeper, L: Ledger>(
    alloc: Global,
    book: &mut Book,
    keeper: &mut K,
    number: u32,
    body: &Body<'_>,
    blank: Blank,
) -> Result<Posted, Memory>
    requires name { blank.name ≡ L.name }
    requires parts { blank.parts ≡ L.parts }
    requires some { 0 < L.parts }
    requires valid { IsOffice book.old }
    ensures posted { IfOk result (λ answer. IsPosted (posted book.old number (sha256 body.now) body.now)
        (standing_of book.old (K.seen keeper.old))
        (standing_of book.new (K.seen keeper.new)) answer) }
    ensures shown { IfOk result IsPostedShown }
    ensures valid { IsOffice book.new }
    ensures held { (K.seen keeper.new).is_held ≡ (K.seen keeper.old).is_held }
    ensures lost { OnErr result (LosesLoad number (sha256 body.now) body.now
        (standing_of book.old (K.seen keeper.old))
        (standing_of book.old (K.seen keeper.new))) }
{
    let mut steps = Steps::<L>::new(blank);
    post(alloc, book, keeper, number, body, &mut steps)
}

/// The answer to a load that is not new, by what stands under its number.
fn standing_answer(
    alloc: Global,
    book: &Book,
    number: u32,
    sent: [u8; 32],
) -> Result<Posted, Memory>
    requires valid { IsOffice book.now }
    ensures answer { IfOk result
        (λ answer. answer ≡ standing_answer (load_at book.now number) sent) }
    ensures shown { IfOk result (λ answer. IsPostedShown answer) }
{
    answers_are_well_formed();
    let Some(kept) = book.digest_of(number) else {
        return Ok(Posted::Full);
    };
    match book.reply_of(number) {
        Some(reply) if kept == sent => Ok(Posted::Done(load_sheet(alloc, reply)?)),
        _ => Ok(Posted::Conflict { kept, sent }),
    }
}

/// Posts a new load: makes it ready, commits its changes, and takes it.
fn post_new<K: Keeper, L: Ledger>(
    alloc: Global,
    book: &mut Book,
    keeper: &mut K,
    number: u32,
    digest: [u8; 32],
    body: &Body<'_>,
    steps: &mut Steps<L>,
) -> Result<Posted, Memory>
    requires new { decide book.old number digest ≡ New }
    requires valid { IsOffice book.old }
    ensures taken { IfOk result (λ answer. TakenBy answer (reply book.old number body.now)
        (load book.old number digest body.now)
        (standing_of book.old (K.seen keeper.old))
        (standing_of book.new (K.seen keeper.new))) }
    ensures shown { IfOk result IsPostedShown }
    ensures valid { IsOffice book.new }
    ensures held { (K.seen keeper.new).is_held ≡ (K.seen keeper.old).is_held }
    ensures lost { OnErr result (LosesLoad number digest body.now
        (standing_of book.old (K.seen keeper.old))
        (standing_of book.old (K.seen keeper.new))) }
    ensures steps { steps.new
        ≤ steps.old + cost book.old (load book.old number digest body.now) }
{
    // The proof learns that the body has few lines.
    body.line_count();
    let ready = made_ready(alloc, book, number, digest, body)?;
    let stands = commit(alloc, keeper, ready.batch.as_slice())?;
    if !stands {
        return Ok(Posted::Failed);
    }
    take(book, ready, steps)
}

/// Stages a new load, with its changes of rows and the sheet of its reply. All that takes memory before the
/// commit is made here, so that the tables are as they were if it is not to be had.
fn made_ready(
    alloc: Global,
    book: &Book,
    number: u32,
    digest: [u8; 32],
    body: &Body<'_>,
) -> Result<ReadyLoad, Memory>
    requires new { decide book.now number digest ≡ New }
    requires valid { IsOffice book.now }
    ensures { IfOk result (IsReady book.now number digest body.now) }
{
    batch_is_in_order();
    batch_gives_the_rows_after();
    other_sheets_are_well_formed();
    // The proof learns that the body has few lines.
    body.line_count();
    let staged = book.stage(alloc, number, digest, body)?;
    let batch = book.batch(alloc, &staged)?;
    let sheet = load_sheet(alloc, staged.reply())?;
    Ok(ReadyLoad {
        staged,
        batch,
        sheet,
    })
}

/// Commits changes of rows, and says whether they stand; if not, the keeper failed.
fn commit<K: Keeper>(alloc: Global, keeper: &mut K, batch: &[RowChange]) -> Result<bool, Memory>
    requires { batch_rises (map changed_key batch.now) ≡ true }
    ensures done { IfOk result
        (λ done. Commits done batch.now (K.seen keeper.old) (K.seen keeper.new)) }
    ensures lost { OnErr result (LeavesTables (K.seen keeper.old) (K.seen keeper.new)) }
    ensures held { (K.seen keeper.new).is_held ≡ (K.seen keeper.old).is_held }
{
    match keeper.commit(alloc, batch) {
        Ok(()) => Ok(true),
        Err(KeeperFault::Failed) => Ok(false),
        Err(KeeperFault::Memory) => Err(Memory),
    }
}

/// Takes a load that is ready, and answers with the sheet of its reply. After want of memory nothing stands
/// in the book.
fn take<L: Ledger>(
    book: &mut Book,
    ready: ReadyLoad,
    steps: &mut Steps<L>,
) -> Result<Posted, Memory>
    requires { Fits ready.staged book.old }
    ensures answer { IfOk result (λ answer. answer ≡ Done ready.sheet) }
    ensures book { OnOk result (book.new ≡ office_with ready.staged book.old) }
    ensures valid { IsOffice book.new }
    ensures steps { steps.new ≤ steps.old + cost book.old (office_with ready.staged book.old) }
{
    an_office_of_nothing_is_valid();
    book.take(ready.staged, steps)?;
    Ok(Posted::Done(ready.sheet))
}
