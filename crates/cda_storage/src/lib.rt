// The exported entries: bytes in, a number and bytes out. The contract of each cites crate answers and nothing else: `Returns`,
// `StepReturns`, `PendingReturns` and `CauseReturns` (crate handover, specs/Contract.antt) say what is in the lent outputs after a call; `lent` is
// what was lent for a parameter, `room` its length. Entries that record go through crate recording, those that run a plan through crate running.
// An entry answers a number and hands lengths on through `&mut`, since that is what C is given: crate cda_storage_c exports each under the same
// contract. What the entries call answers a `Result`.
#![tactic(auto)]

ghost use Rattle.std.specs.Prelude.{◌≡◌};
ghost use Rattle.answers.specs.Answers as answers;
ghost use Rattle.answers.specs.Answers.{begin, write, delete, delete_keys, delete_all, create_collection, delete_collection, copy_collection, rollback};
ghost use Rattle.answers.specs.Answers.{commit, commit_step, hold, hold_step, keep, keep_step, recover, recover_cause, recover_step, revert, revert_cause, revert_step};
ghost use Rattle.answers.specs.Answers.{list_keys, find_backup, log_cause, canonical_log};
ghost use Rattle.answers.specs.Inventory as inventories;
ghost use Rattle.refusals.specs.Numbers.{told};
ghost use Rattle.handover.specs.Contract.{lent, before, after, room, Returns, StepReturns, PendingReturns, CauseReturns};
ghost use Rattle.handover.specs.Handing.{handed};
ghost use Rattle.wal.specs.Logs.{cause_if};
ghost use Rattle.running.specs.Planning.{number_back, written_back, cause_back};

mod keys;
mod logs;
mod shown;

use recording::Asked;
use refusals::Refusal;
use running::{HandedBack, Planned};
use wal::Cause;

// 02, item 1: how a log broke as a number, 0 for a log that did not.
fn cause_number(cause: Option<Cause>) -> u32
    ensures { result ≡ cause_if cause }
{
    match cause {
        Some(cause) => u32::from(cause),
        None => 0,
    }
}

// The number of an entry, and what it hands on where its work was done: a count of bytes, a cause, 1 for yes or 0 for no.
fn hand<T: Copy>(done: Result<T, Refusal>, to: &mut T) -> u32
    ensures number { result ≡ told done }
    ensures value { after to ≡ handed done (before to) }
{
    match done {
        Ok(value) => {
            *to = value;
            0
        }
        Err(refusal) => u32::from(refusal),
    }
}

// The same of a step entry, which writes an image and a field.
fn hand_steps(
    done: Result<(usize, usize), Refusal>,
    written: &mut usize,
    step_written: &mut usize,
) -> u32
    ensures number { result ≡ told done }
    ensures counts { (after written, after step_written) ≡ handed done (before written, before step_written) }
{
    match done {
        Ok((image, step)) => {
            *written = image;
            *step_written = step;
            0
        }
        Err(refusal) => u32::from(refusal),
    }
}

// The same of an entry that runs a whole plan. 01, Sixteen numbers: "14 and 15 also hand back the rolled-back image".
fn hand_back(done: Result<HandedBack, Refusal>, written: &mut usize, cause: &mut u32) -> u32
    ensures number { result ≡ number_back done }
    ensures count { after written ≡ written_back done (before written) }
    ensures cause { after cause ≡ cause_back done (before cause) }
{
    let back = match done {
        Ok(back) => back,
        Err(refusal) => return u32::from(refusal),
    };
    *written = back.written;
    match back.refusal {
        Some(refusal) => u32::from(refusal),
        None => {
            *cause = cause_number(back.cause);
            0
        }
    }
}

// Opens a transaction. Refusals: 1, 2, 3, 17.
pub fn cda_storage_begin(image: &[u8], out: &mut [u8], written: &mut usize) -> u32
    ensures { Returns (begin (lent image) (room out)) result out written }
{
    hand(recording::ask_unnamed(Asked::Begin, image, out), written)
}

// Records a Write of the caller's staging file and number. Refusals: 1, 2, 4, 5, 6, 10.
pub fn cda_storage_write(
    image: &[u8],
    collection: &[u8],
    key: &[u8],
    staged: &[u8],
    number: u32,
    out: &mut [u8],
    written: &mut usize,
) -> u32
    ensures { Returns (write (lent collection) (lent key) (lent staged) number (lent image) (room out)) result out written }
{
    hand(
        recording::ask(Asked::Write(number), image, collection, key, staged, out),
        written,
    )
}

// Records a Delete, after the case rename. Refusals: 1, 2, 4, 5, 6, 8.
pub fn cda_storage_delete(
    image: &[u8],
    collection: &[u8],
    key: &[u8],
    out: &mut [u8],
    written: &mut usize,
) -> u32
    ensures { Returns (delete (lent collection) (lent key) (lent image) (room out)) result out written }
{
    hand(
        recording::ask(Asked::Delete, image, collection, key, b"", out),
        written,
    )
}

// Records a Delete of each key of a set, all or none; the keys are 1 to 32 fields 0x03. Refusals: 1, 2, 4; 6 for bytes that are no such keys; 5, 6, 8.
pub fn cda_storage_delete_keys(
    image: &[u8],
    collection: &[u8],
    keys: &[u8],
    out: &mut [u8],
    written: &mut usize,
) -> u32
    ensures { Returns (delete_keys (lent collection) (lent keys) (lent image) (room out)) result out written }
{
    hand(key_set::delete_keys(image, collection, keys, out), written)
}

// Records a DeleteAll. Refusals: 1, 2, 4, 5, 6.
pub fn cda_storage_delete_all(
    image: &[u8],
    collection: &[u8],
    out: &mut [u8],
    written: &mut usize,
) -> u32
    ensures { Returns (delete_all (lent collection) (lent image) (room out)) result out written }
{
    hand(
        recording::ask(Asked::DeleteAll, image, collection, b"", b"", out),
        written,
    )
}

// Records a CreateCollection. Refusals: 1, 2, 4, 5, 6, 9.
pub fn cda_storage_create_collection(
    image: &[u8],
    name: &[u8],
    out: &mut [u8],
    written: &mut usize,
) -> u32
    ensures { Returns (create_collection (lent name) (lent image) (room out)) result out written }
{
    hand(
        recording::ask(Asked::CreateCollection, image, name, b"", b"", out),
        written,
    )
}

// Records a DeleteCollection. Refusals: 1, 2, 4, 5, 6, 7.
pub fn cda_storage_delete_collection(
    image: &[u8],
    name: &[u8],
    out: &mut [u8],
    written: &mut usize,
) -> u32
    ensures { Returns (delete_collection (lent name) (lent image) (room out)) result out written }
{
    hand(
        recording::ask(Asked::DeleteCollection, image, name, b"", b"", out),
        written,
    )
}

// Records a CopyCollection. Refusals: 1, 2, 4, 5, 6, 7, and 6 again for the destination.
pub fn cda_storage_copy_collection(
    image: &[u8],
    source: &[u8],
    dest: &[u8],
    out: &mut [u8],
    written: &mut usize,
) -> u32
    ensures { Returns (copy_collection (lent source) (lent dest) (lent image) (room out)) result out written }
{
    hand(
        recording::ask(Asked::CopyCollection, image, source, b"", dest, out),
        written,
    )
}

// Discards the transaction. Refusals: 1, 2, 4.
pub fn cda_storage_rollback(image: &[u8], out: &mut [u8], written: &mut usize) -> u32
    ensures { Returns (rollback (lent image) (room out)) result out written }
{
    hand(recording::ask_unnamed(Asked::Rollback, image, out), written)
}

// Commits the transaction. Refusals: 1, 2, 4; 14 and 15 hand back the rolled-back image.
pub fn cda_storage_commit(image: &[u8], out: &mut [u8], written: &mut usize) -> u32
    ensures { Returns (commit (lent image) (room out)) result out written }
{
    let mut cause = 0u32;
    hand_back(
        running::run_whole(Planned::Commit, image, out),
        written,
        &mut cause,
    )
}

// The image after n steps of the commit, and the field of step n. Refusals: 1, 2, 4, 16.
pub fn cda_storage_commit_step(
    image: &[u8],
    n: u64,
    out: &mut [u8],
    written: &mut usize,
    step: &mut [u8],
    step_written: &mut usize,
) -> u32
    ensures { StepReturns (commit_step n (lent image) (room out) (room step)) result out written step step_written }
{
    hand_steps(
        running::run_steps(Planned::Commit, image, n, out, step),
        written,
        step_written,
    )
}

// Commits and holds: log and backups stay until it is kept or reverted. Refusals: 1, 2, 4; 14 and 15 also hand back the rolled-back image.
pub fn cda_storage_hold(image: &[u8], out: &mut [u8], written: &mut usize) -> u32
    ensures { Returns (hold (lent image) (room out)) result out written }
{
    let mut cause = 0u32;
    hand_back(
        running::run_whole(Planned::Hold, image, out),
        written,
        &mut cause,
    )
}

// The image after n steps of the held commit, and the field of step n. Refusals: 1, 2, 4, 16.
pub fn cda_storage_hold_step(
    image: &[u8],
    n: u64,
    out: &mut [u8],
    written: &mut usize,
    step: &mut [u8],
    step_written: &mut usize,
) -> u32
    ensures { StepReturns (hold_step n (lent image) (room out) (room step)) result out written step step_written }
{
    hand_steps(
        running::run_steps(Planned::Hold, image, n, out, step),
        written,
        step_written,
    )
}

// Whether recovery has work to do: `pending` is 1 for yes, 0 for no. Refusal: 1.
pub fn cda_storage_has_pending_work(image: &[u8], pending: &mut u32) -> u32
    ensures { PendingReturns (answers.pending (lent image)) result pending }
{
    hand(shown::pending(image).map(u32::from), pending)
}

// Recovers the store; where it discards a truncated Committing log, `cause` says how that broke, else it is 0. Refusals: 1, 2, 11, 12, 13.
pub fn cda_storage_recover(
    image: &[u8],
    out: &mut [u8],
    written: &mut usize,
    cause: &mut u32,
) -> u32
    ensures { Returns (recover (lent image) (room out)) result out written × CauseReturns (recover_cause (lent image) (room out)) result cause }
{
    hand_back(
        running::run_whole(Planned::Recover, image, out),
        written,
        cause,
    )
}

// The image after n steps of the recovery, and the field of step n. Refusals: 1, 2, 11, 12, 13, 16.
pub fn cda_storage_recover_step(
    image: &[u8],
    n: u64,
    out: &mut [u8],
    written: &mut usize,
    step: &mut [u8],
    step_written: &mut usize,
) -> u32
    ensures { StepReturns (recover_step n (lent image) (room out) (room step)) result out written step step_written }
{
    hand_steps(
        running::run_steps(Planned::Recover, image, n, out, step),
        written,
        step_written,
    )
}

// Keeps a held commit: the log goes, then every backup. Refusals: 1, 2, 18.
pub fn cda_storage_keep(image: &[u8], out: &mut [u8], written: &mut usize) -> u32
    ensures { Returns (keep (lent image) (room out)) result out written }
{
    let mut cause = 0u32;
    hand_back(
        running::run_whole(Planned::Keep, image, out),
        written,
        &mut cause,
    )
}

// The image after n steps of keep, and the field of step n; at n = 0 whether a Held log stands. Refusals: 1, 2, 18, 16.
pub fn cda_storage_keep_step(
    image: &[u8],
    n: u64,
    out: &mut [u8],
    written: &mut usize,
    step: &mut [u8],
    step_written: &mut usize,
) -> u32
    ensures { StepReturns (keep_step n (lent image) (room out) (room step)) result out written step step_written }
{
    hand_steps(
        running::run_steps(Planned::Keep, image, n, out, step),
        written,
        step_written,
    )
}

// Reverts a held commit; `cause` as `cda_storage_recover` says it of a Committing log. Refusals: 1, 2, 18, 11, 12, 13.
pub fn cda_storage_revert(image: &[u8], out: &mut [u8], written: &mut usize, cause: &mut u32) -> u32
    ensures { Returns (revert (lent image) (room out)) result out written × CauseReturns (revert_cause (lent image) (room out)) result cause }
{
    hand_back(
        running::run_whole(Planned::Revert, image, out),
        written,
        cause,
    )
}

// The image after n steps of revert, and the field of step n. Refusals: 1, 2, 18, 11, 12, 13, 16.
pub fn cda_storage_revert_step(
    image: &[u8],
    n: u64,
    out: &mut [u8],
    written: &mut usize,
    step: &mut [u8],
    step_written: &mut usize,
) -> u32
    ensures { StepReturns (revert_step n (lent image) (room out) (room step)) result out written step step_written }
{
    hand_steps(
        running::run_steps(Planned::Revert, image, n, out, step),
        written,
        step_written,
    )
}

// The keys of a collection, as 0x03 fields. Refusals: 1, 2, 6.
pub fn cda_storage_list_keys(
    image: &[u8],
    collection: &[u8],
    out: &mut [u8],
    written: &mut usize,
) -> u32
    ensures { Returns (list_keys (lent collection) (lent image) (room out)) result out written }
{
    hand(keys::list(image, collection, out), written)
}

// The backup that the search meets first, as fields: 0x10 and 0x11 for a file, 0x10 for a directory, none for no backup. Refusals: 1, 2.
pub fn cda_storage_find_backup(image: &[u8], out: &mut [u8], written: &mut usize) -> u32
    ensures { Returns (find_backup (lent image) (room out)) result out written }
{
    hand(shown::find_backup(image, out), written)
}

// How a log broke: 1 entry header too short, 2 payload missing, 3 checksum wrong, 0 for a log that is whole. Refusals: 1, 11, 12, 21.
pub fn cda_storage_log_cause(log: &[u8], cause: &mut u32) -> u32
    ensures { CauseReturns (log_cause (lent log)) result cause }
{
    hand(logs::cause_of(log), cause)
}

// The log with the same status and operations and zeros in bytes 2 and 3. Refusals: 1, 2, which here means an output shorter than the log, 21, 11, 12.
pub fn cda_storage_canonical_log(log: &[u8], out: &mut [u8], written: &mut usize) -> u32
    ensures { Returns (canonical_log (lent log) (room out)) result out written }
{
    hand(logs::canonical(log, out), written)
}

// The collections, their files and content numbers as JSON. Refusals: 1, 2, which here means that the text is longer than the output.
pub fn cda_storage_inventory(image: &[u8], out: &mut [u8], written: &mut usize) -> u32
    ensures { Returns (inventories.inventory (lent image) (room out)) result out written }
{
    hand(shown::inventory(image, out), written)
}
