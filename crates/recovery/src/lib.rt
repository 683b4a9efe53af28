// Recovery of an interrupted transaction: recovery.rs. A walk goes through names that are listed where the walk starts: 01, Listings and
// file steps, "A directory is listed as it stands when its walk starts, in ascending byte order". The functions are those of recovery.rs and parts of
// them, one for files and one for directories (docs/TWINS.md); each clause names its plan.
#![tactic(auto)]

ghost use Rattle.std.specs.Prelude.{◌≡◌, [], ◌∷◌, false, map, reverse, ◌≤◌, length};
ghost use Rattle.basics.specs.Base.{Bytes, is_some, any_of};
ghost use Rattle.basics.specs.Map.{look};
ghost use Rattle.basic_laws.specs.Tests.{All};
ghost use Rattle.basics.specs.Name.{backup_name};
ghost use Rattle.model.specs.Log.{entries, journal, absent, committing};
ghost use Rattle.model.specs.Store.{has_pending_work};
ghost use Rattle.model.specs.Step.{remove_log, sync_journal};
ghost use Rattle.model.specs.Plan.{in_turn, in_sequence, recover_parts, recover_fault, undo_steps, restore_file, restore_directory, restore_backups, remove_backup_file, remove_backups_in, remove_backups, remove_staging_files, remove_standing_log, is_new_artifact};
ghost use Rattle.refusals.specs.Numbers.{told};
ghost use Rattle.spans.specs.Spans.{name_of, Sound};
ghost use Rattle.store.specs.Tables.{map_of, SoundTable};
ghost use Rattle.store.specs.Stores.{AsRead, log_bytes, store_of, SoundLog, SoundStore};
ghost use Rattle.plans.specs.ModelPlans.{plain};
ghost use Rattle.steps.specs.Steps.{Fits};
ghost use Rattle.steps.specs.CodeRuns.{SoundRun, Follows};
ghost use Rattle.transaction.specs.Operations.{op_of, SoundOp};
ghost use Rattle.wal.specs.Logs.{journal_of, ending_of, ops_read, entries_of, SoundRead};
ghost use Rattle.recovery.specs.Walks.{is_new_file, clear_file, clear_dir, over_files, undo_write, undo_create, undo_copy, undo_all, clean_up};
ghost use Rattle.recovery.specs.Recoveries.{log_part, refusal_of, recovery_from, recovery, reverting, keeping, Begun, Recovers};

pub mod search;

use basics::Status;
use refusals::Refusal;
use spans::NameRef;
use steps::{Run, Step};
use store::{LogRef, Store, Table};
use transaction::Operation;
use wal::{Cause, Ending, WalRead};

// Whether the backup of a file stands. One whose name has over 64 bytes stands nowhere.
fn has_backup(src: &[u8], t: &Table, dir: NameRef, file: NameRef) -> bool
    requires { SoundTable src.now t.now × (Sound src.now dir × Sound src.now file) }
    ensures { result ≡ is_some (look (name_of src.now dir, backup_name (name_of src.now file)) (map_of src.now t.now)) }
{
    spans::backup(src, file).is_some_and(|q| t.exists(src, dir, q))
}

// The same for a directory.
fn has_backup_dir(src: &[u8], t: &Table, dir: NameRef) -> bool
    requires { SoundTable src.now t.now × Sound src.now dir }
    ensures { result ≡ is_some (look (backup_name (name_of src.now dir), []) (map_of src.now t.now)) }
{
    spans::backup(src, dir).is_some_and(|q| t.dir_exists(src, q))
}

// Whether a previous run left work to do: 01, Modules in port order, "`has_pending_work` (yes or no)".
pub fn has_pending_work(src: &[u8], store: &Store) -> bool
    requires { SoundStore src.now store.now }
    ensures { result ≡ has_pending_work (store_of src.now store.now) }
{
    if store.log.is_some() || search::has_backup_files(src, &store.tree) {
        return true;
    }
    !store.staging.nodes.is_empty()
}

// Whether a file stands whose backup does not: the target of a Write that is not known to have stood before (02, item 4).
fn is_new_file(src: &[u8], t: &Table, dir: NameRef, file: NameRef) -> bool
    requires { SoundTable src.now t.now × (Sound src.now dir × Sound src.now file) }
    ensures { result ≡ is_new_file (map_of src.now t.now) (name_of src.now dir) (name_of src.now file) }
{
    t.exists(src, dir, file) && !has_backup(src, t, dir, file)
}

// Whether an operation seems to have been applied: `has_new_artifacts`, for one operation. 01, Corners, recovery.rs: "A Write to an
// existing key counts as a new artifact, though nothing was done." Not so a marked one whose mark is 1 (02, item 4).
pub fn is_new_artifact(src: &[u8], t: &Table, op: Operation) -> bool
    requires { SoundTable src.now t.now × SoundOp src.now op }
    ensures { result ≡ is_new_artifact (map_of src.now t.now) (op_of src.now op) }
{
    match op {
        Operation::Write(c, k, _) => is_new_file(src, t, c, k),
        Operation::CreateCollection(c) => t.dir_exists(src, c),
        Operation::CopyCollection(_, b, existed) => {
            !existed && t.dir_exists(src, b) && !has_backup_dir(src, t, b)
        }
        Operation::MarkedWrite(c, k, _, stood) => !stood && is_new_file(src, t, c, k),
        Operation::Delete(_, _) | Operation::DeleteAll(_) | Operation::DeleteCollection(_) => false,
    }
}

// Whether any of the operations that were read seems to have been applied.
fn has_new_artifacts(src: &[u8], t: &Table, ops: &[Operation]) -> bool
    requires { SoundTable src.now t.now × All (SoundOp src.now) ops.now }
    ensures { result ≡ any_of (is_new_artifact (map_of src.now t.now)) (map (op_of src.now) ops.now) }
{
    ops.iter().any(|op| is_new_artifact(src, t, *op))
}

// Removes the file that a Write made, unless its backup stands.
fn undo_write(src: &[u8], run: &mut Run, dir: NameRef, key: NameRef)
    requires { SoundRun src.now run.old × (Sound src.now dir × Sound src.now key) }
    ensures { Follows plain src.now (undo_write (name_of src.now dir) (name_of src.now key)) run.old run.new }
{
    let tree = &run.store.tree;
    if tree.exists(src, dir, key) {
        if has_backup(src, tree, dir, key) {
            return;
        }
        run.advance(src, Step::RemoveFile(dir, key));
    }
}

// Removes the directory that a CreateCollection made, if it is empty.
fn undo_create(src: &[u8], run: &mut Run, dir: NameRef)
    requires { SoundRun src.now run.old × Sound src.now dir }
    ensures { Follows plain src.now (undo_create (name_of src.now dir)) run.old run.new }
{
    let tree = &run.store.tree;
    if tree.dir_exists(src, dir) {
        if tree.is_dir_empty(src, dir) {
            run.advance(src, Step::RemoveDirectory(dir));
        }
    }
}

// Removes the destination that a CopyCollection made, unless its backup stands.
fn undo_copy(src: &[u8], run: &mut Run, dir: NameRef)
    requires { SoundRun src.now run.old × Sound src.now dir }
    ensures { Follows plain src.now (undo_copy (name_of src.now dir)) run.old run.new }
{
    let tree = &run.store.tree;
    if tree.dir_exists(src, dir) {
        if has_backup_dir(src, tree, dir) {
            return;
        }
        run.advance(src, Step::RemoveDirectory(dir));
    }
}

// Removes the new artifact of an operation: `remove_new_artifacts`, for one operation.
pub fn undo_operation(src: &[u8], run: &mut Run, op: Operation)
    requires { SoundRun src.now run.old × SoundOp src.now op }
    ensures { Follows plain src.now (undo_steps (op_of src.now op)) run.old run.new }
{
    // A run that has stopped looks nothing up any more: docs/DECISIONS.md, 35.
    if run.stopped {
        return;
    }
    match op {
        Operation::Write(c, k, _) => undo_write(src, run, c, k),
        Operation::CreateCollection(c) => undo_create(src, run, c),
        Operation::CopyCollection(_, b, existed) => {
            if !existed {
                undo_copy(src, run, b);
            }
        }
        Operation::MarkedWrite(c, k, _, stood) => {
            if !stood {
                undo_write(src, run, c, k);
            }
        }
        Operation::Delete(_, _) | Operation::DeleteAll(_) | Operation::DeleteCollection(_) => {}
    }
}

// Removes the new artifacts of the operations that were read, from the last to the first.
pub fn remove_new_artifacts(src: &[u8], run: &mut Run, ops: &[Operation])
    requires { SoundRun src.now run.old × All (SoundOp src.now) ops.now }
    ensures { Follows plain src.now (in_turn undo_steps (reverse (map (op_of src.now) ops.now))) run.old run.new }
{
    for op in ops.iter().rev() {
        undo_operation(src, run, *op);
    }
}

// Removes a file, if it stands.
fn clear_file(src: &[u8], run: &mut Run, dir: NameRef, file: NameRef)
    requires { SoundRun src.now run.old × (Sound src.now dir × Sound src.now file) }
    ensures { Follows plain src.now (clear_file (name_of src.now dir) (name_of src.now file)) run.old run.new }
{
    if run.store.tree.exists(src, dir, file) {
        run.advance(src, Step::RemoveFile(dir, file));
    }
}

// Removes a directory with its files, if it stands.
fn clear_dir(src: &[u8], run: &mut Run, dir: NameRef)
    requires { SoundRun src.now run.old × Sound src.now dir }
    ensures { Follows plain src.now (clear_dir (name_of src.now dir)) run.old run.new }
{
    if run.store.tree.dir_exists(src, dir) {
        run.advance(src, Step::RemoveDirectory(dir));
    }
}

// A backup takes the place of its original; a file with the extension of staging files goes.
fn restore_file(src: &[u8], run: &mut Run, dir: NameRef, file: NameRef)
    requires { SoundRun src.now run.old × (Sound src.now dir × Sound src.now file) }
    ensures { Follows plain src.now (restore_file (name_of src.now dir) (name_of src.now file)) run.old run.new }
{
    let restored = spans::original(src, file);
    match restored {
        Some(original) => {
            clear_file(src, run, dir, original);
            run.advance(src, Step::RenameFile(dir, file, original));
        }
        None => {
            if spans::is_tmp(src, file) {
                run.advance(src, Step::RemoveFile(dir, file));
            }
        }
    }
}

// Restores the backups in one directory.
fn restore_bak_files_in_dir(src: &[u8], run: &mut Run, dir: NameRef)
    requires { SoundRun src.now run.old × Sound src.now dir }
    ensures { Follows plain src.now (over_files restore_file (name_of src.now dir)) run.old run.new }
{
    let listing = run.store.tree.files(src, dir);
    for file in listing.as_slice() {
        restore_file(src, run, dir, *file);
    }
}

// A directory that is a backup takes its original's place; in any other the files are restored.
fn restore_directory(src: &[u8], run: &mut Run, dir: NameRef)
    requires { SoundRun src.now run.old × Sound src.now dir }
    ensures { Follows plain src.now (restore_directory (name_of src.now dir)) run.old run.new }
{
    if run.stopped {
        return;
    }
    let restored = spans::original(src, dir);
    match restored {
        Some(original) => {
            clear_dir(src, run, original);
            run.advance(src, Step::RenameDirectory(dir, original));
        }
        None => restore_bak_files_in_dir(src, run, dir),
    }
}

// Restores every backup.
pub fn rollback_partial_commit(src: &[u8], run: &mut Run)
    requires { SoundRun src.now run.old }
    ensures { Follows plain src.now restore_backups run.old run.new }
{
    if run.stopped {
        return;
    }
    let listing = run.store.tree.dirs();
    for dir in listing.as_slice() {
        restore_directory(src, run, *dir);
    }
}

// Removes a file that is a backup.
fn delete_backup_file(src: &[u8], run: &mut Run, dir: NameRef, file: NameRef)
    requires { SoundRun src.now run.old × (Sound src.now dir × Sound src.now file) }
    ensures { Follows plain src.now (remove_backup_file (name_of src.now dir) (name_of src.now file)) run.old run.new }
{
    if spans::is_backup(src, file) {
        run.advance(src, Step::RemoveFile(dir, file));
    }
}

// Removes the backups among a directory's files.
fn delete_backup_files_in_dir(src: &[u8], run: &mut Run, dir: NameRef)
    requires { SoundRun src.now run.old × Sound src.now dir }
    ensures { Follows plain src.now (over_files remove_backup_file (name_of src.now dir)) run.old run.new }
{
    let listing = run.store.tree.files(src, dir);
    for file in listing.as_slice() {
        delete_backup_file(src, run, dir, *file);
    }
}

// Removes a directory that is a backup; in any other the backups among its files.
fn delete_backups_in(src: &[u8], run: &mut Run, dir: NameRef)
    requires { SoundRun src.now run.old × Sound src.now dir }
    ensures { Follows plain src.now (remove_backups_in (name_of src.now dir)) run.old run.new }
{
    if run.stopped {
        return;
    }
    if spans::is_backup(src, dir) {
        run.advance(src, Step::RemoveDirectory(dir));
        return;
    }
    delete_backup_files_in_dir(src, run, dir);
}

// Removes every backup.
pub fn delete_all_backup_files(src: &[u8], run: &mut Run)
    requires { SoundRun src.now run.old }
    ensures { Follows plain src.now remove_backups run.old run.new }
{
    if run.stopped {
        return;
    }
    let listing = run.store.tree.dirs();
    for dir in listing.as_slice() {
        delete_backups_in(src, run, *dir);
    }
}

// Removes every staging file.
pub fn cleanup_staging_dir(src: &[u8], run: &mut Run)
    requires { SoundRun src.now run.old }
    ensures { Follows plain src.now remove_staging_files run.old run.new }
{
    if run.stopped {
        return;
    }
    let listing = run.store.staging.staged();
    for file in listing.as_slice() {
        run.advance(src, Step::RemoveStaging(*file));
    }
}

// Removes the log, where one stands.
pub fn remove_log(src: &[u8], run: &mut Run)
    requires { SoundRun src.now run.old }
    ensures { Follows plain src.now remove_standing_log run.old run.new }
{
    if run.store.log.is_some() {
        run.advance(src, Step::RemoveLog);
    }
}

// The log goes, and the journal is synced: "the point of no return".
pub fn remove_log_durably(src: &[u8], run: &mut Run)
    requires { SoundRun src.now run.old }
    ensures { Follows plain src.now (λ s. remove_log ∷ sync_journal ∷ []) run.old run.new }
{
    run.advance(src, Step::RemoveLog);
    run.advance(src, Step::SyncJournal);
}

// Undoes the operations that were read. New artifacts go first: restoring a backup could make a file look like a new one.
pub fn undo_all(src: &[u8], run: &mut Run, ops: &[Operation])
    requires { SoundRun src.now run.old × All (SoundOp src.now) ops.now }
    ensures { Follows plain src.now (undo_all (map (op_of src.now) ops.now)) run.old run.new }
{
    remove_new_artifacts(src, run, ops);
    rollback_partial_commit(src, run);
}

// The status of a store's log, if one with a valid header stands.
pub fn open_log(src: &[u8], log: Option<LogRef>) -> Option<Status>
    requires { SoundLog src.now log × AsRead log }
    ensures { journal_of result (entries (log_part src.now log)) ≡ journal (log_bytes src.now log) }
{
    let Some(l) = log else {
        return None;
    };
    let start = usize::from(l.start);
    let end = start + usize::from(l.len);
    wal::open_wal(&src[start..end])
}

// Its operations, and how the walk through them ended; those of an empty log where none stands.
fn read_log(src: &[u8], log: Option<LogRef>) -> WalRead
    requires { SoundLog src.now log × (length src.now ≤ 0xFFFF) }
    ensures { SoundRead src.now result × (entries_of src.now result ≡ entries (log_part src.now log)) }
{
    let Some(l) = log else {
        return wal::read_wal(src, 0, 0);
    };
    let start = usize::from(l.start);
    let end = start + usize::from(l.len);
    wal::read_wal(src, start, end)
}

// What recovery from a Committing log is refused with, if it is. 01, Corners, recovery.rs: "Truncated Committing log and any backup, or any new
// artifact by `has_new_artifacts`: refusal 13."
fn refusal_of(src: &[u8], t: &Table, w: &WalRead) -> Result<(), Refusal>
    requires { SoundTable src.now t.now × SoundRead src.now w.now }
    ensures { told result ≡ refusal_of (recover_fault (committing (ops_read src.now w.now) (ending_of w.now.ending)) (map_of src.now t.now)) }
{
    match w.ending {
        Ending::Whole => Ok(()),
        Ending::Truncated(_) => {
            if search::has_backup_files(src, t) || has_new_artifacts(src, t, &w.ops) {
                return Err(Refusal::Corruption);
            }
            Ok(())
        }
        Ending::Undecodable => Err(Refusal::UndecodablePayload),
        Ending::TooMany => Err(Refusal::LogTooLong),
    }
}

// Removes the log and the staging files.
fn clean_up(src: &[u8], run: &mut Run)
    requires { SoundRun src.now run.old }
    ensures { Follows plain src.now clean_up run.old run.new }
{
    run.advance(src, Step::RemoveLog);
    cleanup_staging_dir(src, run);
}

// Recovery without a valid log: backups are left over from a commit that was done.
fn recover_absent(src: &[u8], run: &mut Run)
    requires { SoundRun src.now run.old }
    ensures { Follows plain src.now (in_sequence (recover_parts absent)) run.old run.new }
{
    delete_all_backup_files(src, run);
    remove_log(src, run);
    cleanup_staging_dir(src, run);
}

// Recovery from a Committing log. Only a whole log is undone.
fn recover_committing(src: &[u8], run: &mut Run, w: &WalRead)
    requires { SoundRun src.now run.old × SoundRead src.now w.now }
    ensures { Follows plain src.now (in_sequence (recover_parts (committing (ops_read src.now w.now) (ending_of w.now.ending)))) run.old run.new }
{
    match w.ending {
        Ending::Whole => {
            undo_all(src, run, &w.ops);
            clean_up(src, run);
        }
        _ => clean_up(src, run),
    }
}

// What is left of a recovery that is not refused: the cause of a truncated log that is discarded, and the run that did its steps.
#[derive(Clone, Copy)]
pub struct Recovered {
    pub cause: Option<Cause>,
    pub run: Run,
}

// Recovery from a log of this status: all its steps, or as many as the budget has. 02, item 6: "Recovery that meets Held drops the open mark and clears
// staging, no more". 01, Listings and file steps: "recovery drops [the open mark] before its first step, so at n = 0 too".
fn recover_from(
    src: &[u8],
    store: Store,
    status: Option<Status>,
    budget: Option<u64>,
) -> Result<Recovered, Refusal>
    requires { Fits src.now store × (length src.now ≤ 0xFFFF) }
    ensures { Recovers (recovery_from (journal_of status (entries (log_part src.now store.log))) (store_of src.now store)) src.now store budget result }
{
    let log = store.log;
    let mut run = begun(store, budget);
    let Some(status) = status else {
        recover_absent(src, &mut run);
        return Ok(Recovered { cause: None, run });
    };
    match status {
        Status::Recording => clean_up(src, &mut run),
        Status::Committing => {
            let w = read_log(src, log);
            let cause = w.ending.cause();
            refusal_of(src, &run.store.tree, &w)?;
            recover_committing(src, &mut run, &w);
            return Ok(Recovered { cause, run });
        }
        Status::Held => cleanup_staging_dir(src, &mut run),
    }
    Ok(Recovered { cause: None, run })
}

// A run on a store whose open mark is dropped.
fn begun(store: Store, budget: Option<u64>) -> Run
    ensures begins { (src : Bytes) → Fits src store → Begun src store budget result }
    ensures unmarked { result.store ≡ record { tree = store.tree; staging = store.staging; log = store.log; open_mark = false } }
{
    let mut store = store;
    store.open_mark = false;
    Run::new(store, budget)
}

// Startup recovery.
pub fn recover(src: &[u8], store: Store, budget: Option<u64>) -> Result<Recovered, Refusal>
    requires { Fits src.now store × (AsRead store.log × (length src.now ≤ 0xFFFF)) }
    ensures { Recovers (recovery (store_of src.now store)) src.now store budget result }
{
    let status = open_log(src, store.log);
    recover_from(src, store, status, budget)
}

// 02, item 6: "Revert does what recovery does for a Committing log"; "18, keep or revert without a Held log".
pub fn revert(src: &[u8], store: Store, budget: Option<u64>) -> Result<Recovered, Refusal>
    requires { Fits src.now store × (AsRead store.log × (length src.now ≤ 0xFFFF)) }
    ensures { Recovers (reverting (store_of src.now store)) src.now store budget result }
{
    let Some(Status::Held) = open_log(src, store.log) else {
        return Err(Refusal::NothingHeld);
    };
    recover_from(src, store, Some(Status::Committing), budget)
}

// 02, item 6: "Keep drops an open mark, removes the log and syncs the journal, then removes every backup as recovery without a log does; it reads no
// entry."
pub fn keep(src: &[u8], store: Store, budget: Option<u64>) -> Result<Recovered, Refusal>
    requires { Fits src.now store × AsRead store.log }
    ensures { Recovers (keeping (store_of src.now store)) src.now store budget result }
{
    let Some(Status::Held) = open_log(src, store.log) else {
        return Err(Refusal::NothingHeld);
    };
    let mut run = begun(store, budget);
    remove_log_durably(src, &mut run);
    delete_all_backup_files(src, &mut run);
    Ok(Recovered { cause: None, run })
}
