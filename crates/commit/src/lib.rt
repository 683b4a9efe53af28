// Commit: local_storage.rs, `apply_inner`. 01, Listings and file steps: "mark, syncs, operations, directory syncs in order of first naming,
// log removal, journal sync, backups, staging." After a failing step "the rollback's steps follow, then log removal, journal sync and
// staging". A held commit ends otherwise (02, item 6).
#![tactic(auto)]

ghost use Rattle.std.specs.Prelude.{◌≡◌, [], ◌∷◌, map, reverse, ◌≤◌, take};
ghost use Rattle.basics.specs.Base.{Bytes, same_bytes, is_in};
ghost use Rattle.basic_laws.specs.Tests.{All};
ghost use Rattle.model.specs.Log.{journal, ops_of};
ghost use Rattle.model.specs.Step.{hold_header, sync_log};
ghost use Rattle.model.specs.Plan.{in_turn, collection_of, first_namings, sync_existing};
ghost use Rattle.spans.specs.Spans.{name_of, Sound, Names};
ghost use Rattle.store.specs.Stores.{log_bytes};
ghost use Rattle.plans.specs.ModelPlans.{plain};
ghost use Rattle.plans.specs.ModelPlans.{commit_start, end_behind, commit_undo};
ghost use Rattle.steps.specs.Steps.{Fits};
ghost use Rattle.steps.specs.CodeRuns.{SoundRun, Follows};
ghost use Rattle.transaction.specs.Operations.{op_of, SoundOp};
ghost use Rattle.commit.specs.Commits.{end_of, Commits};

use spans::NameRef;
use steps::{Run, Step};
use store::Store;
use transaction::Operation;

// How a commit that succeeds ends: the log is removed, or the commit is held (02, item 6).
#[derive(Clone, Copy, Debug, PartialEq, Eq)]
pub enum End {
    Remove,
    Hold,
}

// The collection that an operation changes.
fn collection_of(op: Operation) -> NameRef
    ensures { (src : Bytes) → SoundOp src op → Names src result (collection_of (op_of src op)) }
{
    match op {
        Operation::Write(c, _, _)
        | Operation::Delete(c, _)
        | Operation::DeleteAll(c)
        | Operation::CreateCollection(c)
        | Operation::DeleteCollection(c)
        | Operation::CopyCollection(_, c, _)
        | Operation::MarkedWrite(c, _, _, _) => c,
    }
}

// Whether an operation changes this collection.
fn changes(src: &[u8], op: Operation, dir: NameRef) -> bool
    requires { SoundOp src.now op × Sound src.now dir }
    ensures { result ≡ same_bytes (name_of src.now dir) (collection_of (op_of src.now op)) }
{
    spans::same(src, dir, collection_of(op))
}

// Whether one of some operations changes a collection: then that was named before.
fn named_before(src: &[u8], ops: &[Operation], dir: NameRef) -> bool
    requires { All (SoundOp src.now) ops.now × Sound src.now dir }
    ensures { result ≡ is_in (name_of src.now dir) (reverse (map collection_of (map (op_of src.now) ops.now))) }
{
    ops.iter().rev().any(|op| changes(src, *op, dir))
}

// Syncs a directory, if it stands.
fn sync_existing(src: &[u8], run: &mut Run, dir: NameRef)
    requires { SoundRun src.now run.old × Sound src.now dir }
    ensures { Follows plain src.now (sync_existing (name_of src.now dir)) run.old run.new }
{
    if run.store.tree.dir_exists(src, dir) {
        run.advance(src, Step::SyncDirectory(dir));
    }
}

// Syncs the collections that operations change. 01, Listings and file steps: "directory syncs in order of first naming".
fn sync_collection_dirs(src: &[u8], run: &mut Run, ops: &[Operation])
    requires { SoundRun src.now run.old × All (SoundOp src.now) ops.now }
    ensures { Follows plain src.now (in_turn sync_existing (first_namings [] (map collection_of (map (op_of src.now) ops.now)))) run.old run.new }
{
    // A run that has stopped looks nothing up any more: docs/DECISIONS.md, 35.
    if run.stopped {
        return;
    }
    for (i, op) in ops.iter().enumerate() {
        let dir = collection_of(*op);
        if !named_before(src, &ops[..i], dir) {
            sync_existing(src, run, dir);
        }
    }
}

// The mark, and what makes it and the staging files durable.
fn mark_and_sync(src: &[u8], run: &mut Run)
    requires { SoundRun src.now run.old }
    ensures { Follows plain src.now commit_start run.old run.new }
{
    run.advance(src, Step::RewriteHeader);
    run.advance(src, Step::SyncStaging);
    run.advance(src, Step::SyncLog);
}

// 02, item 6: "it rewrites the header with status 0x02, Held (..), syncs the log".
fn hold_log(src: &[u8], run: &mut Run)
    requires { SoundRun src.now run.old }
    ensures { Follows plain src.now (λ s. hold_header ∷ sync_log ∷ []) run.old run.new }
{
    run.advance(src, Step::HoldHeader);
    run.advance(src, Step::SyncLog);
}

// What follows the operations where no step failed. Where the commit is held, log and backups stay.
fn finish(src: &[u8], run: &mut Run, ops: &[Operation], end: End)
    requires { SoundRun src.now run.old × All (SoundOp src.now) ops.now }
    ensures { Follows plain src.now (end_behind (end_of end) (map (op_of src.now) ops.now)) run.old run.new }
{
    sync_collection_dirs(src, run, ops);
    run.advance(src, Step::SyncCollections);
    match end {
        End::Remove => {
            recovery::remove_log_durably(src, run);
            recovery::delete_all_backup_files(src, run);
        }
        End::Hold => hold_log(src, run),
    }
    recovery::cleanup_staging_dir(src, run);
}

// What follows them where one did (`rollback_applied_operations`, and the log and the staging files go).
fn roll_back(src: &[u8], run: &mut Run, ops: &[Operation])
    requires { SoundRun src.now run.old × All (SoundOp src.now) ops.now }
    ensures { Follows plain src.now (commit_undo (map (op_of src.now) ops.now)) run.old run.new }
{
    recovery::undo_all(src, run, ops);
    recovery::remove_log_durably(src, run);
    recovery::cleanup_staging_dir(src, run);
}

// The steps of a commit that ends so: all of them, or as many as the budget has. The operations are those that were read of the store's log.
pub fn apply_inner(
    src: &[u8],
    store: Store,
    ops: &[Operation],
    end: End,
    budget: Option<u64>,
) -> Run
    requires { Fits src.now store × (All (SoundOp src.now) ops.now × (map (op_of src.now) ops.now ≡ ops_of (journal (log_bytes src.now store.log)))) }
    ensures { Commits end src.now store budget result }
{
    let mut run = Run::new(store, budget);
    mark_and_sync(src, &mut run);
    operations::apply_operations(src, &mut run, ops);
    if run.refusal.is_none() {
        finish(src, &mut run, ops, end);
    } else {
        roll_back(src, &mut run, ops);
    }
    run
}
