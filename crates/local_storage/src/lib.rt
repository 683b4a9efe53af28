// Begin, the recorded operations, commit and rollback: local_storage.rs, and the methods of local_collection.rs that record. Each consumes
// the store and hands it on. A given name is tested beforehand; where it is valid, it stands in the lent bytes, a key in lower case.
#![tactic(auto)]

ghost use Rattle.std.specs.Prelude.{◌≡◌, Err, ◌&&◌, IfSome};
ghost use Rattle.basics.specs.Order.{Name};
ghost use Rattle.basics.specs.Base.{Bytes};
ghost use Rattle.model.specs.Log.{is_held, journal};
ghost use Rattle.model.specs.Record.{has_dir, begin_transaction, discard, record_create, record_delete_collection, record_copy};
ghost use Rattle.spans.specs.Spans.{name_of, Sound, Given};
ghost use Rattle.store.specs.Tables.{map_of, SoundTable};
ghost use Rattle.store.specs.Stores.{store_of, log_bytes, SoundStore};
ghost use Rattle.steps.specs.Steps.{Within};
ghost use Rattle.local_storage.specs.Committing.{Commits};
ghost use Rattle.local_storage.specs.Recording.{Readable, Ready, storage_of, Answers, is_recording, is_whole, Opens, Admits, Discarded, recorded_in};

mod collection;

use basics::Status;
use commit::End;
use refusals::Refusal;
use spans::NameRef;
use steps::Run;
use store::{LogRef, Store, Table};
use transaction::Operation;
use wal::{Ending, Tail, WalRead};

#[derive(Clone, Copy)]
pub struct LocalStorage {
    pub store: Store,
}

// The store handed on, and what follows its log, or the refusal.
#[derive(Clone, Copy)]
pub struct Recorded {
    pub storage: LocalStorage,
    pub done: Result<Tail, Refusal>,
}

// What `commit` answers: the run, whose store is the one handed on, and its refusal, if a step failed; where no transaction is found no step is done.
#[derive(Clone, Copy)]
pub struct Committed {
    pub run: Run,
    pub found: Result<(), Refusal>,
}

// Whether the mark of an open transaction stands, with a log that is Recording.
fn is_recording(src: &[u8], store: &Store) -> bool
    requires { Readable src.now store.now.log }
    ensures { result ≡ (store.now.open_mark && is_recording (journal (log_bytes src.now store.now.log))) }
{
    store.open_mark && recovery::open_log(src, store.log) == Some(Status::Recording)
}

// Whether a Held log stands: a matter of its header alone.
fn is_held(src: &[u8], log: Option<LogRef>) -> bool
    requires { Readable src.now log }
    ensures { result ≡ is_held (journal (log_bytes src.now log)) }
{
    recovery::open_log(src, log) == Some(Status::Held)
}

// Whether the walk through a log ended at its end.
fn is_whole(ending: Ending) -> bool
    ensures { result ≡ is_whole ending }
{
    ending == Ending::Whole
}

// The open transaction. 01, Sixteen numbers, 4: "an untruncated, decodable Recording log of at most 32 operations".
pub fn open_transaction(src: &[u8], store: &Store) -> Option<WalRead>
    requires { Readable src.now store.now.log }
    ensures { Opens src.now (store_of src.now store.now) result }
{
    if !is_recording(src, store) {
        return None;
    }
    let l = store.log?;
    let start = usize::from(l.start);
    let end = start + usize::from(l.len);
    let read = wal::read_wal(src, start, end);
    if is_whole(read.ending) {
        return Some(read);
    }
    None
}

// 01, Sixteen numbers: "5. Recording meets 32 operations", after 4.
fn admit(src: &[u8], store: &Store) -> Result<(), Refusal>
    requires { Readable src.now store.now.log }
    ensures { Admits (store_of src.now store.now) result }
{
    let Some(read) = open_transaction(src, store) else {
        return Err(Refusal::NoTransaction);
    };
    if basics::OPERATION_LIMIT <= read.ops.len() {
        return Err(Refusal::TooManyOperations);
    }
    Ok(())
}

// A store without log, staging files and mark.
fn discarded(store: Store) -> Store
    ensures { (src : Bytes) → Discarded src store result }
{
    Store {
        tree: store.tree,
        staging: Table::new(),
        log: None,
        open_mark: false,
    }
}

impl LocalStorage {
    fn refuse(self, refusal: Refusal) -> Recorded
        ensures { result ≡ record { storage = self; done = Err refusal } }
    {
        Recorded {
            storage: self,
            done: Err(refusal),
        }
    }

    fn accept(self, op: Operation) -> Recorded
        ensures { result ≡ recorded_in self op }
    {
        Recorded {
            storage: self,
            done: Ok(Tail::Entry(op)),
        }
    }

    // The mark, and a log made anew (`create_wal`). 02, item 6: "17, begin while a Held log stands, tested after 3".
    pub fn begin_transaction(self, src: &[u8]) -> Recorded
        requires { Readable src.now self.store.log }
        ensures { SoundStore src.now self.store → Answers src.now (begin_transaction (storage_of src.now self)) self result }
    {
        if self.store.open_mark {
            return self.refuse(Refusal::TransactionBusy);
        }
        if is_held(src, self.store.log) {
            return self.refuse(Refusal::HeldUpdate);
        }
        let mut storage = self;
        storage.store.open_mark = true;
        Recorded {
            storage,
            done: Ok(Tail::Header),
        }
    }

    // All steps of the commit, or as many as the budget has; it ends in one of two ways (02, item 6). 01, Listings and file steps: "The open mark 0x14
    // goes with commit's last step": where the run did not stop.
    pub fn commit(self, src: &[u8], end: End, budget: Option<u64>) -> Committed
        requires { Ready src.now self.store × Within (map_of src.now self.store.tree) }
        ensures { Commits end src.now self.store budget result }
    {
        let Some(read) = open_transaction(src, &self.store) else {
            return Committed {
                run: Run::new(self.store, budget),
                found: Err(Refusal::NoTransaction),
            };
        };
        let mut run = commit::apply_inner(src, self.store, &read.ops, end, budget);
        if !run.stopped {
            run.store.open_mark = false;
        }
        Committed { run, found: Ok(()) }
    }

    // Log, staging files and mark go (`discard`).
    pub fn rollback(self, src: &[u8]) -> Recorded
        requires { Readable src.now self.store.log }
        ensures { SoundStore src.now self.store → Answers src.now (discard (storage_of src.now self)) self result }
    {
        if open_transaction(src, &self.store).is_none() {
            return self.refuse(Refusal::NoTransaction);
        }
        Recorded {
            storage: LocalStorage {
                store: discarded(self.store),
            },
            done: Ok(Tail::Nothing),
        }
    }

    // 4, 5, 6; "9. The collection to create exists."
    pub fn create_collection(self, src: &[u8], name: Option<NameRef>) -> Recorded
        requires { Ready src.now self.store × IfSome name (Sound src.now) }
        ensures { (c : Name) → Given src.now name c → Answers src.now (record_create c (storage_of src.now self)) self result }
    {
        if let Err(refusal) = admit(src, &self.store) {
            return self.refuse(refusal);
        }
        let Some(c) = name else {
            return self.refuse(Refusal::InvalidName);
        };
        if self.store.tree.dir_exists(src, c) {
            return self.refuse(Refusal::CollectionExists);
        }
        self.accept(Operation::CreateCollection(c))
    }

    // 4, 5, 6; "7. The collection to delete or to copy from is missing."
    pub fn delete_collection(self, src: &[u8], name: Option<NameRef>) -> Recorded
        requires { Ready src.now self.store × IfSome name (Sound src.now) }
        ensures { (c : Name) → Given src.now name c → Answers src.now (record_delete_collection c (storage_of src.now self)) self result }
    {
        if let Err(refusal) = admit(src, &self.store) {
            return self.refuse(refusal);
        }
        let Some(c) = name else {
            return self.refuse(Refusal::InvalidName);
        };
        if !self.store.tree.dir_exists(src, c) {
            return self.refuse(Refusal::CollectionNotFound);
        }
        self.accept(Operation::DeleteCollection(c))
    }

    // 4, 5, 6, 7; and 6 again: "copy's destination is tested after 7".
    pub fn copy_collection(
        self,
        src: &[u8],
        source: Option<NameRef>,
        dest: Option<NameRef>,
    ) -> Recorded
        requires { Ready src.now self.store × (IfSome source (Sound src.now) × IfSome dest (Sound src.now)) }
        ensures { (a b : Name) → Given src.now source a → Given src.now dest b → Answers src.now (record_copy a b (storage_of src.now self)) self result }
    {
        if let Err(refusal) = admit(src, &self.store) {
            return self.refuse(refusal);
        }
        let Some(from) = source else {
            return self.refuse(Refusal::InvalidName);
        };
        if !self.store.tree.dir_exists(src, from) {
            return self.refuse(Refusal::CollectionNotFound);
        }
        let Some(to) = dest else {
            return self.refuse(Refusal::InvalidName);
        };
        let existed = self.store.tree.dir_exists(src, to);
        self.accept(Operation::CopyCollection(from, to, existed))
    }
}
