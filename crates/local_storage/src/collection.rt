// The methods of local_collection.rs that record.
ghost use Rattle.std.specs.Prelude.{◌≡◌, ◌<◌, length, IfSome};
ghost use Rattle.basics.specs.Order.{Name};
ghost use Rattle.model.specs.Record.{record_write, record_delete, record_delete_all};
ghost use Rattle.spans.specs.Spans.{name_of, Sound, Given};
ghost use Rattle.store.specs.Places.{table_room};
ghost use Rattle.store.specs.Tables.{map_of, SoundTable};
ghost use Rattle.store.specs.Stores.{SoundStore};
ghost use Rattle.steps.specs.Steps.{FileName, Within};
ghost use Rattle.local_storage.specs.Recording.{Readable, Ready, storage_of, Answers, GivenKey, GivenWrite, can_stage, Staged};

use crate::{LocalStorage, Recorded};
use refusals::Refusal;
use spans::NameRef;
use store::{Node, Store, Table};
use transaction::Operation;

// 01, Sixteen numbers: "10. A staging file of a Write's staging name stands, 32 staging files stand, or the number is 0."
fn can_stage(src: &[u8], staging: &Table, staged: NameRef, number: u32) -> bool
    requires { SoundTable src.now staging.now × Sound src.now staged }
    ensures { result ≡ can_stage (name_of src.now staged) number (map_of src.now staging.now) }
{
    if staging.exists(src, spans::EMPTY, staged) {
        return false;
    }
    staging.nodes.len() < basics::STAGING_LIMIT && number != 0
}

// "An accepted Write adds its staging file."
fn stage(src: &[u8], store: &mut Store, staged: NameRef, number: u32)
    requires { (SoundTable src.now store.old.staging × Sound src.now staged) × (length (map_of src.now store.old.staging) < table_room) }
    ensures { SoundStore src.now store.old → Staged src.now staged number store.old store.new }
{
    store.staging.put(
        src,
        Node {
            dir: spans::EMPTY,
            file: staged,
            number,
        },
    );
}

impl LocalStorage {
    // 4, 5, 6, 10. 02, item 4: "every Write is recorded as kind 7", its mark 1 "if the key's file stood when it was recorded, else 0".
    pub fn write(
        self,
        src: &[u8],
        collection: Option<NameRef>,
        key: Option<NameRef>,
        staged: Option<NameRef>,
        number: u32,
    ) -> Recorded
        requires { Ready src.now self.store × (IfSome collection (Sound src.now) × (IfSome key (Sound src.now) × IfSome staged (Sound src.now))) }
        ensures { (c k f : Name) → GivenWrite src.now collection key staged c k f → Answers src.now (record_write c k f number (storage_of src.now self)) self result }
    {
        if let Err(refusal) = crate::admit(src, &self.store) {
            return self.refuse(refusal);
        }
        let (Some(c), Some(k), Some(f)) = (collection, key, staged) else {
            return self.refuse(Refusal::InvalidName);
        };
        if !can_stage(src, &self.store.staging, f, number) {
            return self.refuse(Refusal::StagingRefused);
        }
        let stood = self.store.tree.exists(src, c, k);
        let mut storage = self;
        stage(src, &mut storage.store, f, number);
        storage.accept(Operation::MarkedWrite(c, k, f, stood))
    }

    // 4, 5, 6; "8. The key to delete is missing, after the case rename."
    pub fn delete(self, src: &[u8], collection: Option<NameRef>, key: Option<NameRef>) -> Recorded
        requires { (Ready src.now self.store × Within (map_of src.now self.store.tree)) × (IfSome collection (Sound src.now) × IfSome key (FileName src.now)) }
        ensures { (c k : Name) → GivenKey src.now collection key c k → Answers src.now (record_delete c k (storage_of src.now self)) self result }
    {
        if let Err(refusal) = crate::admit(src, &self.store) {
            return self.refuse(refusal);
        }
        let (Some(c), Some(k)) = (collection, key) else {
            return self.refuse(Refusal::InvalidName);
        };
        let mut storage = self;
        local_collection::ensure_normalized_on_disk(src, &mut storage.store, c, k);
        if !storage.store.tree.exists(src, c, k) {
            return storage.refuse(Refusal::KeyNotFound);
        }
        storage.accept(Operation::Delete(c, k))
    }

    // 4, 5, 6. 01, Corners, local_collection.rs: "Deleting all in a missing collection is recorded."
    pub fn delete_all(self, src: &[u8], name: Option<NameRef>) -> Recorded
        requires { Readable src.now self.store.log × IfSome name (Sound src.now) }
        ensures { SoundStore src.now self.store → (c : Name) → Given src.now name c → Answers src.now (record_delete_all c (storage_of src.now self)) self result }
    {
        if let Err(refusal) = crate::admit(src, &self.store) {
            return self.refuse(refusal);
        }
        let Some(c) = name else {
            return self.refuse(Refusal::InvalidName);
        };
        self.accept(Operation::DeleteAll(c))
    }
}
