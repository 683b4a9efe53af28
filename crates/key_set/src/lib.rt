// Deleting a set of keys at once: 02, item 8. The keys are read where they are lent; the entries of their deletes are written behind the log, in a copy
// of the image, and what is deleted is read off these.
#![tactic(auto)]

ghost use Rattle.std.specs.Prelude.{◌≡◌, List, [], ◌∷◌, map, ℕ, None, Some, IfSome, ◌+◌, ◌-◌, ◌≤◌, length};
ghost use Rattle.basics.specs.Order.{Name};
ghost use Rattle.basics.specs.Base.{Bytes, same_bytes, is_in};
ghost use Rattle.basics.specs.Name.{lower};
ghost use Rattle.model.specs.Store as model;
ghost use Rattle.model.specs.Operation.{Op};
ghost use Rattle.answers.specs.Answers.{outcome};
ghost use Rattle.laws.specs.OperationLaws.{ValidOp};
ghost use Rattle.store.specs.Stores.{store_of, SoundLog};
ghost use Rattle.steps.specs.Steps.{Fits};
ghost use Rattle.transaction.specs.Operations.{op_of, SoundOp};
ghost use Rattle.basic_laws.specs.Tests.{All};
ghost use Rattle.handover.specs.Contract.{lent, room};
ghost use Rattle.handover.specs.Handing.{Hands};
ghost use Rattle.model.specs.Record.{record_delete_keys};
ghost use Rattle.answers.specs.Answers.{delete_keys};
ghost use Rattle.key_set.specs.Deleting.{Deletes, Fills, Ready};
ghost use Rattle.key_set.specs.Gathering.{key_count, set_in, lowered_in, Few, AreFields, Roomy, Lendable, PutsEntry, Gathers, more};

use field::Fields;
use lend::Named;
use refusals::Refusal;
use store::{LogRef, Store};
use transaction::Operation;
use wal::Tail;

// 02, item 8: "as 0x03 fields one behind the other".
const KEY_TAG: u8 = 3;

// Room for an image, for its log once more, and for the entries of 32 deletes, each of at most 8 + 4 + 67 + 67 bytes.
const SOURCE_ROOM: usize = basics::IMAGE_ROOM + basics::LOG_LIMIT + 4_672;

// The keys of a set that were met: how many, and where the entries of their deletes end, if all names are valid.
#[derive(Clone, Copy, Debug, PartialEq, Eq)]
pub struct Gathered {
    pub count: usize,
    pub end: Option<usize>,
}

// Whether two keys are the same in lower case. Names that are much alike differ at their ends, so this goes from behind.
fn same_key(a: &[u8], b: &[u8]) -> bool
    ensures { result ≡ same_bytes (lower a.now) (lower b.now) }
{
    a.len() == b.len()
        && a.iter()
            .rev()
            .zip(b.iter().rev())
            .all(|(x, y)| x.eq_ignore_ascii_case(y))
}

// How many keys are given, repeats counted, if the bytes are key fields.
fn count_keys(keys: &[u8]) -> Option<usize>
    ensures { result ≡ key_count keys.now }
{
    let mut n: usize = 0;
    for x in Fields::of(keys) {
        let Ok(x) = x else {
            return None;
        };
        if x.tag != KEY_TAG {
            return None;
        }
        n += 1;
    }
    Some(n)
}

// Whether a key is among the fields before it.
fn is_repeated(before: &[u8], key: &[u8]) -> bool
    requires { AreFields before.now }
    ensures { result ≡ is_in (lower key.now) (lowered_in before.now) }
{
    for x in Fields::of(before) {
        let Ok(x) = x else {
            return false;
        };
        if same_key(key, &before[x.start..x.end]) {
            return true;
        }
    }
    false
}

// The entry of a key's delete written at `at`, and the place behind it, if both names are valid. The key is lent behind the collection.
fn put_entry(names: &mut [u8], c: Named, key: &[u8], out: &mut [u8], at: usize) -> Option<usize>
    requires { Lendable names.old c × (at ≤ 0xFFFF) }
    ensures { (collection : Name) → Roomy names.old c collection → Roomy names.new c collection × PutsEntry collection (lower key.now) at out.old out.new result }
{
    let a = c.name?;
    let k = lend::lend_key(names, c.end, key);
    let b = k.name?;
    Some(at + wal::append_operation(names, Operation::Delete(a, b), out, at)?)
}

// A key with those before it: an entry more, unless it is repeated.
fn add_key(
    names: &mut [u8],
    c: Named,
    before: &[u8],
    key: &[u8],
    out: &mut [u8],
    g: Gathered,
) -> Gathered
    requires { Lendable names.old c × (AreFields before.now × ((g.count ≤ 31) × IfSome g.end (λ e. e ≤ 0xFFFF))) }
    ensures { (collection : Name) (start : ℕ) (first : Bytes) (set : List Name) → Roomy names.old c collection → start + 4672 ≤ length first → length set ≤ 31 → Gathers collection start first set out.old g → Roomy names.new c collection × Gathers collection start first (more (lower key.now) (lowered_in before.now) set) out.new result }
{
    if is_repeated(before, key) {
        return g;
    }
    let count = g.count + 1;
    let Some(at) = g.end else {
        return Gathered { count, end: None };
    };
    Gathered {
        count,
        end: put_entry(names, c, key, out, at),
    }
}

// The entries of the keys' deletes written from `at` on, each key once, at its first place.
fn gather(keys: &[u8], names: &mut [u8], c: Named, out: &mut [u8], at: usize) -> Gathered
    requires { (Few keys.now × Lendable names.old c) × ((at + 4672 ≤ length out.old) × (length out.old ≤ 0xFFFF)) }
    ensures { (collection : Name) → Roomy names.old c collection → Gathers collection at out.old (set_in keys.now) out.new result }
{
    let mut g = Gathered {
        count: 0,
        end: c.name.map(|_| at),
    };
    let mut next: usize = 0;
    for x in Fields::of(keys) {
        let Ok(x) = x else {
            return g;
        };
        g = add_key(names, c, &keys[..next], &keys[x.start..x.end], out, g);
        next = x.end;
    }
    g
}

// The case rename of one delete's key, and whether the key stands then.
fn delete_one(src: &[u8], store: &mut Store, op: Operation) -> bool
    requires { Fits src.now store.old × (SoundOp src.now op × ValidOp (op_of src.now op)) }
    ensures { Deletes src.now (op_of src.now op ∷ []) store.old store.new result }
{
    let Operation::Delete(c, k) = op else {
        return false;
    };
    local_collection::ensure_normalized_on_disk(src, store, c, k);
    store.tree.exists(src, c, k)
}

// The same for operations in their order, up to the first whose key is missing.
fn delete_each(src: &[u8], store: &mut Store, ops: &[Operation]) -> bool
    requires { Fits src.now store.old × (All (SoundOp src.now) ops.now × All ValidOp (map (op_of src.now) ops.now)) }
    ensures { Deletes src.now (map (op_of src.now) ops.now) store.old store.new result }
{
    for op in ops {
        if !delete_one(src, store, *op) {
            return false;
        }
    }
    true
}

// The image, its log once more behind it, and the entries of the keys' deletes behind that.
fn fill(src: &mut [u8], image: &[u8], l: LogRef, collection: &[u8], keys: &[u8]) -> Gathered
    requires { (Few keys.now × SoundLog image.now (Some l)) × ((length image.now + l.len + 4672 ≤ length src.old) × (length src.old ≤ 0xFFFF)) }
    ensures { Fills image.now l collection.now keys.now src.old src.new result }
{
    let start = usize::from(l.start);
    let len = usize::from(l.len);
    let end = start + len;
    let at = image.len();
    field::put_bytes(src, 0, image);
    field::put_bytes(src, at, &image[start..end]);
    let mut names = [0u8; 128];
    let c = lend::lend_name(&mut names, 0, collection);
    gather(keys, &mut names, c, src, at + len)
}

// A store with its log between two places of the bytes.
fn with_log(store: Store, start: usize, end: usize) -> Store
    requires { (start ≤ end) × (end ≤ 0xFFFF) }
    ensures { result ≡ record { tree = store.tree; staging = store.staging; log = Some (record { start = start; len = end - start; rewritten = None }); open_mark = store.open_mark } }
{
    let log = Some(LogRef {
        start: start as u16,
        len: (end - start) as u16,
        rewritten: None,
    });
    Store { log, ..store }
}

// The entry once its image is read and a transaction of n operations is found: 5, 6, 8.
fn delete_in(
    src: &mut [u8],
    image: &[u8],
    store: Store,
    log: LogRef,
    n: usize,
    collection: &[u8],
    keys: &[u8],
    out: &mut [u8],
) -> Result<usize, Refusal>
    requires { Ready image.now keys.now store log n src.old (length out.old) }
    ensures { Hands (outcome (record_delete_keys (lent collection) (lent keys) (store_of (lent image) store))) result out }
{
    let g = fill(src, image, log, collection, keys);
    if basics::OPERATION_LIMIT < n + g.count {
        return Err(Refusal::TooManyOperations);
    }
    let Some(end) = g.end else {
        return Err(Refusal::InvalidName);
    };
    let at = image.len();
    let mut moved = with_log(store, at, end);
    let read = wal::read_wal(src, at, end);
    if !delete_each(src, &mut moved, &read.ops[n..]) {
        return Err(Refusal::KeyNotFound);
    }
    Ok(handover::hand_image(src, &moved, Tail::Nothing, 0, out))
}

// `cda_storage_delete_keys`: 1, 2, 4; 6 where the keys are no such fields, none, or over 32; then 5, 6, 8.
pub fn delete_keys(
    image: &[u8],
    collection: &[u8],
    keys: &[u8],
    out: &mut [u8],
) -> Result<usize, Refusal>
    ensures { Hands (delete_keys (lent collection) (lent keys) (lent image) (room out)) result out }
{
    let opened = handover::open_image(image, basics::IMAGE_ROOM <= out.len())?;
    let found = local_storage::open_transaction(image, &opened.store);
    let (Some(log), Some(read)) = (opened.store.log, found) else {
        return Err(Refusal::NoTransaction);
    };
    let Some(1..=basics::OPERATION_LIMIT) = count_keys(keys) else {
        return Err(Refusal::InvalidName);
    };
    let n = read.ops.len();
    let mut src = [0u8; SOURCE_ROOM];
    delete_in(&mut src, image, opened.store, log, n, collection, keys, out)
}
