// One road for every entry that records: the image is read, the given names are put behind it into one buffer, the method that is asked for
// answers, and its answer is handed on.
#![tactic(auto)]

ghost use Rattle.std.specs.Prelude.{◌≡◌, [], length, if◌then◌else◌};
ghost use Rattle.basics.specs.Limits.{image_room};
ghost use Rattle.handover.specs.Contract.{lent, room};
ghost use Rattle.handover.specs.Handing.{Hands};
ghost use Rattle.recording.specs.Asking.{entry_of, leaves_tree, Asks, Performs};
ghost use Rattle.recording.specs.Buffers.{Buffered};

use decode::Decoded;
use lend::Named;
use local_storage::{LocalStorage, Recorded};
use refusals::Refusal;
use store::Store;

// What is asked for: an operation to record, or begin or rollback.
#[derive(Clone, Copy, Debug, PartialEq, Eq)]
pub enum Asked {
    Begin,
    Write(u32),
    Delete,
    DeleteAll,
    CreateCollection,
    DeleteCollection,
    CopyCollection,
    Rollback,
}

// Room for an image and the three names of a Write. A small image takes a small buffer: the large one takes longer to clear than such an image
// takes to read.
pub const SOURCE_ROOM: usize = basics::IMAGE_ROOM + 192;

pub const SMALL_IMAGE: usize = 2_048;

pub const SMALL_ROOM: usize = SMALL_IMAGE + 192;

// How much of the image in front the answer has as it stands: the tree, up to its end, where it is left as it was.
fn kept(op: Asked, end: usize) -> usize
    ensures { result ≡ (if leaves_tree op then end else 0) }
{
    match op {
        Asked::Begin => end,
        Asked::Write(_) => end,
        Asked::Delete => 0,
        Asked::DeleteAll => end,
        Asked::CreateCollection => end,
        Asked::DeleteCollection => end,
        Asked::CopyCollection => end,
        Asked::Rollback => end,
    }
}

// The method that is asked for. A collection or a copy's source, a key, and a staging file or a copy's destination stand as `a`, `b` and `d` in
// the lent bytes; a name that an operation has not is not looked at.
fn answer(
    op: Asked,
    src: &[u8],
    store: Store,
    a: Named,
    b: Named,
    d: Named,
    collection: &[u8],
    key: &[u8],
    other: &[u8],
) -> Recorded
    requires { Asks src.now store a b d collection.now key.now other.now }
    ensures { Performs op (lent src) store (lent collection) (lent key) (lent other) result }
{
    let storage = LocalStorage { store };
    match op {
        Asked::Begin => storage.begin_transaction(src),
        Asked::Write(x) => storage.write(src, a.name, b.name, d.name, x),
        Asked::Delete => storage.delete(src, a.name, b.name),
        Asked::DeleteAll => storage.delete_all(src, a.name),
        Asked::CreateCollection => storage.create_collection(src, a.name),
        Asked::DeleteCollection => storage.delete_collection(src, a.name),
        Asked::CopyCollection => storage.copy_collection(src, a.name, d.name),
        Asked::Rollback => storage.rollback(src),
    }
}

// An entry once its image is read: the image and the names are put into `src`.
fn ask_in(
    src: &mut [u8],
    op: Asked,
    image: &[u8],
    opened: Decoded,
    collection: &[u8],
    key: &[u8],
    other: &[u8],
    out: &mut [u8],
) -> Result<usize, Refusal>
    requires { Buffered image.now image_room (length out.old) opened src.old }
    ensures { Hands (entry_of op (lent collection) (lent key) (lent other) (lent image) (room out)) result out }
{
    field::put_bytes(src, 0, image);
    let a = lend::lend_name(src, image.len(), collection);
    let b = lend::lend_key(src, a.end, key);
    let d = lend::lend_name(src, b.end, other);
    let front = kept(op, opened.tree_end);
    let r = answer(op, src, opened.store, a, b, d, collection, key, other);
    handover::hand_on(src, r, front, out)
}

// An entry with given names; one that the operation has not is an empty part.
pub fn ask(
    op: Asked,
    image: &[u8],
    collection: &[u8],
    key: &[u8],
    other: &[u8],
    out: &mut [u8],
) -> Result<usize, Refusal>
    ensures { Hands (entry_of op (lent collection) (lent key) (lent other) (lent image) (room out)) result out }
{
    let opened = handover::open_image(image, basics::IMAGE_ROOM <= out.len())?;
    if image.len() <= SMALL_IMAGE {
        let mut src = [0u8; SMALL_ROOM];
        return ask_in(&mut src, op, image, opened, collection, key, other, out);
    }
    let mut src = [0u8; SOURCE_ROOM];
    ask_in(&mut src, op, image, opened, collection, key, other, out)
}

// An entry with no names: the image itself is lent.
pub fn ask_unnamed(op: Asked, image: &[u8], out: &mut [u8]) -> Result<usize, Refusal>
    ensures { Hands (entry_of op [] [] [] (lent image) (room out)) result out }
{
    let opened = handover::open_image(image, basics::IMAGE_ROOM <= out.len())?;
    let none = lend::not_valid(0);
    let front = kept(op, opened.tree_end);
    let r = answer(op, image, opened.store, none, none, none, b"", b"", b"");
    handover::hand_on(image, r, front, out)
}
