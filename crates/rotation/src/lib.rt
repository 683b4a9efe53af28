// The update rotation: 02, item 7. It is written over the promises of the exported entries: begin, the two copies, the deletion and the commit are calls of
// them, each on what the one before handed back. `Returns` (crate handover, specs/Contract.antt) says what is in the lent outputs after a call.
#![tactic(auto)]

ghost use Rattle.std.specs.Prelude.{◌≡◌};
ghost use Rattle.answers.specs.Rotate.{rotate};
ghost use Rattle.rotation.specs.Asking.{has_file};
ghost use Rattle.handover.specs.Contract.{lent, room, Returns};
ghost use Rattle.recording.specs.Buffers.{Buffered};

use decode::Decoded;

// Whether the collection has a file, once the image is read: its name is put behind the image.
fn has_file_in(src: &mut [u8], image: &[u8], opened: Decoded, name: &[u8]) -> bool
    requires { Buffered image.now 0 0 opened src.old }
    ensures { result ≡ has_file (lent name) (lent image) }
{
    field::put_bytes(src, 0, image);
    let named = lend::lend_name(src, image.len(), name);
    match named.name {
        Some(c) => !opened.store.tree.is_dir_empty(src, c),
        None => false,
    }
}

// Whether a collection of the image has a file; an image that is refused has none.
fn has_file(image: &[u8], name: &[u8]) -> bool
    ensures { result ≡ has_file (lent name) (lent image) }
{
    let Ok(opened) = handover::open_image(image, true) else {
        return false;
    };
    let mut src = [0u8; recording::SOURCE_ROOM];
    has_file_in(&mut src, image, opened, name)
}

// Copies current to backup and next to current, and deletes next, as one transaction. Refusals: 1, 2, 3, 17, 19, 20; 14 and 15 hand back the commit's image.
pub fn cda_storage_rotate(image: &[u8], out: &mut [u8], written: &mut usize) -> u32
    ensures { Returns (rotate (lent image) (room out)) result out written }
{
    let mut a = [0u8; basics::IMAGE_ROOM];
    let mut n: usize = 0;
    let began = cda_storage::cda_storage_begin(image, &mut a, &mut n);
    if began == 1 {
        return 1;
    }
    if out.len() < basics::IMAGE_ROOM {
        return 2;
    }
    if began != 0 {
        return began;
    }
    let mut b = [0u8; basics::IMAGE_ROOM];
    let mut m: usize = 0;
    let copied = cda_storage::cda_storage_copy_collection(
        &a[..n],
        b"current",
        b"backup",
        &mut b,
        &mut m,
    );
    if copied != 0 {
        return 19;
    }
    if has_file(image, b"next") {
        cda_storage::cda_storage_copy_collection(&b[..m], b"next", b"current", &mut a, &mut n);
        cda_storage::cda_storage_delete_collection(&a[..n], b"next", &mut b, &mut m);
        return cda_storage::cda_storage_commit(&b[..m], out, written);
    }
    20
}
