// The files of one collection as keys: local_collection.rs. A key that is given stands in the lent bytes in lower case.
#![tactic(auto)]

ghost use Rattle.std.specs.Prelude.{◌≡◌, ◌≤◌, length};
ghost use Rattle.basics.specs.Base.{same_bytes};
ghost use Rattle.basics.specs.Name.{lower};
ghost use Rattle.model.specs.Store.{files};
ghost use Rattle.field.specs.Writing.{written, Writes};
ghost use Rattle.spans.specs.Spans.{name_of, Sound};
ghost use Rattle.model.specs.Record.{key_list};
ghost use Rattle.store.specs.Tables.{map_of, SoundTable};
ghost use Rattle.store.specs.Stores.{store_of, SoundStore};
ghost use Rattle.steps.specs.Steps.{FileName, Fits};
ghost use Rattle.local_collection.specs.Keys.{is_key, keys_of, Puts, OtherCaseOf, Normalized};

use spans::NameRef;
use steps::Step;
use store::{Store, Table};

// 01, Modules in port order: "key list (0x03 fields)".
const KEY_TAG: u8 = 3;

// Whether a name in lower case is the key (`eq_ignore_ascii_case`).
fn lowers_to(src: &[u8], file: NameRef, key: NameRef) -> bool
    requires { Sound src.now file × Sound src.now key }
    ensures { result ≡ same_bytes (lower (name_of src.now file)) (name_of src.now key) }
{
    if spans::length_of(file) != spans::length_of(key) {
        return false;
    }
    let (part, baks) = spans::slices(src, file);
    let (key_part, key_baks) = spans::slices(src, key);
    let mut pairs = part.iter().chain(baks).zip(key_part.iter().chain(key_baks));
    pairs.all(|(b, k)| b.to_ascii_lowercase() == *k)
}

// Whether a file is listed as a key: no backup, no staging file (`is_valid_key`).
#[tactic(auto, unfolding(crate::specs::Keys::is_key))]
pub fn is_valid_key(src: &[u8], file: NameRef) -> bool
    requires { Sound src.now file }
    ensures { result ≡ is_key (name_of src.now file) }
{
    !spans::is_backup(src, file) && !spans::is_tmp(src, file)
}

// The first file of a directory that is the key in another case, if there is one.
pub fn other_case(src: &[u8], t: &Table, dir: NameRef, key: NameRef) -> Option<NameRef>
    requires { SoundTable src.now t.now × (Sound src.now dir × Sound src.now key) }
    ensures { OtherCaseOf src.now (name_of src.now key) (files (name_of src.now dir) (map_of src.now t.now)) result }
{
    let listing = t.files(src, dir);
    for file in listing.as_slice() {
        if is_valid_key(src, *file) && lowers_to(src, *file, key) {
            return Some(*file);
        }
    }
    None
}

// A file that is the key in another case is renamed, unless the key's own stands (`ensure_normalized_on_disk`).
pub fn ensure_normalized_on_disk(src: &[u8], store: &mut Store, dir: NameRef, key: NameRef)
    requires { Fits src.now store.old × (Sound src.now dir × FileName src.now key) }
    ensures { Normalized src.now dir key store.old store.new }
{
    if store.tree.exists(src, dir, key) {
        return;
    }
    if let Some(file) = other_case(src, &store.tree, dir, key) {
        let rename = Step::RenameFile(dir, file, key);
        rename.apply(src, store);
    }
}

// A name in lower case, written at `at` (`normalize_key`).
fn put_lower(src: &[u8], file: NameRef, out: &mut [u8], at: usize)
    requires { Sound src.now file }
    ensures { out.new ≡ written at (lower (name_of src.now file)) out.old }
{
    let (part, baks) = spans::slices(src, file);
    if part.len() + baks.len() <= out.len().saturating_sub(at) {
        paths::normalize_key(part, out, at);
        paths::normalize_key(baks, out, at + part.len());
    }
}

// A key's field written at `at`, and how long it is.
fn put_key(src: &[u8], file: NameRef, out: &mut [u8], at: usize) -> usize
    requires { Sound src.now file }
    ensures { Puts (lower (name_of src.now file)) at out.old out.new result }
{
    let n = spans::length_of(file);
    if out.len().saturating_sub(at) < 3 + n {
        return 3 + n;
    }
    field::put_field_head(out, at, KEY_TAG, n as u16);
    put_lower(src, file, out, at + 3);
    3 + n
}

// The keys of a tree's directory as fields at the start of the output, and how long they are.
fn put_keys(src: &[u8], t: &Table, dir: NameRef, out: &mut [u8]) -> usize
    requires { (SoundTable src.now t.now × Sound src.now dir) × (length (keys_of (name_of src.now dir) (map_of src.now t.now)) ≤ length out.old) }
    ensures { Writes (keys_of (name_of src.now dir) (map_of src.now t.now)) 0 out.old out.new result }
{
    let listing = t.files(src, dir);
    let mut at: usize = 0;
    for file in listing.as_slice() {
        if is_valid_key(src, *file) {
            at += put_key(src, *file, out, at);
        }
    }
    at
}

// 01, Modules in port order: "key list (0x03 fields)" (`list_keys_in_dir`); a missing collection reads as empty.
pub fn list_keys(src: &[u8], store: &Store, dir: NameRef, out: &mut [u8]) -> usize
    requires { (SoundStore src.now store.now × Sound src.now dir) × (length (key_list (name_of src.now dir) (store_of src.now store.now)) ≤ length out.old) }
    ensures { Writes (key_list (name_of src.now dir) (store_of src.now store.now)) 0 out.old out.new result }
{
    put_keys(src, &store.tree, dir, out)
}
