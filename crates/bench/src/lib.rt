// What bench/ times, as functions for C: no part of the store.
#![tactic(auto)]

ghost use Rattle.std.specs.Prelude.{◌≤◌, IfSome, length};
ghost use Rattle.basics.specs.Base.{Bytes};
ghost use Rattle.basics.specs.Limits.{image_room};
ghost use Rattle.model.specs.Image.{encode};
ghost use Rattle.spans.specs.Spans.{Sound};
ghost use Rattle.store.specs.Tables.{SoundNode, SoundTable};
ghost use Rattle.store.specs.Stores.{store_of};
ghost use Rattle.steps.specs.Steps.{Fits, SoundStep, FileName};

use spans::NameRef;
use steps::{Run, Step};
use store::{Node, Store, Table};
use wal::Tail;

// The store of an image, if the image is not refused.
fn read(image: &[u8]) -> Option<Store>
    ensures fits { IfSome result (Fits image.now) }
    ensures room { IfSome result (λ s. length (encode (store_of image.now s)) ≤ image_room) }
{
    let d = decode::decode(image)?;
    Some(d.store)
}

// The node at a place of the image order, if one stands there.
fn node(t: &Table, at: usize) -> Option<Node>
    ensures { (src : Bytes) → SoundTable src t.now → IfSome result (SoundNode src) }
{
    t.nodes.as_slice().get(at).copied()
}

// The same, if it is a file.
fn file(t: &Table, at: usize) -> Option<Node>
    ensures { (src : Bytes) → SoundTable src t.now → IfSome result (λ x. SoundNode src x × FileName src x.file) }
{
    let x = node(t, at)?;
    if x.is_dir() {
        return None;
    }
    Some(x)
}

fn backup(image: &[u8], name: NameRef) -> Option<NameRef>
    requires { Sound image.now name }
    ensures { IfSome result (FileName image.now) }
{
    spans::backup(image, name)
}

// Reads an image and writes it again, its tree too; how many bytes were written.
#[unsafe(no_mangle)]
pub extern "C" fn bench_codec(image: &[u8], out: &mut [u8]) -> usize {
    let Some(store) = read(image) else {
        return 0;
    };
    if out.len() < basics::IMAGE_ROOM {
        return 0;
    }
    encode::encode(image, &store, Tail::Nothing, 0, out)
}

// Does a sync `rounds` times.
fn syncs(image: &[u8], store: Store, rounds: u32) -> u64
    requires { Fits image.now store }
{
    let mut run = Run::new(store, Some(1_000_000_000));
    for _ in 0..rounds {
        run.advance(image, Step::SyncJournal);
    }
    run.budget.unwrap_or(0)
}

// Renames a file `rounds` times.
fn renames(image: &[u8], store: Store, dir: NameRef, from: NameRef, to: NameRef, rounds: u32) -> u64
    requires { Fits image.now store × (Sound image.now dir × (FileName image.now from × FileName image.now to)) }
{
    let mut run = Run::new(store, Some(1_000_000_000));
    for _ in 0..rounds {
        run.advance(image, Step::RenameFile(dir, from, to));
        run.advance(image, Step::RenameFile(dir, to, from));
    }
    run.budget.unwrap_or(0)
}

// Attempts two steps in turn, `rounds` times.
fn attempts(image: &[u8], store: Store, x: Step, y: Step, rounds: u32) -> u64
    requires { Fits image.now store × (SoundStep image.now x × SoundStep image.now y) }
{
    let mut run = Run::new(store, Some(1_000_000_000));
    for _ in 0..rounds {
        run.attempt(image, x);
        run.attempt(image, y);
    }
    run.budget.unwrap_or(0)
}

// Syncs the journal of an image's store `rounds` times; what is left of a budget. Here and below 0 where the image is refused, or has no such name.
#[unsafe(no_mangle)]
pub extern "C" fn bench_sync(image: &[u8], rounds: u32) -> u64 {
    let Some(store) = read(image) else {
        return 0;
    };
    syncs(image, store, rounds)
}

fn rename(image: &[u8], at: usize, rounds: u32) -> Option<u64> {
    let store = read(image)?;
    let x = file(&store.tree, at)?;
    let to = backup(image, x.file)?;
    Some(renames(image, store, x.dir, x.file, to, rounds))
}

// Renames the file at a place of the image order to its backup name and back, `rounds` times.
#[unsafe(no_mangle)]
pub extern "C" fn bench_rename(image: &[u8], at: usize, rounds: u32) -> u64 {
    rename(image, at, rounds).unwrap_or(0)
}

fn copy(image: &[u8], at: usize, to: usize, rounds: u32) -> Option<u64> {
    let store = read(image)?;
    let x = file(&store.tree, at)?;
    let y = node(&store.tree, to)?;
    Some(attempts(
        image,
        store,
        Step::CopyFile(x.dir, y.dir, x.file),
        Step::CopyFile(y.dir, x.dir, x.file),
        rounds,
    ))
}

// Copies the file at a place of the image order into the directory of another place and back, `rounds` times.
#[unsafe(no_mangle)]
pub extern "C" fn bench_copy(image: &[u8], at: usize, to: usize, rounds: u32) -> u64 {
    copy(image, at, to, rounds).unwrap_or(0)
}

fn rename_dir(image: &[u8], at: usize, rounds: u32) -> Option<u64> {
    let store = read(image)?;
    let a = node(&store.tree, at)?.dir;
    let b = backup(image, a)?;
    Some(attempts(
        image,
        store,
        Step::RenameDirectory(a, b),
        Step::RenameDirectory(b, a),
        rounds,
    ))
}

// Renames the directory at a place of the image order to its backup name and back, `rounds` times.
#[unsafe(no_mangle)]
pub extern "C" fn bench_rename_dir(image: &[u8], at: usize, rounds: u32) -> u64 {
    rename_dir(image, at, rounds).unwrap_or(0)
}

// The checksum of bytes, from the table.
#[unsafe(no_mangle)]
pub extern "C" fn bench_checksum(s: &[u8]) -> u32 {
    crc32::hash(s)
}

// The same bit by bit.
#[unsafe(no_mangle)]
pub extern "C" fn bench_checksum_bit_by_bit(s: &[u8]) -> u32 {
    crc32::hash_bit_by_bit(s)
}

// Reads a log; how many operations it has.
#[unsafe(no_mangle)]
pub extern "C" fn bench_read_wal(log: &[u8]) -> usize {
    wal::read_wal(log, 0, log.len()).ops.len()
}
