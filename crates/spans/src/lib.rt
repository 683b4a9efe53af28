#![tactic(auto)]

ghost use Rattle.std.specs.Prelude.{◌≡◌, [], ◌≤◌, ◌<◌, ◌+◌, ◌*◌, ◌++◌, length, take, drop, min};
ghost use Rattle.basics.specs.Limits.{name_limit};
ghost use Rattle.basics.specs.Order.{cmp_name};
ghost use Rattle.basics.specs.Base.{same_bytes};
ghost use Rattle.basics.specs.Name.{is_backup, is_tmp};
ghost use Rattle.paths.specs.Compare.{order_of};
ghost use Rattle.spans.specs.Spans.{backups, name_of, length_of, from_big_endian, Sound, Decides, Names, Backup, Original};

use std::cmp::Ordering;

// A name that stands in the lent bytes, with ".bak" behind it some times: `name_of` (specs/Spans.antt). It is a place in them and no slice: a
// backup's name stands nowhere in the lent bytes, and there is no heap to put it. And a node whose names hold their slices has 56 bytes in place
// of 12: the same tables, written in Rust, took 0.72 µs to fill so in place of 0.18, and a file's rename 0.52 in place of 0.38 with names of
// 12 bytes, 0.70 in place of 0.59 with names of 60. The bytes are a parameter beside a table and no field of it, since then every clause would have
// to say that they are still the same bytes.
#[derive(Clone, Copy, Debug, Default, PartialEq, Eq)]
pub struct NameRef {
    pub start: u16,
    pub len: u8,
    pub baks: u8,
}

// ".bak" as often as a name of at most 64 bytes has it behind it.
const BAKS: &[u8] = b".bak.bak.bak.bak.bak.bak.bak.bak.bak.bak.bak.bak.bak.bak.bak.bak";

// The empty name: a directory's own file name, and the directory name of a staging file.
pub const EMPTY: NameRef = NameRef {
    start: 0,
    len: 0,
    baks: 0,
};

// A part of the bytes as a name.
pub fn span(src: &[u8], start: usize, len: usize) -> NameRef
    requires { (start < 65536) × (len ≤ name_limit) × (start + len ≤ length src.now) }
    ensures { Names src.now result (take len (drop start src.now)) }
{
    NameRef {
        start: start as u16,
        len: len as u8,
        baks: 0,
    }
}

// How many bytes a name has.
pub fn length_of(r: NameRef) -> usize
    ensures { (result ≡ length_of r) × (result < 2048) }
{
    usize::from(r.len) + usize::from(r.baks) * 4
}

// Whether a name lies in the bytes and has at most 64 bytes.
pub fn is_sound(src: &[u8], r: NameRef) -> bool
    ensures { Decides (Sound src.now r) result }
{
    let end = usize::from(r.start) + usize::from(r.len);
    if src.len() < end {
        return false;
    }
    length_of(r) <= basics::NAME_LIMIT
}

// ".bak" so many times.
fn baks(n: u8) -> &'static [u8]
    requires { n ≤ 16 }
    ensures { result.now ≡ backups n [] }
{
    &BAKS[..usize::from(n) * 4]
}

// A name's bytes: its part of the lent bytes, and ".bak" behind it some times.
pub fn slices(src: &[u8], r: NameRef) -> (&[u8], &'static [u8])
    requires { Sound src.now r }
    ensures whole { result.0.now ++ result.1.now ≡ name_of src.now r }
    ensures lengths { (length result.0.now ≡ r.len) × (length result.1.now ≡ r.baks * 4) }
{
    let start = usize::from(r.start);
    let part = &src[start..start + usize::from(r.len)];
    (part, baks(r.baks))
}

// The number of the four bytes at `at`, and of the eight, the most significant first: the order of the numbers is that of the bytes.
// Byte by byte, which is one load: `first_chunk` and `unwrap` leave a test in the loop of `compare`.
fn four_at(src: &[u8], at: usize) -> u32
    requires { at + 4 ≤ length src.now }
    ensures { result ≡ from_big_endian (take 4 (drop at src.now)) }
{
    u32::from_be_bytes([src[at], src[at + 1], src[at + 2], src[at + 3]])
}

fn eight_at(src: &[u8], at: usize) -> u64
    requires { at + 8 ≤ length src.now }
    ensures { result ≡ from_big_endian (take 8 (drop at src.now)) }
{
    u64::from_be_bytes([
        src[at],
        src[at + 1],
        src[at + 2],
        src[at + 3],
        src[at + 4],
        src[at + 5],
        src[at + 6],
        src[at + 7],
    ])
}

// 01, Listings and file steps: "in ascending byte order, a shorter name before a longer one that begins with it". First the bytes that both have
// in their spans, by eights, by four and one by one, then those behind. By the library's order of two slices (`paths::compare`) a rename takes
// 0.28 µs where it takes 0.14 so, with names of 12 bytes, and 0.43 for 0.22 with names of 60.
pub fn compare(src: &[u8], a: NameRef, b: NameRef) -> Ordering
    requires { Sound src.now a × Sound src.now b }
    ensures { order_of result ≡ cmp_name (name_of src.now a) (name_of src.now b) }
{
    let p = usize::from(a.start);
    let q = usize::from(b.start);
    let m = usize::from(a.len.min(b.len));
    let mut i: usize = 0;
    while i + 8 <= m {
        let x = eight_at(src, p + i);
        let y = eight_at(src, q + i);
        if x != y {
            return x.cmp(&y);
        }
        i += 8;
    }
    compare_spans(src, a, b, i)
}

// The order of two names whose bytes before `at` are equal, where both spans have these.
fn compare_spans(src: &[u8], a: NameRef, b: NameRef, at: usize) -> Ordering
    requires { (Sound src.now a × Sound src.now b) × ((at ≤ a.len) × (at ≤ b.len)) }
    ensures { order_of result ≡ cmp_name (drop at (name_of src.now a)) (drop at (name_of src.now b)) }
{
    let p = usize::from(a.start);
    let q = usize::from(b.start);
    let m = usize::from(a.len.min(b.len));
    let mut i = at;
    if i + 4 <= m {
        let x = four_at(src, p + i);
        let y = four_at(src, q + i);
        if x != y {
            return x.cmp(&y);
        }
        i += 4;
    }
    while i < m {
        let x = src[p + i];
        let y = src[q + i];
        if x != y {
            return x.cmp(&y);
        }
        i += 1;
    }
    compare_from(src, a, b, i)
}

// The order of two names whose bytes before `at` are equal, where one of the spans ends there. Inlined into `compare` it makes a rename take
// 0.24 µs in place of 0.14.
#[inline(never)]
fn compare_from(src: &[u8], a: NameRef, b: NameRef, at: usize) -> Ordering
    requires { (Sound src.now a × Sound src.now b) × (at ≡ min a.len b.len) }
    ensures { order_of result ≡ cmp_name (drop at (name_of src.now a)) (drop at (name_of src.now b)) }
{
    // One begins with the other.
    if a.len == b.len || (a.baks == 0 && b.baks == 0) {
        return length_of(a).cmp(&length_of(b));
    }
    let (x, x_baks) = slices(src, a);
    let (y, y_baks) = slices(src, b);
    x[at..]
        .iter()
        .chain(x_baks)
        .cmp(y[at..].iter().chain(y_baks))
}

// Whether two names are the same. Names at one place are, and their bytes are not looked at.
pub fn same(src: &[u8], a: NameRef, b: NameRef) -> bool
    requires { Sound src.now a × Sound src.now b }
    ensures { result ≡ same_bytes (name_of src.now a) (name_of src.now b) }
{
    a == b || compare(src, a, b).is_eq()
}

// Whether a name is a backup name: its extension is "bak" (recovery.rs, `BACKUP_EXTENSION`).
pub fn is_backup(src: &[u8], r: NameRef) -> bool
    requires { Sound src.now r }
    ensures { result ≡ is_backup (name_of src.now r) }
{
    if r.baks > 0 {
        return 4 < length_of(r);
    }
    paths::is_backup(slices(src, r).0)
}

// Whether a name has the extension of staging files, "tmp" (recovery.rs, `STAGING_EXTENSION`).
pub fn is_tmp(src: &[u8], r: NameRef) -> bool
    requires { Sound src.now r }
    ensures { result ≡ is_tmp (name_of src.now r) }
{
    r.baks == 0 && paths::is_tmp(slices(src, r).0)
}

// The backup name of a name, where that has at most 64 bytes. 01, Sixteen numbers, 14: "backup name over 64 bytes".
pub fn backup(src: &[u8], r: NameRef) -> Option<NameRef>
    requires { Sound src.now r }
    ensures { Backup src.now r result }
{
    let n = length_of(r);
    if n + 4 <= basics::NAME_LIMIT {
        Some(NameRef {
            baks: r.baks + 1,
            ..r
        })
    } else {
        None
    }
}

// The name whose backup name it is, if it is one. 01, Corners, paths.rs: ""a.bak" is a backup; ".bak" has no extension".
pub fn original(src: &[u8], r: NameRef) -> Option<NameRef>
    requires { Sound src.now r }
    ensures { Original src.now r result }
{
    if !is_backup(src, r) {
        return None;
    }
    Some(if r.baks > 0 {
        NameRef {
            baks: r.baks - 1,
            ..r
        }
    } else {
        NameRef {
            len: r.len - 4,
            ..r
        }
    })
}
