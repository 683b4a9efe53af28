// A store's image, written at the front of the lent output: 01, How a store is handed over. And what names a backup, in the fields of an image.
// Which of the two listings is written is a flag, `staged`, as in crate decode.
#![tactic(auto)]

ghost use Rattle.std.specs.Prelude.{◌≡◌, false, ◌++◌, map, ◌+◌, ◌≤◌, ◌<◌, length};
ghost use Rattle.std.proofs.Math.Option.{some};
ghost use Rattle.basics.specs.Status.{status_byte};
ghost use Rattle.basics.specs.Field.{little_endian, encode_field, encode_fields};
ghost use Rattle.model.specs.Log.{header, with_status};
ghost use Rattle.model.specs.Image.{hit_fields, mark_field, encode};
ghost use Rattle.laws.specs.ImageLaws.{listed};
ghost use Rattle.field.specs.Writing.{written, field};
ghost use Rattle.spans.specs.Spans.{name_of, Sound};
ghost use Rattle.store.specs.Tables.{node_of, map_of, SoundNode, SoundTable};
ghost use Rattle.store.specs.Kept.{Kept};
ghost use Rattle.store.specs.Stores.{log_bytes, store_of, SoundLog, SoundStore};
ghost use Rattle.transaction.specs.Operations.{SoundOp};
ghost use Rattle.wal.specs.Tails.{with_tail, SoundTail};
ghost use Rattle.wal.specs.declared.Tail.TheVariants.{Entry};
ghost use Rattle.recovery.specs.Searches.{hit_of, SoundHit};
ghost use Rattle.encode.specs.Logs.{field_after, log_start};
ghost use Rattle.encode.specs.Sizes.{NodeSize, LogSize};
ghost use Rattle.encode.specs.Encoding.{Puts};

use basics::Status;
use recovery::search::BackupHit;
use spans::NameRef;
use store::{LogRef, Node, Store, Table};
use transaction::Operation;
use wal::Tail;

// What two bytes hold of a number.
fn low(n: usize) -> u16
    ensures { little_endian 2 result ≡ little_endian 2 n }
{
    (n % 0x1_0000) as u16
}

// How many bytes the field of a node has.
fn node_size(x: Node, staged: bool) -> usize
    ensures { NodeSize staged x result }
{
    if !staged && x.is_dir() {
        return 3 + spans::length_of(x.dir);
    }
    7 + spans::length_of(x.file)
}

fn log_size(log: Option<LogRef>) -> usize
    ensures { LogSize log result }
{
    let Some(l) = log else {
        return 0;
    };
    let n = usize::from(l.len);
    match l.rewritten {
        Some(_) => 11 + n.saturating_sub(8),
        None => 3 + n,
    }
}

// "0x11 (number, name)" and "0x12 (number, name)".
fn put_numbered(src: &[u8], name: NameRef, number: u32, out: &mut [u8], at: usize, tag: u8)
    requires { Sound src.now name }
    ensures { out.new ≡ written at (encode_field (field tag (little_endian 4 number ++ name_of src.now name))) out.old }
{
    names::put_fronted_field(src, &number.to_le_bytes(), name, out, at, tag);
}

// "for each directory […] 0x10 (name), followed by its files […], 0x11 (number, name); staging files […], 0x12 (number, name)"
fn put_node(src: &[u8], x: Node, staged: bool, out: &mut [u8], at: usize)
    requires { SoundNode src.now x }
    ensures { out.new ≡ written at (encode_field (listed staged (node_of src.now x))) out.old }
{
    if staged {
        put_numbered(src, x.file, x.number, out, at, 0x12);
    } else if x.is_dir() {
        names::put_name_field(src, x.dir, out, at, 0x10);
    } else {
        put_numbered(src, x.file, x.number, out, at, 0x11);
    }
}

// The directories with their files, or the staging files.
fn put_nodes(src: &[u8], t: &Table, staged: bool, out: &mut [u8], at: usize) -> usize
    requires { SoundTable src.now t.now × (at + length (encode_fields (map (listed staged) (map_of src.now t.now))) ≤ length out.old) }
    ensures { Puts (encode_fields (map (listed staged) (map_of src.now t.now))) at out.old out.new result }
{
    let mut p = at;
    for x in t.nodes.as_slice() {
        put_node(src, *x, staged, out, p);
        p += node_size(*x, staged);
    }
    p
}

// The directories with their files, at the front. Where they stand in the lent bytes as they are to be written, these `kept` bytes are copied.
fn put_tree(src: &[u8], t: &Table, kept: usize, out: &mut [u8]) -> usize
    requires { (SoundTable src.now t.now × Kept src.now kept (map_of src.now t.now)) × (length (encode_fields (map (listed false) (map_of src.now t.now))) ≤ length out.old) }
    ensures { Puts (encode_fields (map (listed false) (map_of src.now t.now))) 0 out.old out.new result }
{
    if kept == 0 {
        return put_nodes(src, t, false, out, 0);
    }
    field::put_bytes(out, 0, &src[..kept]);
    kept
}

// A log's bytes, in a field that has `more` bytes behind them.
fn put_plain(log: &[u8], more: usize, out: &mut [u8], at: usize)
    requires { (length log.now < 65536) × (more ≤ length out.old) }
    ensures { out.new ≡ written at (log_start more (some log.now)) out.old }
{
    if 3 + log.len() <= out.len().saturating_sub(at) {
        field::put_field_head(out, at, 0x13, low(log.len() + more));
        field::put_bytes(out, at + 3, log);
    }
}

// The same where the log's header is rewritten with a status. A shorter log than a header is rewritten whole (wal.rs, `WAL_FILE_HEADER_SIZE`).
fn put_marked(log: &[u8], status: Status, more: usize, out: &mut [u8], at: usize)
    requires { (length log.now < 65536) × (more ≤ length out.old) }
    ensures { out.new ≡ written at (log_start more (some (with_status (status_byte status) log.now))) out.old }
{
    let rest = &log[log.len().min(8)..];
    if 11 + rest.len() <= out.len().saturating_sub(at) {
        field::put_field_head(out, at, 0x13, low(8 + rest.len() + more));
        wal::rewrite_header(u8::from(status), out, at + 3);
        field::put_bytes(out, at + 11, rest);
    }
}

// "the log, 0x13, absent if there is none", in a field that has `more` bytes behind it.
fn put_log(src: &[u8], log: Option<LogRef>, more: usize, out: &mut [u8], at: usize)
    requires { SoundLog src.now log × (more ≤ length out.old) }
    ensures { out.new ≡ written at (log_start more (log_bytes src.now log)) out.old }
{
    let Some(l) = log else {
        return;
    };
    let start = usize::from(l.start);
    let end = start + usize::from(l.len);
    match l.rewritten {
        Some(status) => put_marked(&src[start..end], status, more, out, at),
        None => put_plain(&src[start..end], more, out, at),
    }
}

// The header of a new log: Recording (wal.rs, `create_wal`).
fn put_header(out: &mut [u8], at: usize)
    ensures { out.new ≡ written at (encode_field (field 0x13 (header 0))) out.old }
{
    field::write_field(
        out,
        at,
        0x13,
        &wal::encode_header(u8::from(Status::Recording)),
    );
}

// The log with an operation's entry behind it (wal.rs, `append_operation`); nothing where no log stands. The entry is written first: its length
// belongs to that of the log's field.
fn put_appended(src: &[u8], log: Option<LogRef>, op: Operation, out: &mut [u8], at: usize) -> usize
    requires { SoundLog src.now log × (SoundOp src.now op × (at + length (field_after src.now (Entry op) log) ≤ length out.old)) }
    ensures { Puts (field_after src.now (Entry op) log) at out.old out.new result }
{
    if log.is_none() {
        return at;
    }
    let next = at + log_size(log);
    let more = wal::append_operation(src, op, out, next).unwrap();
    put_log(src, log, more, out, at);
    next + more
}

// The log as it stands, that of a begun transaction, or the log with one more entry.
fn put_tail(src: &[u8], log: Option<LogRef>, tail: Tail, out: &mut [u8], at: usize) -> usize
    requires { SoundLog src.now log × (SoundTail src.now tail × (at + length (field_after src.now tail log) ≤ length out.old)) }
    ensures { Puts (field_after src.now tail log) at out.old out.new result }
{
    match tail {
        Tail::Nothing => {
            put_log(src, log, 0, out, at);
            at + log_size(log)
        }
        Tail::Header => {
            put_header(out, at);
            at + 11
        }
        Tail::Entry(op) => put_appended(src, log, op, out, at),
    }
}

// "0x14 of length 0 if a transaction is open"
fn put_mark(mark: bool, out: &mut [u8], at: usize) -> usize
    requires { at + length (encode_fields (mark_field mark)) ≤ length out.old }
    ensures { Puts (encode_fields (mark_field mark)) at out.old out.new result }
{
    if mark {
        field::put_field_head(out, at, 0x14, 0);
        return at + 3;
    }
    at
}

// "A store image is, in this order": each part behind the one before. The answer is how many bytes were written.
pub fn encode(src: &[u8], store: &Store, tail: Tail, kept: usize, out: &mut [u8]) -> usize
    requires { (SoundStore src.now store.now × SoundTail src.now tail) × (Kept src.now kept (map_of src.now store.now.tree) × (length (encode (with_tail src.now tail (store_of src.now store.now))) ≤ length out.old)) }
    ensures { Puts (encode (with_tail src.now tail (store_of src.now store.now))) 0 out.old out.new result }
{
    let a = put_tree(src, &store.tree, kept, out);
    let b = put_nodes(src, &store.staging, true, out, a);
    let c = put_tail(src, store.log, tail, out, b);
    put_mark(store.open_mark, out, c)
}

// The fields of a hit: 0x10 and 0x11 for a file, 0x10 for a directory, none for no backup. The answer is how many bytes were written.
pub fn put_hit(src: &[u8], hit: Option<BackupHit>, out: &mut [u8]) -> usize
    requires { SoundHit src.now hit × (length (encode_fields (hit_fields (hit_of src.now hit))) ≤ length out.old) }
    ensures { Puts (encode_fields (hit_fields (hit_of src.now hit))) 0 out.old out.new result }
{
    let Some(hit) = hit else {
        return 0;
    };
    match hit {
        BackupHit::File(x) => {
            let at = 3 + spans::length_of(x.dir);
            names::put_name_field(src, x.dir, out, 0, 0x10);
            put_numbered(src, x.file, x.number, out, at, 0x11);
            at + 7 + spans::length_of(x.file)
        }
        BackupHit::Directory(dir) => {
            names::put_name_field(src, dir, out, 0, 0x10);
            3 + spans::length_of(dir)
        }
    }
}
