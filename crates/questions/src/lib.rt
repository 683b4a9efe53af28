// Asks the exported entries what a list asks: the library of the programs corners and replay, which only test. It takes any bytes whatever.
// Its contracts say which field is read, which call a byte is and how much is lent, and no more; what an entry answers is said in crate cda_storage.
//
// A list is a sequence of fields (01, How a store is handed over): 0x40, text to be printed; 0x41, a question whose answer is the original's, but
// for the kinds and marks of Writes; 0x42, one whose answer documents 01 and 02 alone decide. A question is itself a sequence of fields:
//
//     0x01  the call, one byte: 1 begin, 2 write, 3 delete, 4 delete_all, 5 create_collection, 6 delete_collection, 7 copy_collection,
//           8 rollback, 9 commit, 10 commit_step, 11 has_pending_work, 12 recover, 13 recover_step, 14 list_keys, 15 find_backup,
//           16 log_cause, 17 inventory, 18 hold, 19 hold_step, 20 keep, 21 keep_step, 22 revert, 23 revert_step,
//           24 canonical_log, 25 delete_keys (the keys as 0x03), 26 rotate
//     0x02  collection, source or name; 0x03 key; 0x04 staging name; 0x05 destination
//     0x06  content number in four bytes, or step number in eight
//     0x07  lengths of the lent outputs, four bytes each: image, keys, backup, text or log, step field; ample where absent
//     0x08  image, or the log alone for log_cause and canonical_log
//
// and, where the answer is to be compared, what was answered:
//
//     0x09  the number, one byte
//     0x0A  what was written to the output, 0x0B to the step's, absent where nothing was; 0x0C the pending word and 0x0D the cause, one byte
//           each, likewise
#![tactic(auto)]

mod calls;
mod layout;
mod list;

ghost use Rattle.std.specs.Prelude.{◌≡◌, ◌≤◌, ℕ, List, Option, length};
ghost use Rattle.questions.specs.Calls.{IsCall};
ghost use Rattle.questions.specs.Layout.{Finds, value_in, byte_in};

pub use calls::{Call, NoEntry};
use cda_storage::{
    cda_storage_begin, cda_storage_canonical_log, cda_storage_commit, cda_storage_commit_step,
    cda_storage_copy_collection, cda_storage_create_collection, cda_storage_delete,
    cda_storage_delete_all, cda_storage_delete_collection, cda_storage_delete_keys,
    cda_storage_find_backup, cda_storage_has_pending_work, cda_storage_hold, cda_storage_hold_step,
    cda_storage_inventory, cda_storage_keep, cda_storage_keep_step, cda_storage_list_keys,
    cda_storage_log_cause, cda_storage_recover, cda_storage_recover_step, cda_storage_revert,
    cda_storage_revert_step, cda_storage_rollback, cda_storage_write,
};
pub use layout::{Part, byte, find, value};
pub use list::{open_list, read_next};
use rotation::cda_storage_rotate;

pub const TEXT: u8 = 0x40;

pub const ASKED: u8 = 0x41;

pub const ASKED_BY_DOCUMENTS: u8 = 0x42;

pub const CALL: u8 = 0x01;

const NAME: u8 = 0x02;

const KEY: u8 = 0x03;

const STAGED: u8 = 0x04;

const DEST: u8 = 0x05;

const NUMBER: u8 = 0x06;

const LENT: u8 = 0x07;

const IMAGE: u8 = 0x08;

// Ample outputs are longer than the least that an entry takes, and the arrays that are lent of are longer still.
const AMPLE: usize = 19_395;

const AMPLE_STEP: usize = 200;

pub const ROOM: usize = 19_430;

pub const STEP_ROOM: usize = 300;

// What a counter, and the pending word and the cause, hold before a call: one that holds it still was not written.
pub const UNTOUCHED: usize = 0x5A5A_5A5A;

pub const UNTOUCHED_WORD: u32 = 0x5A5A_5A5A;

// The number of a call that no entry has.
pub const NO_ENTRY: u32 = 99;

// The most fields that a list has.
pub const MOST: u32 = 65_536;

// What is lent to an entry: two outputs with their counters, the pending word and the cause.
#[derive(Drop)]
struct Lent<'a> {
    out: &'a mut [u8],
    written: usize,
    step: &'a mut [u8],
    step_written: usize,
    pending: u32,
    cause: u32,
}

// The number; what was written to the outputs, the pending word and the cause, each if its counter or word was touched; and whether every byte behind
// the written ones is as it was.
#[derive(Clone, Copy)]
pub struct Answer<'a> {
    pub number: u32,
    pub output: Option<&'a [u8]>,
    pub step: Option<&'a [u8]>,
    pub pending: Option<u32>,
    pub cause: Option<u32>,
    pub clean: bool,
}

// The call of a question, if an entry has it.
pub fn call_of(q: &[u8]) -> Option<Call>
    ensures { (r : Option (List ℕ)) × Finds q.now 1 0 r × IsCall (byte_in (value_in r)) result }
{
    Call::try_from(byte(q, CALL)).ok()
}

fn content_number(q: &[u8]) -> u32 {
    field::u32_at(value(q, NUMBER), 0)
}

fn step_number(q: &[u8]) -> u64 {
    let v = value(q, NUMBER);
    u64::from(field::u32_at(v, 0)) + 0x1_0000_0000 * u64::from(field::u32_at(v, 4))
}

// How many bytes are lent of so many, by the length that stands at a place of its field.
fn lent_of(q: &[u8], at: usize, ample: usize, room: usize) -> usize
    ensures { result ≤ room }
{
    let v = value(q, LENT);
    let wanted = if v.is_empty() {
        ample
    } else {
        field::u32_at(v, at) as usize
    };
    wanted.min(room)
}

// A byte of the pattern that a lent output holds before a call. The turn differs from question to question.
fn pattern(i: usize, turn: usize) -> u8 {
    ((i % 251 + turn % 251) % 251) as u8
}

// The byte of the pattern behind another: no division for each byte.
fn behind(due: u8) -> u8 {
    if due < 250 { due + 1 } else { 0 }
}

fn fill(out: &mut [u8], turn: usize)
    ensures { length out.new ≡ length out.old }
{
    let mut due = pattern(0, turn);
    for b in out.iter_mut() {
        *b = due;
        due = behind(due);
    }
}

// Whether the bytes behind those that were written hold the pattern.
fn is_clean(out: &[u8], written: usize, turn: usize) -> bool {
    let Some(rest) = out.get(written..) else {
        return false;
    };
    let mut due = pattern(written, turn);
    for b in rest {
        if *b != due {
            return false;
        }
        due = behind(due);
    }
    true
}

// The bytes at the front of an output; none where it has fewer.
fn front(out: &[u8], n: usize) -> &[u8] {
    let bytes = out.get(..n);
    bytes.unwrap_or(b"")
}

// The entry of a call.
fn enter(call: Call, q: &[u8], lent: &mut Lent<'_>) -> u32 {
    let image = value(q, IMAGE);
    let name = value(q, NAME);
    let key = value(q, KEY);
    let staged = value(q, STAGED);
    let number = content_number(q);
    let n = step_number(q);
    let out = &mut *lent.out;
    let written = &mut lent.written;
    let step = &mut *lent.step;
    let step_written = &mut lent.step_written;
    let cause = &mut lent.cause;
    match call {
        Call::Begin => cda_storage_begin(image, out, written),
        Call::Write => cda_storage_write(image, name, key, staged, number, out, written),
        Call::Delete => cda_storage_delete(image, name, key, out, written),
        Call::DeleteAll => cda_storage_delete_all(image, name, out, written),
        Call::CreateCollection => cda_storage_create_collection(image, name, out, written),
        Call::DeleteCollection => cda_storage_delete_collection(image, name, out, written),
        Call::CopyCollection => cda_storage_copy_collection(
            image,
            name,
            value(q, DEST),
            out,
            written,
        ),
        Call::Rollback => cda_storage_rollback(image, out, written),
        Call::Commit => cda_storage_commit(image, out, written),
        Call::CommitStep => cda_storage_commit_step(image, n, out, written, step, step_written),
        Call::HasPendingWork => cda_storage_has_pending_work(image, &mut lent.pending),
        Call::Recover => cda_storage_recover(image, out, written, cause),
        Call::RecoverStep => cda_storage_recover_step(image, n, out, written, step, step_written),
        Call::ListKeys => cda_storage_list_keys(image, name, out, written),
        Call::FindBackup => cda_storage_find_backup(image, out, written),
        Call::LogCause => cda_storage_log_cause(image, cause),
        Call::Inventory => cda_storage_inventory(image, out, written),
        Call::Hold => cda_storage_hold(image, out, written),
        Call::HoldStep => cda_storage_hold_step(image, n, out, written, step, step_written),
        Call::Keep => cda_storage_keep(image, out, written),
        Call::KeepStep => cda_storage_keep_step(image, n, out, written, step, step_written),
        Call::Revert => cda_storage_revert(image, out, written, cause),
        Call::RevertStep => cda_storage_revert_step(image, n, out, written, step, step_written),
        Call::CanonicalLog => cda_storage_canonical_log(image, out, written),
        Call::DeleteKeys => cda_storage_delete_keys(image, name, key, out, written),
        Call::Rotate => cda_storage_rotate(image, out, written),
    }
}

// Asks an entry what the question asks. What it wrote is at the front of `out` and `step` then.
pub fn ask<'a>(q: &[u8], out: &'a mut [u8], step: &'a mut [u8]) -> Answer<'a> {
    let turn = q.len();
    fill(out, turn);
    fill(step, turn);
    let n = lent_of(q, 0, AMPLE, out.len());
    let m = lent_of(q, 4, AMPLE_STEP, step.len());
    let mut lent = Lent {
        out: &mut out[..n],
        written: UNTOUCHED,
        step: &mut step[..m],
        step_written: UNTOUCHED,
        pending: UNTOUCHED_WORD,
        cause: UNTOUCHED_WORD,
    };
    let number = match call_of(q) {
        Some(call) => enter(call, q, &mut lent),
        None => NO_ENTRY,
    };
    let written = Some(lent.written).filter(|n| *n != UNTOUCHED);
    let step_written = Some(lent.step_written).filter(|n| *n != UNTOUCHED);
    let pending = Some(lent.pending).filter(|n| *n != UNTOUCHED_WORD);
    let cause = Some(lent.cause).filter(|n| *n != UNTOUCHED_WORD);
    Answer {
        number,
        output: written.map(|n| front(out, n)),
        step: step_written.map(|n| front(step, n)),
        pending,
        cause,
        clean: is_clean(out, written.unwrap_or(0), turn)
            && is_clean(step, step_written.unwrap_or(0), turn),
    }
}
