// The log: wal.rs. 01, How a store is handed over: the header and the entries; Corners, wal.rs.
#![tactic(auto)]

ghost use Rattle.std.specs.Prelude.{◌≡◌, ◌-◌, [], ◌∷◌, length, slice_index, is_some, None, IfSome, IfOk, MatchResult};
ghost use Rattle.std.specs.Iterator.{at_most};
ghost use Rattle.basics.specs.Crc32.{crc32};
ghost use Rattle.basics.specs.Status.{status_byte};
ghost use Rattle.model.specs.Operation.{encode_payload};
ghost use Rattle.model.specs.Log.{cause_number, ending_cause, header, valid_header, entry, entries, read_journal};
ghost use Rattle.field.specs.Writing.{written};
ghost use Rattle.spans.specs.Spans.{name_of};
ghost use Rattle.transaction.specs.Operations.{op_of, Bounds, WritesOp};
ghost use Rattle.wal.specs.Logs.{journal_of, payload_at, cause_of, cause_if, ending_of, HeadAt, PayloadHead, EntryAt, Known, CanWalk, GivesEntry, ReadsLog, WalksLog};

use basics::Status;
use crc32::ALL_ONES;
use crc32::table::TABLE;
use fixed_vec::FixedVec;
use std::ops::Range;
use transaction::Operation;

// 01, How a store is handed over: "The log header: 0xCA, status (0x00 Recording, 0x01 Committing), two zero bytes, CRC-32 of the first two". 02, item 6:
// "status 0x02, Held".
const WAL_MAGIC: u8 = 0xCA;

// The register behind the first byte, and the checksums behind each status: looked up in the table when this is compiled.
const MAGIC_FED: u32 = (ALL_ONES >> 8) ^ TABLE[((ALL_ONES ^ WAL_MAGIC as u32) % 256) as usize];

const RECORDING_CHECKSUM: u32 = (MAGIC_FED >> 8) ^ TABLE[(MAGIC_FED % 256) as usize] ^ ALL_ONES;

const COMMITTING_CHECKSUM: u32 = (MAGIC_FED >> 8)
    ^ TABLE[((MAGIC_FED ^ 1) % 256) as usize]
    ^ ALL_ONES;

const HELD_CHECKSUM: u32 = (MAGIC_FED >> 8) ^ TABLE[((MAGIC_FED ^ 2) % 256) as usize] ^ ALL_ONES;

// The bytes of a header, and those of an entry before its payload.
const WAL_FILE_HEADER_SIZE: usize = 8;

const ENTRY_HEADER_SIZE: usize = 8;

// How an entry is broken. 02, item 1: "1 entry header too short, 2 payload missing (length 0 or past the end), 3 checksum wrong."
#[derive(Clone, Copy, Debug, PartialEq, Eq)]
pub enum Cause {
    HeaderShort = 1,
    PayloadMissing = 2,
    ChecksumWrong = 3,
}

impl From<Cause> for u32 {
    ghost from_gives = { λ cause n. n ≡ cause_number (cause_of cause) };

    fn from(cause: Cause) -> u32 {
        cause as u32
    }
}

// How the walk through the entries ended: at the log's end, at a truncated entry and how, at an undecodable payload (11), at a byte too many (12).
#[derive(Clone, Copy, Debug, PartialEq, Eq)]
pub enum Ending {
    Whole,
    Truncated(Cause),
    Undecodable,
    TooMany,
}

impl Ending {
    // The cause that an ending tells.
    pub fn cause(self) -> Option<Cause>
        ensures { cause_if result ≡ ending_cause (ending_of self) }
    {
        match self {
            Ending::Truncated(cause) => Some(cause),
            Ending::Whole | Ending::Undecodable | Ending::TooMany => None,
        }
    }
}

// The operations of a log, and how the walk ended (`WalReadResult`).
#[derive(Clone, Copy)]
pub struct WalRead {
    pub ops: FixedVec<Operation, { basics::OPERATION_LIMIT }>,
    pub ending: Ending,
}

// How a log is written into an image: as it stands; as the header of a new one; with an operation's entry behind it.
#[derive(Clone, Copy)]
pub enum Tail {
    Nothing,
    Header,
    Entry(Operation),
}

// The checksum of a header's first two bytes.
fn header_checksum(status: Status) -> u32
    ensures { result ≡ crc32 (0xCA ∷ status_byte status ∷ []) }
{
    match status {
        Status::Recording => RECORDING_CHECKSUM,
        Status::Committing => COMMITTING_CHECKSUM,
        Status::Held => HELD_CHECKSUM,
    }
}

// The header of a status: its checksum is known.
fn status_header(status: Status) -> [u8; 8]
    ensures { result ≡ header (status_byte status) }
{
    let mut h = [WAL_MAGIC, u8::from(status), 0, 0, 0, 0, 0, 0];
    field::put_u32(&mut h, 4, header_checksum(status));
    h
}

// The log's header with any second byte: a status, or what a store's log may name there. A `Status` as the parameter would ask more of callers.
pub fn encode_header(status: u8) -> [u8; 8]
    ensures { result ≡ header status }
{
    if let Ok(known) = Status::try_from(status) {
        return status_header(known);
    }
    let mut h = [WAL_MAGIC, status, 0, 0, 0, 0, 0, 0];
    field::put_u32(&mut h, 4, crc32::hash(&[WAL_MAGIC, status]));
    h
}

// The header rewritten with a status: Committing (`mark_committing`) or Held.
pub fn rewrite_header(status: u8, out: &mut [u8], at: usize)
    ensures { out.new ≡ written at (header status) out.old }
{
    field::put_bytes(out, at, &encode_header(status));
}

// The status of a log, if it has a valid header. 01, Corners, wal.rs: what is as if absent; 02, item 6: "01's status rule now starts above 0x02".
pub fn open_wal(log: &[u8]) -> Option<Status>
    ensures journal { journal_of result (entries log.now) ≡ read_journal log.now }
    ensures valid { is_some result ≡ valid_header log.now }
    ensures byte { IfSome result (λ status. slice_index log.now 1 ≡ status_byte status) }
{
    if log.len() < WAL_FILE_HEADER_SIZE {
        return None;
    }
    let status = Status::try_from(log[1]).ok()?;
    if log[0] == WAL_MAGIC && field::u32_at(log, 4) == header_checksum(status) {
        Some(status)
    } else {
        None
    }
}

// An entry's payload, handed out as that part of the lent log; an empty part where the bounds do not hold.
pub fn payload(log: &[u8], start: usize, end: usize) -> &[u8]
    ensures { result.now ≡ payload_at log.now start end }
{
    log.get(start..end).unwrap_or(&[])
}

// The entry that stands at `at`, by its head: where its payload stands. 01, Corners, wal.rs: what is truncated; 02, item 1: the tests in this order, the
// checksum's last (`held_to`).
pub fn entry_at(log: &[u8], at: usize) -> Result<Range<usize>, Cause>
    ensures { HeadAt log.now at result }
{
    if log.len().saturating_sub(at) < ENTRY_HEADER_SIZE {
        return Err(Cause::HeaderShort);
    }
    let start = at + ENTRY_HEADER_SIZE;
    let len = field::u32_at(log, at + 4) as usize;
    if len == 0 || log.len().saturating_sub(start) < len {
        return Err(Cause::PayloadMissing);
    }
    Ok(start..start + len)
}

// The entry that was found at `at`, held to the checksum of its payload. 02, item 1: "3 checksum wrong."
fn held_to(sum: u32, log: &[u8], at: usize, found: Range<usize>) -> Result<Range<usize>, Cause>
    requires { PayloadHead log.now at found.start found.end × (sum ≡ crc32 (payload_at log.now found.start found.end)) }
    ensures entry { EntryAt log.now at result }
    ensures same { IfOk result (λ held. held ≡ found) }
{
    if field::u32_at(log, at) != sum {
        return Err(Cause::ChecksumWrong);
    }
    Ok(found)
}

// The log walker: it borrows the log and remembers its next entry. 01, Forms that change shape: "The loop of `read_wal`".
#[derive(Clone, Copy)]
pub struct Walker<'a> {
    pub log: &'a [u8],
    pub at: usize,
}

impl<'a> Walker<'a> {
    // A walker behind the header.
    pub fn new(log: &'a [u8]) -> Walker<'a>
        ensures { (result.log ≡ log.entry) × (result.at ≡ 8) }
    {
        Walker {
            log,
            at: WAL_FILE_HEADER_SIZE,
        }
    }

    // The walker's next entry, by its head.
    pub fn next(self) -> Result<Range<usize>, Cause>
        ensures { HeadAt self.entry.log.now self.entry.at result }
    {
        entry_at(self.log, self.at)
    }

    // The walker behind the payload that ends at `end`.
    pub fn advance(self, end: usize) -> Walker<'a>
        ensures { (result.log ≡ self.entry.log) × (result.at ≡ end) }
    {
        Walker {
            log: self.log,
            at: end,
        }
    }
}

// The entries that a walker comes to, each held to its checksum: with the walker the checksums' table, and its next entry's checksum where that is known.
#[derive(Clone, Copy)]
struct CheckedEntries<'a> {
    walker: Walker<'a>,
    table: &'a [u32; 256],
    ahead: Option<u32>,
}

impl<'a> CheckedEntries<'a> {
    // Those from the walker's place on.
    fn new(walker: Walker<'a>, table: &'a [u32; 256]) -> Self
        ensures place { result.walker ≡ walker.entry }
        ensures sums { (result.table ≡ table.entry) × (result.ahead ≡ None) }
    {
        CheckedEntries {
            walker,
            table,
            ahead: None,
        }
    }

    // The checksum of the next entry's payload, which is taken here unless it is known, and in turn with it that of the entry behind, if the head of one
    // stands there.
    fn sums(&self, found: &Range<usize>) -> (u32, Option<u32>)
        requires { CanWalk self.now × PayloadHead self.now.walker.log.now self.now.walker.at found.now.start found.now.end }
        ensures sum { result.0 ≡ crc32 (payload_at self.now.walker.log.now found.now.start found.now.end) }
        ensures behind { Known self.now.walker.log.now found.now.end result.1 }
    {
        if let Some(sum) = self.ahead {
            return (sum, None);
        }
        let here = payload(self.walker.log, found.start, found.end);
        match self.walker.advance(found.end).next() {
            Err(_) => (crc32::hash_by(self.table, here), None),
            Ok(next) => {
                let behind = payload(self.walker.log, next.start, next.end);
                let (sum, ahead) = crc32::hash_two(self.table, here, behind);
                (sum, Some(ahead))
            }
        }
    }

    // The next entry, held to its checksum; with it the checksum of the entry behind it, where that was taken too.
    fn entry(&self) -> Result<(Range<usize>, Option<u32>), Cause>
        requires { CanWalk self.now }
        ensures { MatchResult result (λ x. EntryAt self.now.walker.log.now self.now.walker.at (Ok x.0) × Known self.now.walker.log.now x.0.end x.1)
            (λ cause. EntryAt self.now.walker.log.now self.now.walker.at (Err cause)) }
    {
        let found = self.walker.next()?;
        let (sum, behind) = self.sums(&found);
        let held = held_to(sum, self.walker.log, self.walker.at, found)?;
        Ok((held, behind))
    }
}

// Up to the log's end. A broken entry does not say where the next one stands: it is the last.
impl<'a> Iterator for CheckedEntries<'a> {
    type Item = Result<Range<usize>, Cause>;

    ghost can_next = { CanWalk };

    ghost next_gives = { GivesEntry };

    ghost remaining = { λ w. at_most (length w.walker.log.now - w.walker.at) };

    fn next(&mut self) -> Option<Result<Range<usize>, Cause>> {
        if self.walker.log.len() <= self.walker.at {
            return None;
        }
        match self.entry() {
            Ok((found, behind)) => {
                self.walker = self.walker.advance(found.end);
                self.ahead = behind;
                Some(Ok(found))
            }
            Err(cause) => {
                self.walker = self.walker.advance(self.walker.log.len());
                self.ahead = None;
                Some(Err(cause))
            }
        }
    }
}

// The entries from `first` on, up to `end`: at most 32 operations, and no entry behind these is judged. 01: "an entry that does not decode ends the walk
// at once".
fn walk_entries(src: &[u8], first: usize, end: usize) -> WalRead
    requires { Bounds src.now first end }
    ensures { WalksLog src.now first end result }
{
    let mut ops = FixedVec::new();
    let mut ending = Ending::Whole;
    if end <= first {
        return WalRead { ops, ending };
    }
    let table = crc32::byte_table();
    for entry in CheckedEntries::new(Walker::new(&src[..end]).advance(first), &table) {
        let found = match entry {
            Ok(found) => found,
            Err(cause) => {
                ending = Ending::Truncated(cause);
                break;
            }
        };
        let Some(op) = transaction::decode_operation(src, found.start, found.end) else {
            ending = Ending::Undecodable;
            break;
        };
        ops.push(op);
        if basics::OPERATION_LIMIT <= ops.len() && found.end < end {
            ending = Ending::TooMany;
            break;
        }
    }
    WalRead { ops, ending }
}

// The operations of the log between two places of the bytes, in which their names lie.
pub fn read_wal(src: &[u8], start: usize, end: usize) -> WalRead
    ensures { ReadsLog src.now start end result }
{
    if !transaction::in_bounds(src, start, end) {
        return WalRead {
            ops: FixedVec::new(),
            ending: Ending::Undecodable,
        };
    }
    let first = if end - start < WAL_FILE_HEADER_SIZE {
        end
    } else {
        start + WAL_FILE_HEADER_SIZE
    };
    walk_entries(src, first, end)
}

// The entry of an operation written at `at`, and how long it is; none where its names do not all lie in the bytes.
pub fn append_operation(src: &[u8], op: Operation, out: &mut [u8], at: usize) -> Option<usize>
    ensures { WritesOp src.now op (entry (encode_payload (op_of src.now op))) at out.old out.new result }
{
    let payload = transaction::payload_of(src, op)?;
    let len = ENTRY_HEADER_SIZE + payload.len();
    if len <= out.len().saturating_sub(at) {
        field::put_u32(out, at, crc32::hash(&payload));
        field::put_u32(out, at + 4, payload.len() as u32);
        field::put_bytes(out, at + ENTRY_HEADER_SIZE, &payload);
    }
    Some(len)
}
