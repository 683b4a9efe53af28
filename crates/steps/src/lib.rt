// The file steps on a store, and runs of them with a budget: 01, Listings and file steps.
#![tactic(auto)]

ghost use Rattle.std.specs.Prelude.{◌≡◌, ◌+◌, ◌-◌, ◌<◌, ◌≤◌, length, map, option_map};
ghost use Rattle.std.specs.List.{sum_by};
ghost use Rattle.std.proofs.Math.Option.{some};
ghost use Rattle.basics.specs.Base.{Bytes, case_option};
ghost use Rattle.basics.specs.Map.{look, put, del};
ghost use Rattle.basics.specs.Field.{encode_field};
ghost use Rattle.basic_laws.specs.Tests.{All};
ghost use Rattle.model.specs.Step.{fails, new_file, zero_separated, step_field, commit_number};
ghost use Rattle.refusals.specs.Numbers.{told};
ghost use Rattle.field.specs.Writing.{Writes, field};
ghost use Rattle.spans.specs.Spans.{name_of, length_of, Sound};
ghost use Rattle.store.specs.Places.{table_room};
ghost use Rattle.store.specs.Tables.{key_of, map_of, SoundTable, Holds, held_of};
ghost use Rattle.store.specs.Stores.{store_of, SoundStore};
ghost use Rattle.plans.specs.Machine.{single};
ghost use Rattle.plans.specs.ModelPlans.{plain, careful, fault};
ghost use Rattle.steps.specs.Steps.{step_of, SoundStep, Fits, Allowed, Applied, rewritten_as};
ghost use Rattle.steps.specs.CodeRuns.{SoundRun, Fresh, Follows, Refuses};

use basics::Status;
use refusals::Refusal;
use spans::{EMPTY, NameRef};
use store::{LogRef, Node, Store, Table};

// The file steps, each with its names in the order of 01, Listings and file steps; `HoldHeader` rewrites the header with Held (02, item 6).
#[derive(Clone, Copy, Debug, PartialEq, Eq)]
pub enum Step {
    RewriteHeader,
    HoldHeader,
    SyncStaging,
    SyncLog,
    RemoveLog,
    SyncJournal,
    SyncCollections,
    MakeDirectory(NameRef),
    RenameFile(NameRef, NameRef, NameRef),
    MoveStaged(NameRef, NameRef, NameRef),
    RenameDirectory(NameRef, NameRef),
    CopyFile(NameRef, NameRef, NameRef),
    RemoveFile(NameRef, NameRef),
    RemoveDirectory(NameRef),
    RemoveStaging(NameRef),
    SyncDirectory(NameRef),
}

// A store on which steps are done: at most `budget` more, where there is one. `stopped`: a step was due with none left. `refusal`: that of the step
// that failed. `last`: the step that was done last.
#[derive(Clone, Copy)]
pub struct Run {
    pub store: Store,
    pub budget: Option<u64>,
    pub stopped: bool,
    pub refusal: Option<Refusal>,
    pub last: Step,
}

// A file or a directory put into the tree, in place of one at the same place. Not `Table::put` itself, since that leaves a full table as it is, and here
// there is room.
fn put_in(src: &[u8], t: &mut Table, dir: NameRef, file: NameRef, number: u32)
    requires { (SoundTable src.now t.old × (Sound src.now dir × Sound src.now file)) × (length (map_of src.now t.old) < table_room) }
    ensures { Holds src.now t.new (put (key_of src.now dir file) number (map_of src.now t.old)) }
{
    let node = Node { dir, file, number };
    t.put(src, node);
}

// What was found put into the tree at a place, if it was.
fn put_held(src: &[u8], t: &mut Table, held: Option<u32>, dir: NameRef, file: NameRef)
    requires { (SoundTable src.now t.old × (Sound src.now dir × Sound src.now file)) × (length (map_of src.now t.old) < table_room) }
    ensures { Holds src.now t.new (case_option (held_of held) (map_of src.now t.old) (λ x. put (key_of src.now dir file) x (map_of src.now t.old))) }
{
    if let Some(number) = held {
        put_in(src, t, dir, file, number);
    }
}

// A file renamed, its target replaced.
fn rename_file(src: &[u8], t: &mut Table, dir: NameRef, from: NameRef, to: NameRef)
    requires { ((SoundTable src.now t.old × Sound src.now dir) × (Sound src.now from × Sound src.now to)) × (length (map_of src.now t.old) < table_room) }
    ensures { Holds src.now t.new (case_option (look (key_of src.now dir from) (map_of src.now t.old)) (map_of src.now t.old) (λ x. put (key_of src.now dir to) x (del (key_of src.now dir from) (map_of src.now t.old)))) }
{
    let held = t.look(src, dir, from);
    t.del(src, dir, from);
    put_held(src, t, held, dir, to);
}

// A log, if there is one, whose header is rewritten with a status.
fn rewritten(log: Option<LogRef>, status: Status) -> Option<LogRef>
    ensures { result ≡ option_map (rewritten_as status) log }
{
    log.map(|l| LogRef {
        rewritten: Some(status),
        ..l
    })
}

// What a file at a place is refused with, if it would be one too many.
fn new_file(src: &[u8], t: &Table, dir: NameRef, file: NameRef) -> Result<(), Refusal>
    requires { SoundTable src.now t.now × (Sound src.now dir × Sound src.now file) }
    ensures { told result ≡ commit_number (new_file (key_of src.now dir file) (map_of src.now t.now)) }
{
    if t.exists(src, dir, file) {
        return Ok(());
    }
    let c = t.count();
    if c.files < basics::FILE_LIMIT {
        return Ok(());
    }
    Err(Refusal::StoreFull)
}

// What a step that takes what was found to a place is refused with: where nothing was found, or there is no room for a file.
fn from_held(
    src: &[u8],
    t: &Table,
    held: Option<u32>,
    dir: NameRef,
    file: NameRef,
) -> Result<(), Refusal>
    requires { SoundTable src.now t.now × (Sound src.now dir × Sound src.now file) }
    ensures { told result ≡ commit_number (case_option (held_of held) (some fails) (λ x. new_file (key_of src.now dir file) (map_of src.now t.now))) }
{
    held.ok_or(Refusal::StepFailed)?;
    new_file(src, t, dir, file)
}

impl Step {
    // What it makes of a store.
    pub fn apply(self, src: &[u8], store: &mut Store)
        requires { (Fits src.now store.old × SoundStep src.now self) × Allowed (step_of src.now self) (store_of src.now store.old) }
        ensures { Applied src.now self store.old store.new }
    {
        match self {
            Step::RewriteHeader => {
                store.log = rewritten(store.log, Status::Committing);
            }
            Step::HoldHeader => {
                store.log = rewritten(store.log, Status::Held);
            }
            Step::RemoveLog => {
                store.log = None;
            }
            Step::MakeDirectory(d) => put_in(src, &mut store.tree, d, EMPTY, 0),
            Step::RenameFile(d, a, b) => rename_file(src, &mut store.tree, d, a, b),
            Step::MoveStaged(f, d, k) => {
                let held = store.staging.look(src, EMPTY, f);
                put_held(src, &mut store.tree, held, d, k);
                store.staging.del(src, EMPTY, f);
            }
            Step::RenameDirectory(a, b) => store.tree.rename_dir(src, a, b),
            Step::CopyFile(a, b, f) => {
                let held = store.tree.look(src, a, f);
                put_held(src, &mut store.tree, held, b, f);
            }
            Step::RemoveFile(d, f) => store.tree.del(src, d, f),
            Step::RemoveDirectory(d) => store.tree.remove_dir(src, d),
            Step::RemoveStaging(f) => store.staging.del(src, EMPTY, f),
            Step::SyncStaging
            | Step::SyncLog
            | Step::SyncJournal
            | Step::SyncCollections
            | Step::SyncDirectory(_) => {}
        }
    }

    // What it is refused with, if it fails: 01, Sixteen numbers, "14. A commit step fails", "15. A commit step needs a 17th directory or a 129th file."
    pub fn fault(self, src: &[u8], store: &Store) -> Result<(), Refusal>
        requires { SoundStore src.now store.now × SoundStep src.now self }
        ensures { told result ≡ fault (step_of src.now self) (store_of src.now store.now) }
    {
        match self {
            Step::MakeDirectory(_) => {
                let n = store.tree.count();
                if n.dirs < basics::DIR_LIMIT {
                    Ok(())
                } else {
                    Err(Refusal::StoreFull)
                }
            }
            Step::MoveStaged(f, d, k) => {
                let held = store.staging.look(src, EMPTY, f);
                from_held(src, &store.tree, held, d, k)
            }
            Step::RenameDirectory(_, b) => {
                if store.tree.is_dir_empty(src, b) {
                    Ok(())
                } else {
                    Err(Refusal::StepFailed)
                }
            }
            Step::CopyFile(a, b, f) => {
                let held = store.tree.look(src, a, f);
                from_held(src, &store.tree, held, b, f)
            }
            _ => Ok(()),
        }
    }
}

impl Run {
    // A run of which no step is done yet.
    pub fn new(store: Store, budget: Option<u64>) -> Run
        ensures { Fresh store budget result }
    {
        Run {
            store,
            budget,
            stopped: false,
            refusal: None,
            last: Step::SyncJournal,
        }
    }

    // One step that cannot fail: none where the run has stopped, and with no step left it stops.
    pub fn advance(&mut self, src: &[u8], x: Step)
        requires { (SoundRun src.now self.old × SoundStep src.now x) × Allowed (step_of src.now x) (store_of src.now self.old.store) }
        ensures { Follows plain src.now (single (step_of src.now x)) self.old self.new }
    {
        if self.stopped {
            return;
        }
        if self.budget == Some(0) {
            self.stopped = true;
            return;
        }
        self.budget = self.budget.map(|left| left.saturating_sub(1));
        x.apply(src, &mut self.store);
        self.last = x;
    }

    // One step that may fail: none where the run is over. A failing step is not counted, changes nothing, and its refusal is kept.
    pub fn attempt(&mut self, src: &[u8], x: Step)
        requires { SoundRun src.now self.old × SoundStep src.now x }
        ensures { Follows careful src.now (single (step_of src.now x)) self.old self.new }
    {
        if self.stopped || self.refusal.is_some() {
            return;
        }
        let fault = x.fault(src, &self.store);
        match fault {
            Ok(()) => self.advance(src, x),
            Err(refusal) => {
                self.refusal = Some(refusal);
            }
        }
    }

    // A step that fails with 14 and is not made: its backup name is too long, or the collection to copy is missing.
    pub fn refuse(&mut self)
        ensures { (src : Bytes) → Refuses src self.old self.new }
    {
        if !self.stopped && self.refusal.is_none() {
            self.refusal = Some(Refusal::StepFailed);
        }
    }
}

// How many bytes some names have, with a zero byte between two: a step has three names at most.
fn length_of_names(names: &[NameRef]) -> usize
    requires { length names.now ≤ 3 }
    ensures { result ≡ sum_by (λ r. length_of r + 1) names.now - 1 }
{
    let n: usize = names.iter().map(|name| spans::length_of(*name) + 1).sum();
    n.saturating_sub(1)
}

// The field of a tag and names, parted by a zero byte. It returns how long the field is; one that has no room is not written.
fn write_names(src: &[u8], tag: u8, names: &[NameRef], out: &mut [u8]) -> usize
    requires { All (Sound src.now) names.now × (length names.now ≤ 3) }
    ensures { Writes (encode_field (field tag (zero_separated (map (name_of src.now) names.now)))) 0 out.old out.new result }
{
    let n = length_of_names(names);
    if out.len() < 3 + n {
        return 3 + n;
    }
    field::put_field_head(out, 0, tag, n as u16);
    let mut at = 3;
    for (k, name) in names.iter().enumerate() {
        if 0 < k {
            field::put_u8(out, at, 0);
            at += 1;
        }
        names::put_name(src, *name, out, at);
        at += spans::length_of(*name);
    }
    at
}

// The field of a step: 01, Listings and file steps, "A step is one field; names inside are parted by a zero byte."
#[tactic(auto, unfolding(crate::specs::Steps::step_of, model::specs::Step::step_field, model::specs::Step::tag_and_names))]
pub fn write_step(src: &[u8], x: Step, out: &mut [u8]) -> usize
    requires { SoundStep src.now x }
    ensures { Writes (step_field (step_of src.now x)) 0 out.old out.new result }
{
    match x {
        Step::RewriteHeader | Step::HoldHeader => write_names(src, 0x20, &[], out),
        Step::SyncStaging => write_names(src, 0x21, &[], out),
        Step::SyncLog => write_names(src, 0x22, &[], out),
        Step::MakeDirectory(d) => write_names(src, 0x23, &[d], out),
        Step::RenameFile(d, a, b) => write_names(src, 0x24, &[d, a, b], out),
        Step::MoveStaged(f, d, k) => write_names(src, 0x25, &[f, d, k], out),
        Step::RenameDirectory(a, b) => write_names(src, 0x26, &[a, b], out),
        Step::CopyFile(a, b, f) => write_names(src, 0x27, &[a, b, f], out),
        Step::RemoveFile(d, f) => write_names(src, 0x28, &[d, f], out),
        Step::RemoveDirectory(d) => write_names(src, 0x29, &[d], out),
        Step::RemoveLog => write_names(src, 0x2B, &[], out),
        Step::RemoveStaging(f) => write_names(src, 0x2C, &[f], out),
        Step::SyncDirectory(d) => write_names(src, 0x2D, &[d], out),
        Step::SyncCollections => write_names(src, 0x2D, &[], out),
        Step::SyncJournal => write_names(src, 0x2E, &[], out),
    }
}
