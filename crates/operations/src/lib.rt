// What the operations of a log do at commit: local_storage.rs, `apply_operations`. Each step may fail; behind a failing step no other is
// done (`Run::attempt`). The functions are those of local_storage.rs and parts of them, one for files and one for directories (docs/TWINS.md); each
// clause names its plan.
#![tactic(auto)]

ghost use Rattle.std.proofs.Math.Option.{Option};
ghost use Rattle.std.specs.Prelude.{Bool, map};
ghost use Rattle.basics.specs.Name.{backup_name};
ghost use Rattle.model.specs.Operation.{write, copy_collection};
ghost use Rattle.model.specs.Step.{rename_file, rename_directory};
ghost use Rattle.model.specs.Plan.{op_steps, operation_steps};
ghost use Rattle.laws.specs.OperationLaws.{ValidOp};
ghost use Rattle.basic_laws.specs.Tests.{All};
ghost use Rattle.spans.specs.Spans.{name_of, Sound};
ghost use Rattle.plans.specs.Machine.{single};
ghost use Rattle.plans.specs.ModelPlans.{careful};
ghost use Rattle.steps.specs.Steps.{FileName};
ghost use Rattle.steps.specs.CodeRuns.{SoundRun, Follows};
ghost use Rattle.transaction.specs.Operations.{op_of, SoundOp};
ghost use Rattle.operations.specs.Parts.{back_up_standing, back_up_standing_dir, make_missing, back_up_all, copy_all};

use spans::NameRef;
use steps::{Run, Step};
use transaction::Operation;

// Renames a file to its backup name. 01, Sixteen numbers, 14: "backup name over 64 bytes".
fn back_up(src: &[u8], run: &mut Run, dir: NameRef, file: NameRef)
    requires { SoundRun src.now run.old × (Sound src.now dir × FileName src.now file) }
    ensures { Follows careful src.now (single (rename_file (name_of src.now dir) (name_of src.now file) (backup_name (name_of src.now file)))) run.old run.new }
{
    let b = spans::backup(src, file);
    match b {
        Some(q) => run.attempt(src, Step::RenameFile(dir, file, q)),
        None => run.refuse(),
    }
}

// The same for a directory.
fn back_up_dir(src: &[u8], run: &mut Run, dir: NameRef)
    requires { SoundRun src.now run.old × Sound src.now dir }
    ensures { Follows careful src.now (single (rename_directory (name_of src.now dir) (backup_name (name_of src.now dir)))) run.old run.new }
{
    let b = spans::backup(src, dir);
    match b {
        Some(q) => run.attempt(src, Step::RenameDirectory(dir, q)),
        None => run.refuse(),
    }
}

// Backs up a file, if it stands.
fn back_up_standing(src: &[u8], run: &mut Run, dir: NameRef, file: NameRef)
    requires { SoundRun src.now run.old × (Sound src.now dir × FileName src.now file) }
    ensures { Follows careful src.now (back_up_standing (name_of src.now dir) (name_of src.now file)) run.old run.new }
{
    if run.store.tree.exists(src, dir, file) {
        back_up(src, run, dir, file);
    }
}

// The same for a directory.
fn back_up_standing_dir(src: &[u8], run: &mut Run, dir: NameRef)
    requires { SoundRun src.now run.old × Sound src.now dir }
    ensures { Follows careful src.now (back_up_standing_dir (name_of src.now dir)) run.old run.new }
{
    if run.store.tree.dir_exists(src, dir) {
        back_up_dir(src, run, dir);
    }
}

// Makes a directory, if it is missing.
fn make_missing(src: &[u8], run: &mut Run, dir: NameRef)
    requires { SoundRun src.now run.old × Sound src.now dir }
    ensures { Follows careful src.now (make_missing (name_of src.now dir)) run.old run.new }
{
    if !run.store.tree.dir_exists(src, dir) {
        run.attempt(src, Step::MakeDirectory(dir));
    }
}

// A Write, marked or not: the collection is made where it is missing, a file of that name is backed up, the staging file takes its place.
fn write(src: &[u8], run: &mut Run, dir: NameRef, key: NameRef, staged: NameRef)
    requires { SoundRun src.now run.old × (Sound src.now dir × (FileName src.now key × Sound src.now staged)) }
    ensures { (mark : Option Bool) → Follows careful src.now (op_steps (write (record { collection = name_of src.now dir; key = name_of src.now key; staged = name_of src.now staged; mark = mark }))) run.old run.new }
{
    make_missing(src, run, dir);
    back_up_standing(src, run, dir, key);
    run.attempt(src, Step::MoveStaged(staged, dir, key));
}

// Backs up every file of a directory, as it is listed where the walk starts.
fn backup_all_files_in_dir(src: &[u8], run: &mut Run, dir: NameRef)
    requires { SoundRun src.now run.old × Sound src.now dir }
    ensures { Follows careful src.now (back_up_all (name_of src.now dir)) run.old run.new }
{
    let listing = run.store.tree.files(src, dir);
    for file in listing.as_slice() {
        back_up(src, run, dir, *file);
    }
}

// Copies every file of a directory, as it is listed where the walk starts.
fn copy_dir_contents(src: &[u8], run: &mut Run, from: NameRef, to: NameRef)
    requires { SoundRun src.now run.old × (Sound src.now from × Sound src.now to) }
    ensures { Follows careful src.now (copy_all (name_of src.now from) (name_of src.now to)) run.old run.new }
{
    let listing = run.store.tree.files(src, from);
    for file in listing.as_slice() {
        run.attempt(src, Step::CopyFile(from, to, *file));
    }
}

// A CopyCollection: its destination is backed up where it stands, and made; then the source is copied. 01, Sixteen numbers, 14: "a copy's
// source missing".
fn copy_collection(src: &[u8], run: &mut Run, from: NameRef, to: NameRef)
    requires { SoundRun src.now run.old × (Sound src.now from × Sound src.now to) }
    ensures { (existed : Bool) → Follows careful src.now (op_steps (copy_collection (name_of src.now from) (name_of src.now to) existed)) run.old run.new }
{
    back_up_standing_dir(src, run, to);
    run.attempt(src, Step::MakeDirectory(to));
    if run.store.tree.dir_exists(src, from) {
        copy_dir_contents(src, run, from, to);
    } else {
        run.refuse();
    }
}

// What an operation does.
pub fn apply_operation(src: &[u8], run: &mut Run, op: Operation)
    requires { SoundRun src.now run.old × (SoundOp src.now op × ValidOp (op_of src.now op)) }
    ensures { Follows careful src.now (op_steps (op_of src.now op)) run.old run.new }
{
    // A run that has stopped looks nothing up any more: docs/DECISIONS.md, 35.
    if run.stopped {
        return;
    }
    match op {
        Operation::Write(c, k, f) | Operation::MarkedWrite(c, k, f, _) => {
            write(src, run, c, k, f)
        }
        Operation::Delete(c, k) => back_up_standing(src, run, c, k),
        Operation::DeleteAll(c) => backup_all_files_in_dir(src, run, c),
        Operation::CreateCollection(c) => make_missing(src, run, c),
        Operation::DeleteCollection(c) => back_up_standing_dir(src, run, c),
        Operation::CopyCollection(a, b, _) => copy_collection(src, run, a, b),
    }
}

// What operations do, in their order.
pub fn apply_operations(src: &[u8], run: &mut Run, ops: &[Operation])
    requires { SoundRun src.now run.old × (All (SoundOp src.now) ops.now × All ValidOp (map (op_of src.now) ops.now)) }
    ensures { Follows careful src.now (operation_steps (map (op_of src.now) ops.now)) run.old run.new }
{
    for op in ops {
        apply_operation(src, run, *op);
    }
}
