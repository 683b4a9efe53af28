// One road for every entry that runs a plan: the image is read, the plan is run, wholly or by its first n steps, and what it leaves is handed back.
#![tactic(auto)]

ghost use Rattle.std.specs.Prelude.{◌≡◌, ◌&&◌, length, leb};
ghost use Rattle.basics.specs.Limits.{image_room, step_room};
ghost use Rattle.handover.specs.Contract.{lent, room};
ghost use Rattle.handover.specs.Handing.{StepHands};
ghost use Rattle.handover.specs.Opening.{Held};
ghost use Rattle.running.specs.Planning.{plan_entry, plan_broke, plan_step_entry, commit_of, ran_of, Runs, Ends};

use commit::End;
use local_storage::LocalStorage;
use recovery::Recovered;
use refusals::Refusal;
use steps::Run;
use store::Store;
use wal::{Cause, Tail};

// The plan that is meant.
#[derive(Clone, Copy, Debug, PartialEq, Eq)]
pub enum Planned {
    Commit,
    Hold,
    Recover,
    Revert,
    Keep,
}

// What a plan leaves: the run of its steps; the refusal of the step that failed, if one did; how the log broke that it discards, if it did.
#[derive(Clone, Copy)]
pub struct Ran {
    pub run: Run,
    pub refusal: Option<Refusal>,
    pub cause: Option<Cause>,
}

// What a whole plan hands back: how many bytes the image has; the refusal of the step that failed; how the log broke that the plan discarded.
#[derive(Clone, Copy, Debug, PartialEq, Eq)]
pub struct HandedBack {
    pub written: usize,
    pub refusal: Option<Refusal>,
    pub cause: Option<Cause>,
}

// What a commit leaves.
fn run_commit(image: &[u8], store: Store, end: End, budget: Option<u64>) -> Result<Ran, Refusal>
    requires { Held image.now store }
    ensures { Runs (commit_of end) (lent image) store budget result }
{
    let committed = LocalStorage { store }.commit(image, end, budget);
    committed.found?;
    Ok(Ran {
        refusal: committed.run.refusal,
        run: committed.run,
        cause: None,
    })
}

// What recovery, revert or keep leaves: no step of these fails.
fn left_by(r: Recovered) -> Ran
    ensures { result ≡ ran_of r }
{
    Ran {
        run: r.run,
        refusal: None,
        cause: r.cause,
    }
}

// All steps of the plan, or as many as the budget has.
fn run(p: Planned, image: &[u8], store: Store, budget: Option<u64>) -> Result<Ran, Refusal>
    requires { Held image.now store }
    ensures { Runs p (lent image) store budget result }
{
    match p {
        Planned::Commit => run_commit(image, store, End::Remove, budget),
        Planned::Hold => run_commit(image, store, End::Hold, budget),
        Planned::Recover => recovery::recover(image, store, budget).map(left_by),
        Planned::Revert => recovery::revert(image, store, budget).map(left_by),
        Planned::Keep => recovery::keep(image, store, budget).map(left_by),
    }
}

// The whole plan. Where a step failed, the rolled-back image is handed back with its refusal.
pub fn run_whole(p: Planned, image: &[u8], out: &mut [u8]) -> Result<HandedBack, Refusal>
    ensures { Ends (plan_entry p (lent image) (room out)) (plan_broke p (lent image) (room out)) result out }
{
    let opened = handover::open_image(image, basics::IMAGE_ROOM <= out.len())?;
    let ran = run(p, image, opened.store, None)?;
    let written = handover::hand_image(image, &ran.run.store, Tail::Nothing, 0, out);
    Ok(HandedBack {
        written,
        refusal: ran.refusal,
        cause: ran.cause,
    })
}

// Whether both outputs have the room that a step entry asks for.
fn has_room(out: &[u8], step: &[u8]) -> bool
    ensures { result ≡ (leb image_room (length out.now) && leb step_room (length step.now)) }
{
    basics::IMAGE_ROOM <= out.len() && basics::STEP_ROOM <= step.len()
}

// The first n steps, and the field of step n.
pub fn run_steps(
    p: Planned,
    image: &[u8],
    n: u64,
    out: &mut [u8],
    step: &mut [u8],
) -> Result<(usize, usize), Refusal>
    ensures { StepHands (plan_step_entry p n (lent image) (room out) (room step)) result out step }
{
    let opened = handover::open_image(image, has_room(out, step))?;
    let ran = run(p, image, opened.store, Some(n))?;
    handover::hand_step(image, &ran.run, n, out, step)
}
