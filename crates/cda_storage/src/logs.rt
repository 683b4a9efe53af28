// A log that is lent alone, its bytes as they stand in the file: how it broke, and the one way to write it.
ghost use Rattle.std.specs.Prelude.{◌≡◌, ℕ, ◌≤◌, length};
ghost use Rattle.basics.specs.Status.{status_byte};
ghost use Rattle.model.specs.Log.{with_status};
ghost use Rattle.wal.specs.Logs.{ending_of};
ghost use Rattle.answers.specs.Answers.{overwritten, reading_number, log_cause, whole_number, canonical_log};
ghost use Rattle.refusals.specs.Numbers.{told};
ghost use Rattle.handover.specs.Contract.{lent, before, room, after, CauseGives};
ghost use Rattle.handover.specs.Handing.{handed, Hands};

use basics::Status;
use refusals::Refusal;
use wal::Ending;

// What refuses where a log alone is read; a truncated one is read.
fn readable(ending: Ending) -> Result<(), Refusal>
    ensures { told result ≡ reading_number (ending_of ending) }
{
    match ending {
        Ending::Whole | Ending::Truncated(_) => Ok(()),
        Ending::Undecodable => Err(Refusal::UndecodablePayload),
        Ending::TooMany => Err(Refusal::LogTooLong),
    }
}

// How the log broke.
pub fn cause_of(log: &[u8]) -> Result<u32, Refusal>
    ensures { (cause : ℕ) → CauseGives (log_cause (lent log)) (told result) cause (handed result cause) }
{
    if basics::LOG_LIMIT < log.len() {
        return Err(Refusal::InvalidImage);
    }
    if wal::open_wal(log).is_none() {
        return Err(Refusal::NoWholeLog);
    }
    let ending = wal::read_wal(log, 0, log.len()).ending;
    readable(ending)?;
    Ok(crate::cause_number(ending.cause()))
}

// What refuses where a whole log is asked for.
fn whole(ending: Ending) -> Result<(), Refusal>
    ensures { told result ≡ whole_number (ending_of ending) }
{
    match ending {
        Ending::Whole => Ok(()),
        Ending::Truncated(_) => Err(Refusal::NoWholeLog),
        Ending::Undecodable => Err(Refusal::UndecodablePayload),
        Ending::TooMany => Err(Refusal::LogTooLong),
    }
}

// The log under a header made anew for its status: zeros in bytes 2 and 3.
fn put_log(log: &[u8], status: Status, out: &mut [u8])
    requires { (8 ≤ length log.now) × (length log.now ≤ length out.old) }
    ensures { after out ≡ overwritten (with_status (status_byte status) (lent log)) (before out) }
{
    wal::rewrite_header(u8::from(status), out, 0);
    field::put_bytes(out, 8, &log[8..]);
}

// The log as its status and operations are written, and how many bytes it has.
pub fn canonical(log: &[u8], out: &mut [u8]) -> Result<usize, Refusal>
    ensures { Hands (canonical_log (lent log) (room out)) result out }
{
    if basics::LOG_LIMIT < log.len() {
        return Err(Refusal::InvalidImage);
    }
    if out.len() < log.len() {
        return Err(Refusal::OutputTooShort);
    }
    let Some(status) = wal::open_wal(log) else {
        return Err(Refusal::NoWholeLog);
    };
    whole(wal::read_wal(log, 0, log.len()).ending)?;
    put_log(log, status, out);
    Ok(log.len())
}
