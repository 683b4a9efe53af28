// The exported entries, as a list numbers them.
ghost use Rattle.questions.specs.Calls.{NamesCall};

use std::fmt;

// Their numbers go on from 1.
#[derive(Clone, Copy, Debug, PartialEq, Eq)]
pub enum Call {
    Begin = 1,
    Write,
    Delete,
    DeleteAll,
    CreateCollection,
    DeleteCollection,
    CopyCollection,
    Rollback,
    Commit,
    CommitStep,
    HasPendingWork,
    Recover,
    RecoverStep,
    ListKeys,
    FindBackup,
    LogCause,
    Inventory,
    Hold,
    HoldStep,
    Keep,
    KeepStep,
    Revert,
    RevertStep,
    CanonicalLog,
    DeleteKeys,
    Rotate,
}

// A number that no entry has.
#[derive(Clone, Copy, Debug, PartialEq, Eq)]
pub struct NoEntry;

impl Call {
    pub const ALL: [Call; 26] = [
        Call::Begin,
        Call::Write,
        Call::Delete,
        Call::DeleteAll,
        Call::CreateCollection,
        Call::DeleteCollection,
        Call::CopyCollection,
        Call::Rollback,
        Call::Commit,
        Call::CommitStep,
        Call::HasPendingWork,
        Call::Recover,
        Call::RecoverStep,
        Call::ListKeys,
        Call::FindBackup,
        Call::LogCause,
        Call::Inventory,
        Call::Hold,
        Call::HoldStep,
        Call::Keep,
        Call::KeepStep,
        Call::Revert,
        Call::RevertStep,
        Call::CanonicalLog,
        Call::DeleteKeys,
        Call::Rotate,
    ];
}

impl TryFrom<u8> for Call {
    type Error = NoEntry;

    ghost try_from_gives = { NamesCall };

    fn try_from(number: u8) -> Result<Self, NoEntry> {
        match number {
            1 => Ok(Call::Begin),
            2 => Ok(Call::Write),
            3 => Ok(Call::Delete),
            4 => Ok(Call::DeleteAll),
            5 => Ok(Call::CreateCollection),
            6 => Ok(Call::DeleteCollection),
            7 => Ok(Call::CopyCollection),
            8 => Ok(Call::Rollback),
            9 => Ok(Call::Commit),
            10 => Ok(Call::CommitStep),
            11 => Ok(Call::HasPendingWork),
            12 => Ok(Call::Recover),
            13 => Ok(Call::RecoverStep),
            14 => Ok(Call::ListKeys),
            15 => Ok(Call::FindBackup),
            16 => Ok(Call::LogCause),
            17 => Ok(Call::Inventory),
            18 => Ok(Call::Hold),
            19 => Ok(Call::HoldStep),
            20 => Ok(Call::Keep),
            21 => Ok(Call::KeepStep),
            22 => Ok(Call::Revert),
            23 => Ok(Call::RevertStep),
            24 => Ok(Call::CanonicalLog),
            25 => Ok(Call::DeleteKeys),
            26 => Ok(Call::Rotate),
            _ => Err(NoEntry),
        }
    }
}

impl fmt::Display for Call {
    fn fmt<W: fmt::Write>(&self, f: &mut fmt::Formatter<W>) -> fmt::Result {
        f.write_str(match self {
            Call::Begin => "begin",
            Call::Write => "write",
            Call::Delete => "delete",
            Call::DeleteAll => "delete_all",
            Call::CreateCollection => "create_collection",
            Call::DeleteCollection => "delete_collection",
            Call::CopyCollection => "copy_collection",
            Call::Rollback => "rollback",
            Call::Commit => "commit",
            Call::CommitStep => "commit_step",
            Call::HasPendingWork => "has_pending_work",
            Call::Recover => "recover",
            Call::RecoverStep => "recover_step",
            Call::ListKeys => "list_keys",
            Call::FindBackup => "find_backup",
            Call::LogCause => "log_cause",
            Call::Inventory => "inventory",
            Call::Hold => "hold",
            Call::HoldStep => "hold_step",
            Call::Keep => "keep",
            Call::KeepStep => "keep_step",
            Call::Revert => "revert",
            Call::RevertStep => "revert_step",
            Call::CanonicalLog => "canonical_log",
            Call::DeleteKeys => "delete_keys",
            Call::Rotate => "rotate",
        })
    }
}
