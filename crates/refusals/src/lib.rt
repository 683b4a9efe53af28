// The refusals, in checking order: 01, Sixteen numbers; from 17 on document 02. Their names are the host's (host/sys/refusals.txt).
#![tactic(auto)]

ghost use Rattle.std.specs.Prelude.{◌≡◌};
ghost use Rattle.refusals.specs.Numbers.{number_of};

#[derive(Clone, Copy, Debug, PartialEq, Eq)]
pub enum Refusal {
    InvalidImage,
    OutputTooShort,
    TransactionBusy,
    NoTransaction,
    TooManyOperations,
    InvalidName,
    CollectionNotFound,
    KeyNotFound,
    CollectionExists,
    StagingRefused,
    UndecodablePayload,
    LogTooLong,
    Corruption,
    StepFailed,
    StoreFull,
    PastTheEnd,
    HeldUpdate,
    NothingHeld,
    CurrentMissing,
    NextMissing,
    NoWholeLog,
}

impl From<Refusal> for u32 {
    ghost from_gives = { λ r n. n ≡ number_of r };

    fn from(value: Refusal) -> u32 {
        match value {
            Refusal::InvalidImage => 1,
            Refusal::OutputTooShort => 2,
            Refusal::TransactionBusy => 3,
            Refusal::NoTransaction => 4,
            Refusal::TooManyOperations => 5,
            Refusal::InvalidName => 6,
            Refusal::CollectionNotFound => 7,
            Refusal::KeyNotFound => 8,
            Refusal::CollectionExists => 9,
            Refusal::StagingRefused => 10,
            Refusal::UndecodablePayload => 11,
            Refusal::LogTooLong => 12,
            Refusal::Corruption => 13,
            Refusal::StepFailed => 14,
            Refusal::StoreFull => 15,
            Refusal::PastTheEnd => 16,
            Refusal::HeldUpdate => 17,
            Refusal::NothingHeld => 18,
            Refusal::CurrentMissing => 19,
            Refusal::NextMissing => 20,
            Refusal::NoWholeLog => 21,
        }
    }
}
