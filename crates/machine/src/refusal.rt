// The numbers that come back (document 01, "Numbers that come back").
ghost use Rattle.std.specs.Prelude.{◌≡◌};
ghost use Rattle.machine.specs.Numbers.{number_of, stall_number_of, stall_cause_of};

// Why a call or a word is refused.
#[derive(Clone, Copy, Debug, PartialEq, Eq)]
pub enum Refusal {
    BadThread,
    BadWord,
    BadField,
    BadLength,
    BadCursor,
    BadBudget,
    BadRounds,
    ShortOutput,
    BadImage(usize),
    Malformed,
    BadPlace,
    WrongOwner,
    BadReplay,
}

// Why a word is stalled, with the cause that is told of it (document 02, K3): what the wait is held by, the thread that holds the
// mutex, or the bank.
#[derive(Clone, Copy, Debug, PartialEq, Eq)]
pub enum StallCause {
    WaitHolds(u32),
    MutexHeld(u32),
    BankNotMatrix(u32),
}

// What came of a turn: no word was there, or the word passed, was stalled or was refused.
#[derive(Clone, Copy, Debug, PartialEq, Eq)]
pub enum Outcome {
    Idle,
    Passed,
    Stalled(StallCause),
    Refused(Refusal),
}

// Document 01's number of a refusal.
impl From<Refusal> for u32 {
    ghost from_gives = { λ r n. n ≡ number_of r };

    fn from(r: Refusal) -> u32 {
        match r {
            Refusal::BadThread => 1,
            Refusal::BadWord => 2,
            Refusal::BadField => 3,
            Refusal::BadLength => 4,
            Refusal::BadCursor => 5,
            Refusal::BadBudget => 6,
            Refusal::BadRounds => 7,
            Refusal::ShortOutput => 8,
            Refusal::BadImage(_) => 9,
            Refusal::Malformed => 10,
            Refusal::BadPlace => 11,
            Refusal::WrongOwner => 12,
            Refusal::BadReplay => 13,
        }
    }
}

impl StallCause {
    // Document 01's number of a stall.
    pub fn number(self) -> u32
        ensures { result ≡ stall_number_of self }
    {
        match self {
            StallCause::WaitHolds(_) => 101,
            StallCause::MutexHeld(_) => 102,
            StallCause::BankNotMatrix(_) => 103,
        }
    }

    // What is told with it.
    pub fn cause(self) -> u32
        ensures { result ≡ stall_cause_of self }
    {
        match self {
            StallCause::WaitHolds(held_by) => held_by,
            StallCause::MutexHeld(thread) => thread,
            StallCause::BankNotMatrix(bank) => bank,
        }
    }
}
