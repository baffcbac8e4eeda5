// Why something is refused: the numbers of document 01 ("Refused, by whom") and of document 02 as one enum. docs/REFUSALS.md says what each means.
#![tactic(auto)]

ghost use Rattle.std.specs.Prelude.{◌≡◌};
ghost use Rattle.refusals.specs.Numbers.{number_of, code};

#[derive(Clone, Copy, Debug, PartialEq, Eq)]
pub enum Refusal {
    // of whoever wrote the file
    FileLength = 1,
    RightCount = 2,
    PairCount = 3,
    SectionPlace = 4,
    SectionLength = 5,
    KindByte = 6,
    CellRights = 7,
    CommandCounts = 8,
    CommandParts = 9,
    CarriedRights = 44,
    // of whoever runs or replays
    NoCommand = 11,
    Actuals = 12,
    Conditions = 14,
    Operations = 15,
    TraceLength = 31,
    // of whoever asks for a verdict
    NoRight = 21,
    SeveralOperations = 22,
    TooManyNames = 23,
    ShortBuffer = 24,
    NeededCells = 41,
    TrustedNames = 42,
    LongSheet = 43,
}

impl Refusal {
    // The number that stands for it in documents, at the C boundary and in what is printed.
    pub fn number(self) -> u8
        ensures { result ≡ number_of self }
    {
        self as u8
    }
}

// The number of what is refused, or 0 where nothing is.
pub fn code_of<T>(answer: &Result<T, Refusal>) -> u8
    ensures { result ≡ code answer.now }
{
    match answer {
        Ok(_) => 0,
        Err(by) => by.number(),
    }
}
