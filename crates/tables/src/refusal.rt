// 01's and 02's refusals, as specs/Refusal.antt names and numbers them.
ghost use Rattle.std.specs.Prelude.{◌≡◌};

#[derive(Clone, Copy, PartialEq, Eq, Debug)]
pub enum Refusal {
    // The loader's.
    TableShape = 1,
    WordNotAllowed = 2,
    NameTwice = 3,
    BufferSize = 4,

    // The program's author's.
    TypeError = 5,
    ExternNotFound = 6,
    ArgumentCount = 7,
    ArgumentErrors = 8,
    OtherInstruction = 9,
    TooManyCells = 10,

    // The student's.
    AtEnd = 11,
    NothingToTakeBack = 12,
    JournalFull = 13,

    // The running program's.
    IndexPastLength = 14,
    ZeroDivisor = 15,
    NegativeShiftCount = 16,

    // The extern routine's.
    UnfitReply = 17,

    // A foreign writer's.
    NoRule = 18,
    ForeignPosition = 19,

    // The program's author's, by 02.
    UnfitLabels = 20,
    ConditionNotBit = 21,
    UnfitConversion = 22,

    // The running program's, by 02.
    OutsideInteger = 23,

    // The program's author's, by 02.
    UnfitLiteral = 24,
}

impl Refusal {
    ghost use Rattle.tables.specs.Refusal.{refusal_number};

    // The papers' number, as the C interface and the page of refusals have it.
    pub fn number(self) -> u64
        ensures { result ≡ refusal_number self }
    {
        self as u64
    }
}
