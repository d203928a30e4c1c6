// Why something is refused: the table of document 01 by its numbers, and 23 and 24 of document 02. The words for the desk are in tools/, so it
// has no `Display`.
ghost use Rattle.std.specs.Prelude.{◌≡◌, if◌then◌else◌};
ghost use Rattle.rules.specs.Refusals.{refusal_number};
ghost use Rattle.rules.specs.Answer.{number_of};

#[derive(Clone, Copy, Debug, PartialEq, Eq)]
pub enum Refusal {
    // the memory is no account: a number that the table does not have
    NoAccount = 0,
    // the day is after the last day, or before that of the last accepted event
    PastLastDay = 1,
    BeforeLastEvent = 2,
    // the kind, the option or the amount
    OutOfRange = 3,
    // of an account that is closed
    Closed = 4,
    // the service is not as the kind wants it
    WrongService = 5,
    // the receipt is not known, or was returned
    NoPayment = 6,
    // of a payout or a deposit: more than there is room for, a sum asked that is not above what is held, or not what can be moved
    WrongSum = 7,
    NotEarned = 8,
    // nothing is in arrears, or an arrangement is in force
    NothingToArrange = 9,
    LowArrears = 10,
    NoticeLive = 11,
    NoNotice = 12,
    NoCall = 13,
    Arranged = 14,
    Certified = 15,
    InArrears = 16,
    DepositShort = 17,
    TooManyOpen = 18,
    PastLimit = 19,
    // of a book: its header, offsets or length; a record
    BadBook = 20,
    BadRecord = 21,
    // the memory that was lent
    TooShort = 22,
    // the class or the usage of a reading
    NoTariff = 23,
    // the day is not one of the account's calendar
    OutsideCalendar = 24,
}

impl Refusal {
    // The papers' word for it. Not `From`: u64::from(u8::from(refusal)) would be no plainer where it is told.
    pub fn number(self) -> u8
        ensures { result ≡ refusal_number self }
    {
        self as u8
    }

    // A row of the table: it refuses, or lets pass.
    #[inline]
    pub fn when(self, refuses: bool) -> Result<(), Refusal>
        ensures { result ≡ (if refuses then Err self else Ok tt) }
    {
        if refuses { Err(self) } else { Ok(()) }
    }
}

// The number that refuses; 0 where nothing does, and where the memory is no account.
pub fn number_of<T: Drop>(answer: Result<T, Refusal>) -> u8
    ensures { result ≡ number_of answer }
{
    match answer {
        Ok(_) => 0,
        Err(refusal) => refusal.number(),
    }
}
