// The words of the rules: an event, the service, an answer, what the table of refusals looks at, a block of a schedule and a line of a bill.
// The rules themselves are in specs/, over lists of events alone; the table as code is the crate `table`.
#![tactic(auto)]

pub mod kinds;
pub mod limits;
pub mod refusals;

ghost use Rattle.std.specs.Prelude.{◌≡◌};
ghost use Rattle.rules.specs.History.{is};
ghost use Rattle.rules.specs.Deposit.{moves as moves_deposit};
ghost use Rattle.rules.specs.Range.{WellFormed};
ghost use Rattle.rules.specs.Service.{is_on, is_off, is_closed};
ghost use Rattle.rules.specs.Kinds.{kind_number};

use kinds::Kind;
use limits::CALENDAR_WORDS;
use refusals::Refusal;

// One thing that happened to an account. specs/Kinds.antt names the sixteen kinds, specs/Range.antt the fields of each. The kind stays a
// number: any byte may come in a book or from C, and has an answer.
#[derive(Clone, Copy)]
pub struct Event {
    pub kind: u8,
    pub option: u8,
    pub day: u32,
    pub amount: u64,
}

// An event that rows 1 and 3 let pass: its day and its fields are in range. A part whose days
// or sums could leave their bounds by an event takes no other.
#[derive(Clone, Copy)]
pub struct InRange {
    pub event: Event,
    ghost well_formed: { WellFormed event },
}

// The ranges of an event's option and amount, both ends included. Four numbers, since the definitions compute with them: the ends of a
// range of the library are fields that no definition can name.
#[derive(Clone, Copy)]
pub struct Fields {
    pub option_from: u8,
    pub option_to: u8,
    pub amount_from: u64,
    pub amount_to: u64,
}

#[derive(Clone, Copy, Debug, PartialEq, Eq)]
pub enum Service {
    On = 0,
    Off = 1,
    Closed = 2,
}

// Accepted, with the receipt of a payment, 0 for others: the papers' value of an answer, which C adds to 256; or refused.
pub type Answer = Result<u64, Refusal>;

// The calendar that an account may be given when it is begun: its first day, and a bit for each of its days in order, the lowest of the
// first word first; a set bit is a working day.
#[derive(Clone, Copy)]
pub struct Calendar {
    pub first: u32,
    pub bits: [u64; CALENDAR_WORDS],
}

// What the table looks at when one event is offered, flat, as the definitions speak of it. An account makes one of its fields, the rules
// one of the history.
#[derive(Clone, Copy)]
pub struct View {
    pub service: Service,
    // all charges (document 01: C)
    pub charged: u64,
    // payments plus deposits moved
    pub credited: u64,
    // the same less payouts (document 01: P)
    pub credits: u64,
    // the payment that the event names by till and receipt, 0 where it is not known or was returned: a place in memory is 0 for both, and
    // an Option would be made of it here only for row 6 to ask it back
    pub payment: u64,
    pub held: u64,
    pub required: u64,
    pub earned: bool,
    pub arrears: u64,
    // a payment arrangement is in force (document 01: stands)
    pub in_force: bool,
    pub notice_live: bool,
    pub notice_in_days: bool,
    // the day lies in the account's calendar, if it has one
    pub in_calendar: bool,
    pub called: bool,
    pub certified: bool,
    pub approved: bool,
    // how many items are open
    pub open_count: u64,
}

// A block of a schedule, its limit and its price: the usage from the limit of the block before it up to its own costs so many
// hundredths of a cent for each kilowatt-hour.
#[derive(Clone, Copy)]
pub struct Block {
    pub limit: u64,
    pub price: u64,
}

// A line of a bill: so many kilowatt-hours, at the price of their block.
#[derive(Clone, Copy)]
pub struct Line {
    pub used: u64,
    pub price: u64,
}

impl Event {
    // Whether it is of that kind.
    #[inline]
    pub fn is(self, kind: Kind) -> bool
        ensures { result ≡ is (kind_number kind) self }
    {
        self.kind == kind.number()
    }

    // Whether it moves the deposit.
    pub fn moves_deposit(self) -> bool
        ensures { result ≡ moves_deposit self }
    {
        self.is(Kind::DepositMoved) || self.is(Kind::Closing)
    }
}

impl Service {
    // Named as the rules name them.
    pub fn is_on(self) -> bool
        ensures { result ≡ is_on self }
    {
        self == Service::On
    }

    pub fn is_off(self) -> bool
        ensures { result ≡ is_off self }
    {
        self == Service::Off
    }

    pub fn is_closed(self) -> bool
        ensures { result ≡ is_closed self }
    {
        self == Service::Closed
    }
}
