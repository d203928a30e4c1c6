// The book file: what its bytes mean, what is refused, and the two round trips, in specs/ and proofs/. Here are its limits
// and sizes, the header and one record; the code for whole books is in `book`, `bookread` and `bookwrite`.
#![tactic(auto)]

pub mod walk;

ghost use Rattle.std.specs.Prelude.{◌≡◌, ◌+◌, ◌<◌, ◌≤◌, length};
ghost use Rattle.bookformat.specs.Book.{accounts, records, base, size, kind_fine, event_at};

use little::get;
use rules::Event;
use rules::kinds::Kind;

// The most accounts of a book.
pub const MOST_ACCOUNTS: usize = 1024;

// The most bytes of a book.
pub const LONGEST: usize = 4_294_967_295;

// The bytes of the header, of an entry of the table, of a record.
pub const HEADER: usize = 8;

pub const ENTRY: usize = 8;

pub const RECORD: usize = 16;

// The records of one account of a book: count of them, from record first on.
#[derive(Clone, Copy, Default)]
pub struct Span {
    pub first: usize,
    pub count: usize,
}

// How many accounts the header tells of, and how many records: two words of it, each with a name in the definitions. They count what lies in memory, so each is a usize: a u32, which would
// say the bound, would be widened wherever it is used.
pub fn accounts(b: &[u8]) -> usize
    requires { 8 ≤ length b.now }
    ensures value { result ≡ accounts b.now }
    ensures small { result < 4294967296 }
{
    get(b, 0, 4) as usize
}

pub fn records(b: &[u8]) -> usize
    requires { 8 ≤ length b.now }
    ensures value { result ≡ records b.now }
    ensures small { result < 4294967296 }
{
    get(b, 4, 4) as usize
}

// Where the records begin behind the table of so many accounts.
pub fn base(accounts: usize) -> usize
    requires { accounts < 4294967296 }
    ensures { result ≡ base accounts }
{
    HEADER + ENTRY * accounts
}

// How long a book of so many accounts and records is.
pub fn size(accounts: usize, records: usize) -> usize
    requires few_accounts { accounts < 4294967296 }
    requires few_records { records < 4294967296 }
    ensures { result ≡ size accounts records }
{
    base(accounts) + RECORD * records
}

// One of the sixteen kinds.
pub fn kind_fine(k: u8) -> bool
    ensures { result ≡ kind_fine k }
{
    Kind::try_from(k).is_ok()
}

// The record at byte p.
pub fn event_at(b: &[u8], p: usize) -> Event
    requires { p + 16 ≤ length b.now }
    ensures { result ≡ event_at p b.now }
{
    Event {
        kind: b[p],
        option: b[p + 1],
        day: get(b, p + 4, 4) as u32,
        amount: get(b, p + 8, 8),
    }
}
