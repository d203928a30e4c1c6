// Books in lent bytes: tested in one pass, and one record or account at a time found without a copy. A `Book` is bytes that
// passed the test; the functions beside it answer for any bytes.
#![tactic(auto)]

ghost use Rattle.std.specs.Prelude.{◌≡◌, ◌+◌, ◌*◌, ◌<◌, ◌≤◌, length, Err, MatchResult};
ghost use Rattle.rules.specs.Answer.{answered};
ghost use Rattle.bookformat.specs.Book.{most_accounts, accounts, records, base, record_fine, records_fine, table_fine, header_fine, book_refusal};
ghost use Rattle.bookformat.specs.Finding.{entries, whole_records, record_at, record_of, span_at, book_account, IsAccount};

use bookformat::walk::Records;
use bookformat::{
    HEADER, LONGEST, MOST_ACCOUNTS, RECORD, Span, accounts, base, event_at, kind_fine, records,
    size,
};
use little::get;
use rules::Event;
use rules::refusals::Refusal;

// The record at byte p: its kind, and the two spare bytes.
fn record_fine(b: &[u8], p: usize) -> bool
    requires { p + 16 ≤ length b.now }
    ensures { result ≡ record_fine p b.now }
{
    kind_fine(b[p]) && b[p + 2] == 0 && b[p + 3] == 0
}

// The n records from byte p on, in their order. By their places: no lemma of the library says which slices `chunks_exact` gives.
fn records_fine(b: &[u8], p: usize, n: usize) -> bool
    requires { p + 16 * n ≤ length b.now }
    ensures { result ≡ records_fine n p b.now }
{
    (0..n).all(|i| record_fine(b, p + RECORD * i))
}

// The table of a accounts: offsets without gaps, counts that sum to r. The sum of 1,024 counts can't wrap. A loop, since each entry is held
// against the sum of those before it, and by their places, as `records_fine` says. An entry's two numbers are read where they are wanted: a
// function that reads an entry would be asked for one of them in half the places.
fn table_fine(b: &[u8], a: usize, r: usize) -> bool
    requires whole { base a ≤ length b.now }
    requires few { a ≤ most_accounts }
    ensures { result ≡ table_fine (base a) r a 8 0 b.now }
{
    let start = base(a);
    let mut sum = 0;
    for i in 0..a {
        let at = base(i);
        if get(b, at, 4) as usize != start + RECORD * sum {
            return false;
        }
        sum += get(b, at + 4, 4) as usize;
    }
    sum == r
}

// The length and the header.
fn header_fine(b: &[u8]) -> bool
    ensures { result ≡ header_fine b.now }
{
    if !(HEADER..=LONGEST).contains(&b.len()) {
        return false;
    }
    let a = accounts(b);
    let r = records(b);
    a <= MOST_ACCOUNTS && b.len() == size(a, r) && table_fine(b, a, r)
}

// The test of a book: the length and the header first, then the records in order.
pub fn check(b: &[u8]) -> Result<(), Refusal>
    ensures { result ≡ answered (book_refusal b.now) tt }
{
    Refusal::BadBook.when(!header_fine(b))?;
    Refusal::BadRecord.when(!records_fine(b, base(accounts(b)), records(b)))
}

// How many accounts the table has, 0 where it is not whole.
fn entries(b: &[u8]) -> usize
    ensures value { result ≡ entries b.now }
    ensures small { result < 4294967296 }
{
    if b.len() < HEADER {
        return 0;
    }
    let a = accounts(b);
    if b.len() < base(a) { 0 } else { a }
}

// How many whole records lie behind the table, 0 where it is not whole.
fn whole_records(b: &[u8]) -> usize
    ensures { result ≡ whole_records b.now }
{
    if b.len() < HEADER {
        return 0;
    }
    b.len().saturating_sub(base(accounts(b))) / RECORD
}

// What stands past the last record: of kind 0, which no book has, since every index is promised an answer.
const NO_RECORD: Event = Event {
    kind: 0,
    option: 0,
    day: 0,
    amount: 0,
};

// Record k, counted over all accounts. Of a book that is refused, what lies there.
pub fn record(b: &[u8], k: usize) -> Event
    ensures value { result ≡ record_at b.now k }
    ensures in_book { book_refusal b.now ≡ 0 → result ≡ record_of b.now k }
{
    if whole_records(b) <= k {
        return NO_RECORD;
    }
    event_at(b, base(accounts(b)) + RECORD * k)
}

// Where the records of account i are; no records past the end. Of a book that is refused, what its table says.
pub fn account(b: &[u8], i: usize) -> Span
    ensures value { result ≡ span_at b.now i }
    ensures in_book { book_refusal b.now ≡ 0 → IsAccount b.now i result }
{
    if entries(b) <= i {
        return Span::default();
    }
    let at = base(i);
    let offset = get(b, at, 4) as usize;
    let count = get(b, at + 4, 4) as usize;
    Span {
        first: offset.saturating_sub(base(accounts(b))) / RECORD,
        count,
    }
}

// A book that passed the test.
#[derive(Clone, Copy)]
pub struct Book<'a> {
    pub bytes: &'a [u8],
    ghost sound: { book_refusal bytes.now ≡ 0 },
}

impl<'a> Book<'a> {
    // The test: the book of the bytes b, or why it is refused.
    pub fn read(b: &'a [u8]) -> Result<Book<'a>, Refusal>
        ensures { MatchResult result (λ book. book.bytes.now ≡ b.now) (λ refusal. Err refusal ≡ answered (book_refusal b.now) (tt {0})) }
    {
        check(b)?;
        Ok(Book { bytes: b })
    }

    // How many accounts it has.
    pub fn accounts(self) -> usize
        ensures value { result ≡ accounts self.entry.bytes.now }
        ensures few { result ≤ most_accounts }
    {
        accounts(self.bytes)
    }

    // How many records all its accounts have.
    pub fn records(self) -> usize
        ensures value { result ≡ records self.entry.bytes.now }
        ensures small { result < 4294967296 }
    {
        records(self.bytes)
    }

    // Where the records of account i are; no records past the end.
    pub fn account(self, i: usize) -> Span
        ensures { IsAccount self.entry.bytes.now i result }
    {
        account(self.bytes, i)
    }

    // The records of account i, in their order; none past the end.
    pub fn records_of(self, i: usize) -> Records<'a>
        ensures { result ≡ book_account self.entry.bytes.now i }
    {
        let s = self.account(i);
        let start = base(self.accounts()) + RECORD * s.first;
        Records::new(self.bytes, start, s.count)
    }
}
