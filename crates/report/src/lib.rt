// The standing of every account of a book, as text in lent memory. The accounts are posted in place, record by record. What stores takes the
// output and a place, as in `text`.
#![tactic(auto)]

mod line;

ghost use Rattle.std.specs.Prelude.{◌≡◌, ◌+◌, ◌*◌, ◌≤◌, ltb, length, None};
ghost use Rattle.rules.specs.Refusals.{refusal_number};
ghost use Rattle.rules.specs.Accepted.{accepted};
ghost use Rattle.bookformat.specs.Book.{accounts, decode};
ghost use Rattle.bookformat.specs.Finding.{book_account};
ghost use Rattle.text.specs.Put.{Put};
ghost use Rattle.report.specs.Standing.{Stands, standing_on};
ghost use Rattle.report.specs.Report.{longest_line, line_of, lines_of, listing, refused_text, input_text, WroteText, Reported};

use account::Account;
use account::known::Known;
use book::Book;
use bookformat::MOST_ACCOUNTS;
use bookpost::run_account;
use line::put_line;
use rules::Service;
use rules::refusals::Refusal;
use text::{put_bytes, put_number, width};

// The longest file that the program takes for a book.
pub const LONGEST_INPUT: usize = 65_536;

// The bytes of the heading, and the most that the line of an account takes.
const FIRST_LINE: usize = 39;

const LINE: usize = 113;

// Room for every text.
pub const ROOM: usize = FIRST_LINE + LINE * MOST_ACCOUNTS;

// Where an account stands after its records. What is owed is charged less credits, which may be negative: it is printed from the two,
// and no signed number is made.
#[derive(Clone, Copy)]
pub struct Standing {
    // all charges (document 01: C)
    pub charged: u64,
    // payments plus deposits moved, less payouts (document 01: P)
    pub credits: u64,
    pub held: u64,
    pub open_count: u64,
    pub service: Service,
    pub refused: u64,
}

// The first line.
const HEADING: [u8; FIRST_LINE] = *b"account owed held open service refused\n";

// The line of a refused book, before its number.
const REFUSED: [u8; 13] = *b"book refused ";

// Where an account stands, of whose records so many were refused.
fn standing_in(account: Known, refused: u64) -> Standing
    ensures { result ≡ standing_on account.entry.words.now refused }
{
    let s = ledger::sums_of(account.ledger());
    Standing {
        charged: s.charged,
        credits: s.credits,
        held: account.deposit().held,
        open_count: s.open_count,
        service: account.collection().service(),
        refused,
    }
}

// Where account i of a book stands: it is posted in memory of this function's own.
#[tactic(auto, using(account::proofs::Exits::passed_fit))]
fn standing_of(book: Book, i: usize) -> Standing
    ensures { let es = book_account book.entry.bytes.now i in Stands result es (accepted None es) }
{
    let mut memory = Account::fresh().memory;
    let refused = run_account(book, i, &mut memory);
    let account = Known { words: &memory };
    standing_in(account, refused)
}

// Stores the line of account i, and says where the text goes on.
fn put_account(book: Book, i: usize, out: &mut [u8], p: usize) -> usize
    requires { p + length (line_of i (book_account book.bytes.now i)) ≤ length out.old }
    ensures { Put (line_of i (book_account book.entry.bytes.now i)) out.old out.new p result }
{
    let s = standing_of(book, i);
    put_line(out, p, i as u64, s)
}

// Stores the lines of all accounts. A loop, as each line begins where the one before it ended.
fn put_lines(book: Book, out: &mut [u8], p: usize) -> usize
    requires { p + length (lines_of 0 (decode book.bytes.now)) ≤ length out.old }
    ensures { Put (lines_of 0 (decode book.entry.bytes.now)) out.old out.new p result }
{
    let mut at = p;
    for i in 0..book.accounts() {
        at = put_account(book, i, out, at);
    }
    at
}

// How long the line of account i is, 113 bytes at most: it is stored where nobody reads it.
fn account_length(book: Book, i: usize) -> usize
    ensures told { result ≡ length (line_of i (book_account book.entry.bytes.now i)) }
    ensures short { result ≤ longest_line }
{
    put_account(book, i, &mut [0; LINE], 0)
}

// How long the lines of all accounts are.
fn lines_length(book: Book) -> usize
    ensures told { result ≡ length (lines_of 0 (decode book.entry.bytes.now)) }
    ensures short { result ≤ longest_line * accounts book.entry.bytes.now }
{
    (0..book.accounts()).map(|i| account_length(book, i)).sum()
}

// Whether output of room bytes is too short for the text. Mostly the room is plenty, and nothing has to be posted for it.
fn is_short(book: Book, room: usize) -> bool
    ensures { result ≡ ltb room (length (listing book.entry.bytes.now)) }
{
    room < FIRST_LINE + LINE * book.accounts() && room < FIRST_LINE + lines_length(book)
}

// Stores the heading and the lines, where the output is long enough.
fn put_listing(book: Book, out: &mut [u8]) -> usize
    requires { length (listing book.bytes.now) ≤ length out.old }
    ensures { Put (listing book.entry.bytes.now) out.old out.new 0 result }
{
    let p = put_bytes(out, 0, &HEADING);
    put_lines(book, out, p)
}

// The text for a book that is refused.
fn put_refusal(out: &mut [u8], refusal: Refusal) -> Result<usize, Refusal>
    ensures { WroteText (refused_text (refusal_number refusal)) out.old out.new result }
{
    let number = u64::from(refusal.number());
    if out.len() < REFUSED.len() + width(number) + 1 {
        return Err(Refusal::TooShort);
    }
    let p = put_bytes(out, 0, &REFUSED);
    Ok(put_number(out, p, number, b'\n'))
}

// The standing of every account of the book b, written into out: how many bytes that took; refused where the output is too short.
pub fn report(b: &[u8], out: &mut [u8]) -> Result<usize, Refusal>
    ensures { Reported b.now out.old out.new result }
{
    let book = match Book::read(b) {
        Ok(book) => book,
        Err(refusal) => return put_refusal(out, refusal),
    };
    if is_short(book, out.len()) {
        return Err(Refusal::TooShort);
    }
    Ok(put_listing(book, out))
}

// The same for what the program `standing` read: more than 65,536 bytes are refused with 20.
pub fn report_input(b: &[u8], out: &mut [u8]) -> Result<usize, Refusal>
    ensures { WroteText (input_text b.now) out.old out.new result }
{
    if LONGEST_INPUT < b.len() {
        put_refusal(out, Refusal::BadBook)
    } else {
        report(b, out)
    }
}
