// The core for programs in other languages: a static library with plain names. include/hollupaq.h says the same in C.
#![tactic(auto)]

mod bills;
mod books;
mod days;
mod kept;

ghost use Rattle.report.specs.Report.{text_of};
ghost use Rattle.bookpost.specs.BookHistory.{ToldHistory};
ghost use Rattle.std.specs.Prelude.{◌≡◌};
ghost use Rattle.hollupaq.specs.Library.{library_version, Written, amount_word};

use bookpost::history;
use report::report;
use rules::refusals::{Refusal, number_of};

// The version of the library: 10,000 for each change that a program has to be changed for, 100 for each that adds something or answers an
// event otherwise, 1 for each that only mends. include/hollupaq.h has the same number.
const VERSION: u64 = 10_600;

// What is answered from here on is accepted, or told: 256 and the value. Below it stands the number that refuses, or that there is none to tell.
const ACCEPTED: u64 = 256;

// An answer as a number: 256 and the value, or the number that refuses. The sum stops at the largest number, which no account comes near
// whose memory the library alone has changed.
fn word_of(answer: Result<u64, Refusal>) -> u64
    ensures { result ≡ amount_word answer }
{
    match answer {
        Ok(value) => ACCEPTED.saturating_add(value),
        Err(refusal) => u64::from(refusal.number()),
    }
}

// The version, so that a program can hold its header against the library that it runs with.
#[unsafe(no_mangle)]
pub extern "C" fn hollupaq_version() -> u64
    ensures { result ≡ library_version }
{
    VERSION
}

// Writes the standing of the book's accounts, as the program `standing` prints it, and says how many bytes that took.
// Where the output is too short for the text it stays as it was, and the answer is 0. No text is empty.
#[unsafe(no_mangle)]
pub extern "C" fn hollupaq_report(book: &[u8], out: &mut [u8]) -> u64
    ensures { Written (text_of book.now) out.old out.new result }
{
    report(book, out).unwrap_or(0) as u64
}

// The history of one account, counted from 0: for each of its records the number of the answer, 0 for accepted, and what is
// owed after it, in cents. The answer is 0; or 20 or 21 where the book is refused, or 22 where one of the slices is shorter
// than the account has records, and then both stay as they were. An account past the last has no records.
#[unsafe(no_mangle)]
pub extern "C" fn hollupaq_history(
    book: &[u8],
    account: usize,
    numbers: &mut [u8],
    owed: &mut [i64],
) -> u8
    ensures { ToldHistory book.now account numbers.old numbers.new owed.old owed.new result }
{
    number_of(history(book, account, numbers, owed))
}
