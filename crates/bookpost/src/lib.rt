// An account of a book, posted in place: its records are found one after another, and nothing is copied out of the book.
#![tactic(auto)]

ghost use Rattle.std.specs.Prelude.{◌≡◌, cond, [], ◌≤◌, length};
ghost use Rattle.rules.specs.Answer.{answered, number_of};
ghost use Rattle.std.proofs.lemmas.List.Edits.{sets};
ghost use Rattle.bookformat.specs.Finding.{book_account};
ghost use Rattle.account.specs.State.{fresh_words};
ghost use Rattle.claim.specs.Claim.{accepts, Ran};
ghost use Rattle.bookpost.specs.BookHistory.{numbers_of, owed_from, history_refusal, ToldHistory};

use account::{Account, WORDS, judge};
use book::Book;
use lent::post_lent;
use rules::Answer;
use rules::refusals::{Refusal, number_of};

// 1 for a refusal.
fn refusals(a: Answer) -> u64
    ensures { result ≡ cond (accepts a) 0 1 }
{
    u64::from(a.is_err())
}

// Account i of a book, judged record by record in lent memory that is a fresh account; says how many records were refused. A loop: a closure
// that posts would have to say at each turn what became of the memory.
pub fn run_account(book: Book, i: usize, m: &mut [u64; WORDS]) -> u64
    requires { m.old ≡ fresh_words }
    ensures { Ran m.new result (book_account book.entry.bytes.now i) }
{
    let mut refused: u64 = 0;
    for e in book.records_of(i) {
        let answer = judge(m, e);
        refused += refusals(answer);
    }
    refused
}

// Notes the answer to each record of account i and what is owed after it, from the start of both slices on, at the index of the record: a
// zip with both is no plainer, and C lends them as two.
fn note_account(book: Book, i: usize, numbers: &mut [u8], owed: &mut [i64])
    requires numbers_room { length (book_account book.bytes.now i) ≤ length numbers.old }
    requires owed_room { length (book_account book.bytes.now i) ≤ length owed.old }
    ensures numbers_after { numbers.new ≡ sets numbers.old 0 (numbers_of (book_account book.entry.bytes.now i)) }
    ensures owed_after { owed.new ≡ sets owed.old 0 (owed_from [] (book_account book.entry.bytes.now i)) }
{
    let mut account = Account::fresh();
    for (at, e) in book.records_of(i).enumerate() {
        numbers[at] = number_of(post_lent(&mut account, e));
        owed[at] = questions::owed(&account.memory);
    }
}

// Whether the history of account i can be told into slices of n and m places.
fn check_history(book: Book, i: usize, n: usize, m: usize) -> Result<(), Refusal>
    ensures { result ≡ answered (history_refusal book.entry.bytes.now i n m) tt }
{
    let s = book.account(i);
    let enough = s.count <= n && s.count <= m;
    Refusal::TooShort.when(!enough)
}

// The history of account i: the number of the answer to each record, 0 for accepted, and what is owed after it. An account
// past the last has no records. A slice longer than the history keeps its tail; a refusal changes nothing.
pub fn history(b: &[u8], i: usize, numbers: &mut [u8], owed: &mut [i64]) -> Result<(), Refusal>
    ensures told_history { ToldHistory b.now i numbers.old numbers.new owed.old owed.new (number_of result) }
    ensures outcome { result ≡ answered (history_refusal b.now i (length numbers.old) (length owed.old)) tt }
{
    let book = Book::read(b)?;
    check_history(book, i, numbers.len(), owed.len())?;
    note_account(book, i, numbers, owed);
    Ok(())
}
