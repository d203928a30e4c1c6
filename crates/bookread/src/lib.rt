// The account list of a book read into lent memory: how many records each account has into counts, and each field of the records of all
// accounts, one after another, into a slice of its own. The book is tested first; then one pass reads it.
#![tactic(auto)]

ghost use Rattle.std.specs.Prelude.{◌≡◌, ◌≤◌, true, length};
ghost use Rattle.std.proofs.lemmas.List.Edits.{sets};
ghost use Rattle.rules.specs.Answer.{answered, number_of};
ghost use Rattle.bookformat.specs.Book.{accounts, counts_at, decode};
ghost use Rattle.bookformat.specs.Lent.{kinds_of, options_of, days_of, amounts_of, long_enough, read_refusal, Left, Gave};
ghost use Rattle.bookread.specs.Memory.{columns_of, SameSlices};

use book::Book;
use bookformat::base;
use bookformat::walk::Records;
use little::get;
use rules::refusals::Refusal;

// Memory lent for an account list, five slices as C lends them: how many records each account has, and a slice for each field of the records.
#[derive(Drop)]
pub struct LentMemory<'a> {
    pub counts: &'a mut [u32],
    pub kinds: &'a mut [u8],
    pub options: &'a mut [u8],
    pub days: &'a mut [u32],
    pub amounts: &'a mut [u64],
}

// Whether this memory has room for the list of a book that passed.
fn check_room(book: Book, memory: &LentMemory) -> Result<(), Refusal>
    ensures { result ≡ answered (read_refusal book.entry.bytes.now (columns_of memory.now)) tt }
{
    let r = book.records();
    let fits = book.accounts() <= memory.counts.len()
        && r <= memory.kinds.len()
        && r <= memory.options.len()
        && r <= memory.days.len()
        && r <= memory.amounts.len();
    Refusal::TooShort.when(!fits)
}

// The count of each account, from its entry in the table. By the entry's place: no lemma of the library says which slices `chunks_exact`
// gives.
fn take_counts(book: Book, counts: &mut [u32])
    requires { accounts book.bytes.now ≤ length counts.old }
    ensures { let b = book.entry.bytes.now in counts.new ≡ sets counts.old 0 (counts_at (accounts b) 8 b) }
{
    for (i, count) in counts[..book.accounts()].iter_mut().enumerate() {
        *count = get(book.bytes, base(i) + 4, 4) as u32;
    }
}

// Records, each field into its slice, at the index of the record: a zip with four slices is no plainer. Slices, since a loop over the lent
// struct would have to keep the length and the identity of each of its slices, which is no plainer.
fn take_records(
    records: Records,
    kinds: &mut [u8],
    options: &mut [u8],
    days: &mut [u32],
    amounts: &mut [u64],
)
    requires kinds_room { length records ≤ length kinds.old }
    requires options_room { length records ≤ length options.old }
    requires days_room { length records ≤ length days.old }
    requires amounts_room { length records ≤ length amounts.old }
    ensures kinds_after { kinds.new ≡ sets kinds.old 0 (kinds_of records.entry) }
    ensures options_after { options.new ≡ sets options.old 0 (options_of records.entry) }
    ensures days_after { days.new ≡ sets days.old 0 (days_of records.entry) }
    ensures amounts_after { amounts.new ≡ sets amounts.old 0 (amounts_of records.entry) }
{
    for (i, e) in records.enumerate() {
        kinds[i] = e.kind;
        options[i] = e.option;
        days[i] = e.day;
        amounts[i] = e.amount;
    }
}

// The list of a book that passed, into memory that has room for it.
fn take_book(book: Book, memory: &mut LentMemory)
    requires { long_enough book.bytes.now (columns_of memory.old) ≡ true }
    ensures left { Left 0 (decode book.entry.bytes.now) (columns_of memory.old) (columns_of memory.new) }
    ensures same { SameSlices memory.old memory.new }
{
    take_counts(book, memory.counts);
    let start = base(book.accounts());
    take_records(
        Records::new(book.bytes, start, book.records()),
        memory.kinds,
        memory.options,
        memory.days,
        memory.amounts,
    );
}

// Reads the account list of a book, or refuses with 20, 21 or 22 and leaves all memory lent as it was.
pub fn read(b: &[u8], memory: &mut LentMemory) -> Result<(), Refusal>
    ensures gave { Gave b.now (columns_of memory.old) (columns_of memory.new) (number_of result) }
    ensures outcome { result ≡ answered (read_refusal b.now (columns_of memory.old)) tt }
    ensures same { SameSlices memory.old memory.new }
{
    let book = Book::read(b)?;
    check_room(book, memory)?;
    take_book(book, memory);
    Ok(())
}
