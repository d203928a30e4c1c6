// Books written from lent memory. All is tested before the first byte is stored; then one pass stores the book. What stores takes
// the output and a place: a struct of both would be lent again at each number, and its clauses would have to say that it holds the same bytes.
#![tactic(auto)]

ghost use Rattle.std.specs.Prelude.{◌≡◌, [], ◌∷◌, ◌++◌, ◌+◌, ◌*◌, ◌≤◌, length};
ghost use Rattle.std.specs.List.{sum};
ghost use Rattle.std.proofs.lemmas.List.Edits.{sets};
ghost use Rattle.little.specs.Little.{le};
ghost use Rattle.rules.specs.Answer.{answered, number_of};
ghost use Rattle.bookformat.specs.Book.{most_accounts, base, size, record_bytes, body, account_table, book_of};
ghost use Rattle.bookformat.specs.Lent.{lent, sizes_fine, kinds_fine, write_refusal, WroteBook};
ghost use Rattle.bookformat.specs.Facts.{WriteRoom};
ghost use Rattle.bookwrite.specs.Lists.{columns_of};

use bookformat::{LONGEST, MOST_ACCOUNTS, RECORD, base, kind_fine, size};
use little::put;
use rules::Event;
use rules::refusals::Refusal;

// An account list in memory, five slices as C lends them: how many records each account has in counts, the records of all accounts, one after
// another, in a slice for each field.
#[derive(Clone, Copy)]
pub struct LentList<'a> {
    pub counts: &'a [u32],
    pub kinds: &'a [u8],
    pub options: &'a [u8],
    pub days: &'a [u32],
    pub amounts: &'a [u64],
}

// The sum of at most 1,024 counts, which can't wrap.
fn sum(counts: &[u32]) -> u64
    requires { length counts.now ≤ most_accounts }
    ensures { result ≡ sum counts.now }
{
    counts.iter().map(|n| u64::from(*n)).sum()
}

fn kinds_fine(kinds: &[u8]) -> bool
    ensures { result ≡ kinds_fine kinds.now }
{
    kinds.iter().all(|k| kind_fine(*k))
}

// The counts and lengths. More records than a book has bytes are too many, so the length of the book can't wrap.
fn sizes_fine(list: LentList) -> bool
    ensures { result ≡ sizes_fine (columns_of list.entry) }
{
    let n = list.kinds.len();
    list.counts.len() <= MOST_ACCOUNTS
        && n <= LONGEST
        && size(list.counts.len(), n) <= LONGEST
        && sum(list.counts) == n as u64
        && list.options.len() == n
        && list.days.len() == n
        && list.amounts.len() == n
}

// The sizes first, then the kinds, then whether output of room bytes has room for the book.
fn check(list: LentList, room: usize) -> Result<(), Refusal>
    ensures { result ≡ answered (write_refusal (columns_of list.entry) room) tt }
{
    Refusal::BadBook.when(!sizes_fine(list))?;
    Refusal::BadRecord.when(!kinds_fine(list.kinds))?;
    Refusal::TooShort.when(room < size(list.counts.len(), list.kinds.len()))
}

// Two numbers of 4 bytes: the header, or an entry of the table. Were the part of the output lent in place of output and byte, the callers
// would have to say again where it lies.
fn put_entry(out: &mut [u8], p: usize, first: usize, n: usize)
    requires { p + 8 ≤ length out.old }
    ensures { out.new ≡ sets out.old p (le 4 first ++ le 4 n) }
{
    put(out, p, 4, first as u64);
    put(out, p + 4, 4, n as u64);
}

// The table of the counts, from byte 8 on. By the places of its entries: no lemma of the library says what `chunks_exact_mut` leaves.
fn put_table(counts: &[u32], out: &mut [u8])
    requires few { length counts.now ≤ most_accounts }
    requires room { base (length counts.now) ≤ length out.old }
    ensures { out.new ≡ sets out.old 8 (account_table (base (length counts.now)) counts.now) }
{
    let mut first = base(counts.len());
    for (i, count) in counts.iter().enumerate() {
        let n = *count as usize;
        put_entry(out, base(i), first, n);
        first += RECORD * n;
    }
}

// A record's kind, option and spare bytes.
fn put_marks(out: &mut [u8], p: usize, kind: u8, option: u8)
    requires { p + 4 ≤ length out.old }
    ensures { out.new ≡ sets out.old p (kind ∷ option ∷ 0 ∷ 0 ∷ []) }
{
    out[p..p + 4].copy_from_slice(&[kind, option, 0, 0]);
}

fn put_record(out: &mut [u8], p: usize, e: Event)
    requires { p + 16 ≤ length out.old }
    ensures { out.new ≡ sets out.old p (record_bytes e) }
{
    put_marks(out, p, e.kind, e.option);
    put(out, p + 4, 4, u64::from(e.day));
    put(out, p + 8, 8, e.amount);
}

// Every record, from byte p on, by its place, as `put_table` stores entries. The other fields are read at the index of the first, since a
// zip of four iterators is no plainer.
fn put_records(list: LentList, out: &mut [u8], p: usize)
    requires options { length list.options.now ≡ length list.kinds.now }
    requires days { length list.days.now ≡ length list.kinds.now }
    requires amounts { length list.amounts.now ≡ length list.kinds.now }
    requires room { p + 16 * length list.kinds.now ≤ length out.old }
    ensures { out.new ≡ sets out.old p (body (lent (length list.entry.kinds.now) 0 (columns_of list.entry))) }
{
    for (i, kind) in list.kinds.iter().enumerate() {
        let e = Event {
            kind: *kind,
            option: list.options[i],
            day: list.days[i],
            amount: list.amounts[i],
        };
        put_record(out, p + RECORD * i, e);
    }
}

// The book of a list that passed, into output that is long enough.
fn put_book(list: LentList, out: &mut [u8])
    requires { WriteRoom (columns_of list) (length out.old) }
    ensures { let l = list.entry in out.new ≡ sets out.old 0 (book_of l.counts.now (lent (length l.kinds.now) 0 (columns_of l))) }
{
    put_entry(out, 0, list.counts.len(), list.kinds.len());
    put_table(list.counts, out);
    put_records(list, out, base(list.counts.len()));
}

// Writes the book of the account list lent and says how long it is, or refuses with 20, 21 or 22 and leaves the output as it was.
pub fn write(list: LentList, out: &mut [u8]) -> Result<usize, Refusal>
    ensures wrote_book { WroteBook (columns_of list.entry) out.old out.new (number_of result) }
    ensures outcome { let l = list.entry in result ≡ answered (write_refusal (columns_of l) (length out.old)) (size (length l.counts.now) (length l.kinds.now)) }
{
    check(list, out.len())?;
    put_book(list, out);
    Ok(size(list.counts.len(), list.kinds.len()))
}
