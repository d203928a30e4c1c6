// Books and account lists in the memory of a program in another language: tested, read and written. Only pointers with
// lengths, and numbers, cross the boundary.
ghost use Rattle.std.specs.Prelude.{◌≡◌};
ghost use Rattle.bookformat.specs.Book.{accounts, records, book_refusal};
ghost use Rattle.bookformat.specs.Lent.{Gave};
ghost use Rattle.hollupaq.specs.Library.{told};
ghost use Rattle.hollupaq.specs.Books.{columns, Stored};

use crate::word_of;
use book::Book;
use bookread::LentMemory;
use bookwrite::LentList;
use rules::refusals::number_of;

// The test of a book: 20 or 21 where it is refused, else 256 and how many accounts it has.
#[unsafe(no_mangle)]
pub extern "C" fn hollupaq_book_accounts(book: &[u8]) -> u64
    ensures { result ≡ told (book_refusal book.now) (accounts book.now) }
{
    word_of(Book::read(book).map(|b| b.accounts() as u64))
}

// The same with how many records it has, of all accounts.
#[unsafe(no_mangle)]
pub extern "C" fn hollupaq_book_records(book: &[u8]) -> u64
    ensures { result ≡ told (book_refusal book.now) (records book.now) }
{
    word_of(Book::read(book).map(|b| b.records() as u64))
}

// Reads the account list of a book: 0, and longer memory keeps its tail; or 20, 21 or 22, and all of it stays as it was.
#[unsafe(no_mangle)]
pub extern "C" fn hollupaq_book_read(
    book: &[u8],
    counts: &mut [u32],
    kinds: &mut [u8],
    options: &mut [u8],
    days: &mut [u32],
    amounts: &mut [u64],
) -> u8
    ensures { Gave book.now (columns counts.old kinds.old options.old days.old amounts.old) (columns counts.new kinds.new options.new days.new amounts.new) result }
{
    let mut memory = LentMemory {
        counts,
        kinds,
        options,
        days,
        amounts,
    };
    number_of(bookread::read(book, &mut memory))
}

// Writes the book of an account list: 256 and its length, and longer output keeps its tail; or 20, 21 or 22, and the output
// stays as it was.
#[unsafe(no_mangle)]
pub extern "C" fn hollupaq_book_write(
    counts: &[u32],
    kinds: &[u8],
    options: &[u8],
    days: &[u32],
    amounts: &[u64],
    out: &mut [u8],
) -> u64
    ensures { Stored (columns counts.now kinds.now options.now days.now amounts.now) out.old out.new result }
{
    let list = LentList {
        counts,
        kinds,
        options,
        days,
        amounts,
    };
    word_of(bookwrite::write(list, out).map(|n| n as u64))
}
