// An account that a program in another language keeps in its own memory, and posts to one event at a time. Only pointers with
// lengths, and numbers, cross the boundary.
ghost use Rattle.std.specs.Prelude.{◌≡◌, Some, None, cond, get_or};
ghost use Rattle.collection.specs.Collection.{service_number};
ghost use Rattle.ledger.specs.Ledger.{no_item};
ghost use Rattle.account.specs.State.{account_size, passes as is_account};
ghost use Rattle.account.specs.Post.{answer_to};
ghost use Rattle.questions.specs.Questions.{owed_in, held_in, required_in, service_in, open_in, count_in};
ghost use Rattle.hollupaq.specs.Library.{answer_word, Keeps, KeepsAt, Begun};

use crate::word_of;
use account::WORDS;
use rules::{Calendar, Event};

// How many words an account has, so that a program can hold its header against the library.
#[unsafe(no_mangle)]
pub extern "C" fn hollupaq_words() -> u64
    ensures { result ≡ account_size }
{
    WORDS as u64
}

// Whether memory is an account, 1 or 0: it has the words of one, begins with the number of this layout, and passes the test.
#[unsafe(no_mangle)]
pub extern "C" fn hollupaq_ok(account: &[u64]) -> u8
    ensures { result ≡ cond (is_account account.now) 1 0 }
{
    u8::from(account::passes(account))
}

// No events, service on, all sums 0: 1 where the memory is such an account now, 0 where it has not the words of one and stays
// as it was.
#[unsafe(no_mangle)]
pub extern "C" fn hollupaq_fresh(account: &mut [u64]) -> u8
    ensures { Begun None account.old result account.new }
{
    match account.as_mut_array() {
        Some(words) => {
            account::clear(words);
            1
        }
        None => 0,
    }
}

// The same with a calendar, of any first day and any bits: 1 where the memory is such an account now, 0 where it has not the words of
// one, or the bits not those of a calendar, and it stays as it was.
#[unsafe(no_mangle)]
pub extern "C" fn hollupaq_begin(account: &mut [u64], first: u32, bits: &[u64]) -> u8
    ensures { Begun (Some (record { first = first; bits = bits.now })) account.old result account.new }
{
    let Some(bits) = bits.as_array() else {
        return 0;
    };
    match account.as_mut_array() {
        Some(words) => {
            account::begin(words, Calendar { first, bits: *bits });
            1
        }
        None => 0,
    }
}

// One event posted. Under 256: refused by that number, 0 where the memory is no account, and it stays as it was. Else accepted:
// 256 and the receipt of a payment.
#[unsafe(no_mangle)]
pub extern "C" fn hollupaq_post(
    account: &mut [u64],
    kind: u8,
    option: u8,
    day: u32,
    amount: u64,
) -> u64
    ensures { Keeps account.old (record { kind = kind; option = option; day = day; amount = amount }) result account.new }
{
    let e = Event {
        kind,
        option,
        day,
        amount,
    };
    word_of(account::post(account, e))
}

// What posting the event would answer, with the account left alone.
#[unsafe(no_mangle)]
pub extern "C" fn hollupaq_would_answer(
    account: &[u64],
    kind: u8,
    option: u8,
    day: u32,
    amount: u64,
) -> u64
    ensures { result ≡ answer_word (answer_to account.now (record { kind = kind; option = option; day = day; amount = amount })) }
{
    let e = Event {
        kind,
        option,
        day,
        amount,
    };
    word_of(account::would_answer(account, e))
}

// Posting on account i, from 0, of many that lie one after another; 0 where there is no account i.
#[unsafe(no_mangle)]
pub extern "C" fn hollupaq_post_at(
    accounts: &mut [u64],
    i: usize,
    kind: u8,
    option: u8,
    day: u32,
    amount: u64,
) -> u64
    ensures { KeepsAt i accounts.old (record { kind = kind; option = option; day = day; amount = amount }) result accounts.new }
{
    let e = Event {
        kind,
        option,
        day,
        amount,
    };
    word_of(account::many::post_at(accounts, i, e))
}

// What is owed, negative where there is credit.
#[unsafe(no_mangle)]
pub extern "C" fn hollupaq_owed(account: &[u64]) -> i64
    ensures { result ≡ owed_in account.now }
{
    questions::owed(account)
}

// The deposit held.
#[unsafe(no_mangle)]
pub extern "C" fn hollupaq_held(account: &[u64]) -> u64
    ensures { result ≡ held_in account.now }
{
    questions::held(account)
}

// The deposit required.
#[unsafe(no_mangle)]
pub extern "C" fn hollupaq_required(account: &[u64]) -> u64
    ensures { result ≡ required_in account.now }
{
    questions::required(account)
}

// 0 on, 1 off, 2 closed.
#[unsafe(no_mangle)]
pub extern "C" fn hollupaq_service(account: &[u64]) -> u32
    ensures { result ≡ service_number (service_in account.now) }
{
    questions::service(account) as u32
}

// How many items are open.
#[unsafe(no_mangle)]
pub extern "C" fn hollupaq_open_count(account: &[u64]) -> u64
    ensures { result ≡ count_in account.now }
{
    questions::open_count(account)
}

// The day of open item i, from 0 in the order posted; 0 past the last.
#[unsafe(no_mangle)]
pub extern "C" fn hollupaq_open_day(account: &[u64], i: usize) -> u64
    ensures { result ≡ (get_or (open_in account.now) i no_item).day }
{
    questions::open_item(account, i).day
}

// The unpaid part of open item i; 0 past the last.
#[unsafe(no_mangle)]
pub extern "C" fn hollupaq_open_unpaid(account: &[u64], i: usize) -> u64
    ensures { result ≡ (get_or (open_in account.now) i no_item).unpaid }
{
    questions::open_item(account, i).unpaid
}
