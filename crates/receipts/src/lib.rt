// Receipts, as an account keeps them in 85 words of its memory: how many payments each of the five tills has taken, and the amounts of
// the newest 16 of each. The payment of a till's receipt r stands at place r mod 16 of the till's own 16: a payment takes the place of the
// one 16 before it. 0, which no payment is, stands where it was returned or there is none: the layout of memory is fixed, so what is read
// stays that word. No `Part`: a step changes a word or two in place.
#![tactic(auto)]

ghost use Rattle.std.specs.Prelude.{◌≡◌, cond, ◌+◌, length};
ghost use Rattle.rules.specs.Kinds.{returned_payment};
ghost use Rattle.rules.specs.History.{is};
ghost use Rattle.receipts.specs.Receipts.{tills, receipts_size, receipts_on, receipts_after, count_by, place, payment_by, receipts_ok, ReceiptsFit};

use rules::kinds::Kind;
use rules::limits::{KNOWN_RECEIPTS, LAST_TILL, LIMIT};
use rules::{Event, InRange};

// How many tills there are: the count of each stands at its number, and the rings follow. They lie in one slice, since programs in C keep
// the account's memory, whose layout is fixed.
const TILLS: usize = LAST_TILL as usize + 1;

pub const WORDS: usize = TILLS + TILLS * (KNOWN_RECEIPTS as usize);

// Where the payment of a till's receipt stands.
fn place(till: u8, receipt: u64) -> usize
    ensures { result ≡ tills + place till receipt }
{
    TILLS + (KNOWN_RECEIPTS as usize) * usize::from(till) + ((receipt % KNOWN_RECEIPTS) as usize)
}

// ---- what it answers
// How many payments of a till were accepted: the receipt of its newest. An event may name any till, and there are five.
pub fn count(w: &[u64; WORDS], till: u8) -> u64
    ensures { result ≡ count_by (receipts_on w.now) till }
{
    if till <= LAST_TILL {
        w[usize::from(till)]
    } else {
        0
    }
}

// The payment of a till's receipt that is known and was not returned, 0 of any other.
#[tactic(auto, unfolding(rules::specs::History::within))]
pub fn payment(w: &[u64; WORDS], till: u8, receipt: u64) -> u64
    ensures { result ≡ payment_by (receipts_on w.now) till receipt }
{
    let n = count(w, till);
    let known = (1..=n).contains(&receipt) && n.saturating_sub(receipt) < KNOWN_RECEIPTS;
    if known { w[place(till, receipt)] } else { 0 }
}

// The payment that a returned payment names, 0 of any other event.
pub fn named(w: &[u64; WORDS], e: Event) -> u64
    ensures { result ≡ cond (is returned_payment e) (payment_by (receipts_on w.now) e.option e.amount) 0 }
{
    if e.is(Kind::ReturnedPayment) {
        payment(w, e.option, e.amount)
    } else {
        0
    }
}

// The test: no till has more payments than the limit has cents.
pub fn ok(w: &[u64; WORDS]) -> bool
    ensures { result ≡ receipts_ok (receipts_on w.now) }
{
    w[..TILLS].iter().all(|n| *n <= LIMIT)
}

// ---- its step
// An accepted event, in place: of a payment two words change, of a returned one one; no other kind touches anything.
pub fn step(w: &mut [u64], posted: InRange)
    requires size { length w.old ≡ receipts_size }
    requires fit { ReceiptsFit (receipts_on w.old) }
    ensures { receipts_on w.new ≡ receipts_after (receipts_on w.old) posted.event }
{
    let e = posted.event;
    let w: &mut [u64; WORDS] = w.as_mut_array().unwrap();
    if e.is(Kind::Payment) {
        let n = count(w, e.option) + 1;
        w[usize::from(e.option)] = n;
        w[place(e.option, n)] = e.amount;
    } else if e.is(Kind::ReturnedPayment) {
        w[place(e.option, e.amount)] = 0;
    }
}
