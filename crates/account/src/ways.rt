// Payments, bills and fees are most of a book, so they have ways of their own: only their rows are asked, and only the parts that
// they can change step. Every other kind goes the general way, on which a book of these takes 3.1 to 3.3 times as long as the
// same rules in place, over the bar of 2. That an event is a payment, or a bill or a fee, stays a clause: `judge` has tested it, and a
// type for it would be opened again wherever a definition speaks of an event.
ghost use Rattle.std.specs.Prelude.{◌≡◌, true, min};
ghost use Rattle.basics.specs.Machine.{largest};
ghost use Rattle.rules.specs.Kinds.{payment};
ghost use Rattle.rules.specs.Answer.{answered};
ghost use Rattle.rules.specs.Table.{charge_of, refusal_by};
ghost use Rattle.account.specs.State.{state_on, Fit, view, money_after};
ghost use Rattle.account.specs.Post.{Judges};
ghost use Rattle.account.specs.Looks.{Became, Applied, Free, only_item};

use crate::known::Known;
use crate::spans::{ARRANGEMENT, LEDGER, RECEIPTS, WORDS, WORKDAYS, receipts_in};
use crate::step::set_service;
use rules::kinds::Kind;
use rules::refusals::Refusal;
use rules::{Answer, Event, InRange};

// ---- payments
// 19: payments plus deposits moved would pass the limit.
fn check_credit(account: Known, e: Event) -> Result<(), Refusal>
    requires { e.kind ≡ payment }
    ensures { result ≡ answered (refusal_by (view (state_on account.entry.words.now) e) e) tt }
{
    table::credit_rows(ledger::sums_of(account.ledger()).credited, e.amount)
}

// The money of a payment. The arrears and the payment that `arrangement` is told concern other kinds.
fn take_payment(m: &mut [u64; WORDS], posted: InRange)
    requires { let e = posted.event in Free m.old e × (e.kind ≡ payment) }
    ensures { let e = posted.event in Became m.new (money_after (state_on m.old) e (view (state_on m.old) e)) }
{
    let e = posted.event;
    ledger::step(&mut m[LEDGER..WORKDAYS], e, None, e.amount);
    receipts::step(&mut m[RECEIPTS..LEDGER], posted);
    arrangement::step(&mut m[ARRANGEMENT..RECEIPTS], posted, 0, 0);
}

// A payment that passes; says its receipt.
fn pay(m: &mut [u64; WORDS], posted: InRange) -> u64
    requires { let e = posted.event in Free m.old e × (e.kind ≡ payment) }
    ensures { let e = posted.event in Applied m.old e (view (state_on m.old) e) m.new result }
{
    take_payment(m, posted);
    set_service(m, posted.event);
    receipts::count(receipts_in(m), posted.event.option)
}

pub fn payment(m: &mut [u64; WORDS], e: Event) -> Answer
    requires { Fit m.old × (e.kind ≡ payment) }
    ensures { Judges m.old e result m.new }
{
    let account = Known { words: m };
    let posted = range::check_event(account.last(), e)?;
    check_credit(account, e)?;
    Ok(pay(m, posted))
}

// ---- bills and fees
// The amount of the item: of a bill with the late charge, of a fee by its number. `amounts::charge` says the same of a View, which is
// not made here. One function for both was tried: then no other crate calls `amounts::late_charge`, which a test of the gate forbids of a
// public function, and made private it would be a promise less.
fn amount_of(account: Known, e: Event) -> u64
    requires { only_item e ≡ true }
    ensures { result ≡ min (charge_of (view (state_on account.entry.words.now) e) e) largest }
{
    if e.is(Kind::Bill) {
        let s = ledger::sums_of(account.ledger());
        let late = amounts::late_charge(s.charged.saturating_sub(s.credits));
        e.amount.saturating_add(late)
    } else {
        amounts::fee(u64::from(e.option))
    }
}

// 4: closed; 18: the places of open items are taken; 19: the charges would pass the limit. Where none refuses, the amount of the item.
fn check_item(account: Known, e: Event) -> Result<u64, Refusal>
    requires { only_item e ≡ true }
    ensures { let v = view (state_on account.entry.words.now) e in result ≡ answered (refusal_by v e) (min (charge_of v e) largest) }
{
    Refusal::Closed.when(account.collection().service().is_closed())?;
    let charge = amount_of(account, e);
    let s = ledger::sums_of(account.ledger());
    table::item_rows(s.open_count, s.charged, charge)?;
    Ok(charge)
}

// A bill or a fee that passes.
fn charge_item(m: &mut [u64; WORDS], e: Event, charge: u64)
    requires { Free m.old e × (only_item e ≡ true) × (charge ≡ min (charge_of (view (state_on m.old) e) e) largest) }
    ensures { Applied m.old e (view (state_on m.old) e) m.new 0 }
{
    ledger::step(&mut m[LEDGER..WORKDAYS], e, Some(charge), 0);
    set_service(m, e);
}

pub fn item(m: &mut [u64; WORDS], e: Event) -> Answer
    requires { Fit m.old × (only_item e ≡ true) }
    ensures { Judges m.old e result m.new }
{
    let account = Known { words: m };
    range::check_event(account.last(), e)?;
    let charge = check_item(account, e)?;
    charge_item(m, e, charge);
    Ok(0)
}
