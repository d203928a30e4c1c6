// An account after an event that is accepted: each part is lent its span and steps in place. The spans are cut here and in `ways`,
// where each is lent: a method that lends one on would have to say, for each part, what becomes of all the others.
ghost use Rattle.deposit.specs.Deposit.{DepositFit};
ghost use Rattle.account.specs.State.{state_on, money_after, file_after, service_after};
ghost use Rattle.account.specs.Looks.{Became, Passing, Applied};

use crate::rows::Offer;
use crate::spans::{
    ARRANGEMENT, COLLECTION, DEPOSIT, LAST, LEDGER, MEDICAL, RECEIPTS, WORDS, WORKDAYS, ledger_in,
    receipts_in,
};
use rules::kinds::Kind;
use rules::{Event, InRange};

// The money: ledger, receipts and arrangement.
fn move_money(m: &mut [u64; WORDS], posted: InRange, offer: Offer)
    requires { Passing m.old posted.event offer.view offer.item }
    ensures { Became m.new (money_after (state_on m.old) posted.event offer.view) }
{
    let e = posted.event;
    let v = offer.view;
    let credit = amounts::credit(v, e);
    ledger::step(&mut m[LEDGER..WORKDAYS], e, offer.item, credit);
    receipts::step(&mut m[RECEIPTS..LEDGER], posted);
    arrangement::step(&mut m[ARRANGEMENT..RECEIPTS], posted, v.arrears, v.payment);
}

// What is kept on file: the deposit, certificates and approvals.
fn keep_file(m: &mut [u64; WORDS], posted: InRange)
    requires { DepositFit (state_on m.old).deposit }
    ensures { Became m.new (file_after (state_on m.old) posted.event) }
{
    deposit::step(&mut m[DEPOSIT..MEDICAL], posted);
    medical::step(&mut m[MEDICAL..ARRANGEMENT], posted);
}

// Service, notice and calls, and the day. The arrears after the event are worked out only where a notice could lapse by them.
pub fn set_service(m: &mut [u64; WORDS], e: Event)
    ensures { Became m.new (service_after (state_on m.old) e) }
{
    let t = u64::from(e.day);
    let watched = collection::watches(&m[COLLECTION..DEPOSIT], e);
    let due = if watched {
        ledger::arrears(ledger_in(m), t)
    } else {
        0
    };
    collection::step(&mut m[COLLECTION..DEPOSIT], e, due);
    m[LAST] = t;
}

// The account after an event that passes; says the receipt of a payment, or 0.
pub fn apply(m: &mut [u64; WORDS], posted: InRange, offer: Offer) -> u64
    requires { Passing m.old posted.event offer.view offer.item }
    ensures { Applied m.old posted.event offer.view m.new result }
{
    let e = posted.event;
    move_money(m, posted, offer);
    keep_file(m, posted);
    set_service(m, e);
    let n = receipts::count(receipts_in(m), e.option);
    if e.is(Kind::Payment) { n } else { 0 }
}
