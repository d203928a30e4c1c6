// What is read of an account when an event is offered: what the table looks at, and the test.
ghost use Rattle.std.specs.Prelude.{◌≡◌, ◌&&◌};
ghost use Rattle.rules.specs.Kinds.{deposit_moved};
ghost use Rattle.rules.specs.History.{is};
ghost use Rattle.deposit.specs.Deposit.{earned_by};
ghost use Rattle.table.specs.Seen.{seen_of};
ghost use Rattle.account.specs.State.{state_on, file_ok, money_ok, state_ok, view};
ghost use Rattle.account.specs.Looks.{debts_on, debts_for, money_for, view_from};

use crate::known::Known;
use crate::spans::{
    ARRANGEMENT, COLLECTION, DEPOSIT, LAST, LAYOUT, LAYOUT_NUMBER, MEDICAL, RECEIPTS, WORDS,
    ledger_in, receipts_in, workdays_in,
};
use arrangement::Arrangement;
use collection::Collection;
use deposit::Deposit;
use ledger::Sums;
use medical::Medical;
use rules::kinds::Kind;
use rules::limits::FINAL_DAY;
use rules::{Event, Service, View};
use span::Part;

// What only the kinds that look at the debt look at, on an event's day.
#[derive(Clone, Copy, Default)]
pub struct Debts {
    pub arrears: u64,
    pub in_force: bool,
    pub notice_live: bool,
    pub notice_in_days: bool,
    pub in_calendar: bool,
    pub called: bool,
    pub certified: bool,
    pub approved: bool,
}

// The sums and the deposit; `payment` is the one that a returned payment names, `earned` is for a deposit moved.
#[derive(Clone, Copy)]
pub struct Money {
    pub sums: Sums,
    pub payment: u64,
    pub held: u64,
    pub required: u64,
    pub earned: bool,
}

fn debts_on(account: Known, t: u64) -> Debts
    ensures { result ≡ debts_on (state_on account.entry.words.now) t }
{
    let collection = account.collection();
    let medical = account.medical();
    Debts {
        arrears: ledger::arrears(account.ledger(), t),
        in_force: account.arrangement().in_force(t),
        notice_live: collection.notice_live(t),
        notice_in_days: collection.notice_in_days(account.workdays(), t),
        in_calendar: workdays::in_calendar(account.workdays(), t),
        called: collection.called(t),
        certified: medical.certified(t),
        approved: medical.approved(t),
    }
}

// Nothing is looked through for an event whose kind does not look at the debt.
fn debts_for(account: Known, e: Event) -> Debts
    ensures { result ≡ debts_for (state_on account.entry.words.now) e }
{
    if table::looks_at_debt(e) {
        debts_on(account, u64::from(e.day))
    } else {
        Debts::default()
    }
}

fn earned_for(d: Deposit, e: Event) -> bool
    ensures { result ≡ (is deposit_moved e && earned_by d e.day) }
{
    e.is(Kind::DepositMoved) && d.earned(u64::from(e.day))
}

fn money_for(account: Known, e: Event) -> Money
    ensures { result ≡ money_for (state_on account.entry.words.now) e }
{
    let d = account.deposit();
    Money {
        sums: ledger::sums_of(account.ledger()),
        payment: receipts::named(account.receipts(), e),
        held: d.held,
        required: d.required,
        earned: earned_for(d, e),
    }
}

// A View is one flat record, as the definitions speak of it. What is read of the debts and of the money is gathered apart: tried as one
// function with ..View::default(), whose seventeen fields then want an answer by hand.
fn view_of(service: Service, d: Debts, n: Money) -> View
    ensures { result ≡ view_from service d n }
{
    let s = n.sums;
    View {
        service,
        charged: s.charged,
        credited: s.credited,
        credits: s.credits,
        payment: n.payment,
        held: n.held,
        required: n.required,
        earned: n.earned,
        arrears: d.arrears,
        in_force: d.in_force,
        notice_live: d.notice_live,
        notice_in_days: d.notice_in_days,
        in_calendar: d.in_calendar,
        called: d.called,
        certified: d.certified,
        approved: d.approved,
        open_count: s.open_count,
    }
}

// What the table looks at when the event is offered, as far as the event's kind looks at it.
pub fn seen(account: Known, e: Event) -> View
    ensures { result ≡ seen_of (view (state_on account.entry.words.now) e) e }
{
    let service = account.collection().service();
    view_of(service, debts_for(account, e), money_for(account, e))
}

// ---- the test
// It reads an array, whose length its type says, and not a `Known`, which is made of memory that passed.
fn money_ok(m: &[u64; WORDS]) -> bool
    ensures { result ≡ money_ok (state_on m.now) }
{
    Arrangement::load(&m[ARRANGEMENT..RECEIPTS]).ok()
        && receipts::ok(receipts_in(m))
        && ledger::ok(ledger_in(m))
}

fn file_and_money_ok(m: &[u64; WORDS]) -> bool
    ensures { result ≡ (file_ok (state_on m.now) && money_ok (state_on m.now)) }
{
    Deposit::load(&m[DEPOSIT..MEDICAL]).ok()
        && Medical::load(&m[MEDICAL..ARRANGEMENT]).ok()
        && money_ok(m)
}

// The test that each account reached from a fresh one passes: it is of this layout, and each part passes its own. It goes part by
// part, so that few numbers are held at a time.
#[tactic(auto, unfolding(crate::specs::State::state_ok))]
pub fn ok(m: &[u64; WORDS]) -> bool
    ensures { result ≡ state_ok (state_on m.now) }
{
    m[LAYOUT] == LAYOUT_NUMBER
        && m[LAST] <= FINAL_DAY
        && Collection::load(&m[COLLECTION..DEPOSIT]).ok()
        && workdays::ok(workdays_in(m))
        && file_and_money_ok(m)
}
