// The ledger of an account, in its own words of the account's memory: what was charged, credited and paid out, and the items
// that are open. Item k, counted from 0 over all charges, stands at place k mod 64 with its day and the sum of the charges up to
// it (document 01: C_k). These sums rise, so what is paid is always the oldest: `closed` counts it, and no place changes.
// What is read, but for what is owed, is defined for any words, so that the test need not look through the places. No `Part`: a step
// changes a few words in place.
#![tactic(auto)]

ghost use Rattle.std.specs.Prelude.{◌≡◌, ◌+◌, ◌-◌, ◌≤◌, ◌<◌, min, is_some, unwrap_or, length, get_or};
ghost use Rattle.std.proofs.Math.IntN.{sub_ℕ};
ghost use Rattle.rules.specs.Money.{unpaid as unpaid_of, due as due_of};
ghost use Rattle.rules.specs.Limits.{limit};
ghost use Rattle.ledger.specs.Ring.{day_in, day_at, upto_at};
ghost use Rattle.ledger.specs.Ledger.{ledger_size, ledger_on, credits_by, sums_of, arrears_by, open_by, no_item, sum_before, entered_in, credited_in, paid_from, settled, ledger_after, Settled, is_settled, head_ok, ledger_ok, LedgerFit, LedgerRoom};

use rules::Event;
use rules::kinds::Kind;
use rules::limits::{GRACE, LIMIT, MOST_OPEN};

// all charges (document 01: C)
const CHARGED: usize = 0;

// payments plus deposits moved
const CREDITED: usize = 1;

const PAID_OUT: usize = 2;

// how many items were made, and how many of them are paid
const MADE: usize = 3;

const CLOSED: usize = 4;

// the sum of those that are paid
const BELOW: usize = 5;

// the ring of items: 64 places of two words
const RING: usize = 6;

pub const WORDS: usize = RING + 2 * (MOST_OPEN as usize);

// The sums that the table looks at, whatever the event.
#[derive(Clone, Copy)]
pub struct Sums {
    pub charged: u64,
    pub credited: u64,
    // credited less paid out (document 01: P)
    pub credits: u64,
    pub open_count: u64,
}

// What is kept of an item: its day, and the sum of all charges up to it.
#[derive(Clone, Copy)]
struct Entry {
    day: u64,
    upto: u64,
}

// An open item as it is shown: its day and its unpaid part.
#[derive(Clone, Copy)]
pub struct OpenItem {
    pub day: u64,
    pub unpaid: u64,
}

// What stands past the last open item: every index has an answer, as C has it in two numbers. The definitions name it too.
pub const NO_ITEM: OpenItem = OpenItem { day: 0, unpaid: 0 };

// ---- what is read
// Where item k stands: its day is there, and the sum of all charges up to it follows.
fn place(k: u64) -> usize
    ensures { result ≡ 6 + day_in k }
{
    RING + 2 * ((k % MOST_OPEN) as usize)
}

impl Entry {
    // That of item k.
    fn at(w: &[u64; WORDS], k: u64) -> Entry
        ensures day { result.day ≡ day_at (ledger_on w.now).ring k }
        ensures upto { result.upto ≡ upto_at (ledger_on w.now).ring k }
    {
        let at = place(k);
        Entry {
            day: w[at],
            upto: w[at + 1],
        }
    }

    // The unpaid part of the item, where those before it come to below and credits to p.
    fn unpaid(self, below: u64, p: u64) -> u64
        ensures { result ≡ unpaid_of p (record { day = self.day; amount = self.upto - below; upto = self.upto }) }
    {
        let amount = self.upto.saturating_sub(below);
        amount.min(self.upto.saturating_sub(p))
    }

    // The same where the item is delinquent on day t, else 0. Its day may be any word, so the sum of days is not made.
    fn due(self, below: u64, p: u64, t: u64) -> u64
        ensures { result ≡ due_of p t (record { day = self.day; amount = self.upto - below; upto = self.upto }) }
    {
        if GRACE <= t && self.day <= t - GRACE {
            self.unpaid(below, p)
        } else {
            0
        }
    }
}

// Payments plus deposits moved, less payouts (document 01: P).
fn credits(w: &[u64; WORDS]) -> u64
    ensures { result ≡ credits_by (ledger_on w.now) }
{
    w[CREDITED].saturating_sub(w[PAID_OUT])
}

// ---- settling
// The first item that credits leave open, and the sum of those before it.
#[derive(Clone, Copy)]
struct Mark {
    closed: u64,
    below: u64,
}

// By the items' numbers, as their places are: an iterator would count them too.
#[tactic(auto, using(crate::proofs::Turns::stop, crate::proofs::Turns::pass))]
fn first_open(w: &[u64; WORDS]) -> Mark
    ensures { Settled (ledger_on w.now) result.closed result.below }
{
    let p = credits(w);
    let made = w[MADE];
    let mut mark = Mark {
        closed: w[CLOSED],
        below: w[BELOW],
    };
    for k in w[CLOSED]..made {
        let upto = Entry::at(w, k).upto;
        if p < upto {
            return mark;
        }
        mark = Mark {
            closed: k + 1,
            below: upto,
        };
    }
    mark
}

fn settle(w: &mut [u64; WORDS])
    ensures { ledger_on w.new ≡ settled (ledger_on w.old) }
{
    let m = first_open(w);
    w[CLOSED] = m.closed;
    w[BELOW] = m.below;
}

// ---- the steps
// One more item.
fn enter(w: &mut [u64; WORDS], day: u64, amount: u64)
    requires { ((ledger_on w.old).charged + amount ≤ limit) × ((ledger_on w.old).made ≤ limit) }
    ensures { ledger_on w.new ≡ entered_in (ledger_on w.old) day amount }
{
    let upto = w[CHARGED] + amount;
    let made = w[MADE];
    let at = place(made);
    let up = at + 1;
    w[CHARGED] = upto;
    w[MADE] = made + 1;
    w[at] = day;
    w[up] = upto;
}

// The new item is settled with the others: where there is credit it may be paid at once.
fn charge_item(w: &mut [u64; WORDS], day: u64, amount: u64)
    requires { ((ledger_on w.old).charged + amount ≤ limit) × ((ledger_on w.old).made ≤ limit) }
    ensures { ledger_on w.new ≡ settled (entered_in (ledger_on w.old) day amount) }
{
    enter(w, day, amount);
    settle(w);
}

// A payment, or a deposit moved.
fn add_credit(w: &mut [u64; WORDS], amount: u64)
    requires { (ledger_on w.old).credited + amount ≤ limit }
    ensures { ledger_on w.new ≡ settled (credited_in (ledger_on w.old) amount) }
{
    let credited = w[CREDITED] + amount;
    w[CREDITED] = credited;
    settle(w);
}

// Credits fall by a payout, so nothing is settled.
fn pay_out(w: &mut [u64; WORDS], amount: u64)
    requires { (ledger_on w.old).paid_out + amount ≤ limit }
    ensures { ledger_on w.new ≡ paid_from (ledger_on w.old) amount }
{
    let paid = w[PAID_OUT] + amount;
    w[PAID_OUT] = paid;
}

// The step of an accepted event: the amount of the item that it adds, if it adds one, and what it credits; a credit of 0 moves
// nothing, so that it is none. An event does one thing at most, and one that does none touches no word. No enum of the three: the amounts
// come from the table, the View and the event, so that it would be made by these same ifs a call higher, to be opened here.
#[tactic(auto, using(crate::proofs::ByKind::on_charge, crate::proofs::ByKind::on_credit, crate::proofs::ByKind::on_payout, crate::proofs::ByKind::on_other))]
pub fn step(w: &mut [u64], e: Event, item: Option<u64>, credit: u64)
    requires w_len { length w.old ≡ ledger_size }
    requires ledger_fit { LedgerFit (ledger_on w.old) }
    requires ledger_room { LedgerRoom (ledger_on w.old) e (is_some item) (unwrap_or item 0) credit }
    ensures { ledger_on w.new ≡ ledger_after (ledger_on w.old) e (is_some item) (unwrap_or item 0) credit }
{
    let w: &mut [u64; WORDS] = w.as_mut_array().unwrap();
    if let Some(amount) = item {
        charge_item(w, u64::from(e.day), amount);
    } else if e.is(Kind::Payout) {
        pay_out(w, e.amount);
    } else if 0 < credit {
        add_credit(w, credit);
    }
}

// ---- what it answers
pub fn sums_of(w: &[u64; WORDS]) -> Sums
    ensures { result ≡ sums_of (ledger_on w.now) }
{
    Sums {
        charged: w[CHARGED],
        credited: w[CREDITED],
        credits: credits(w),
        open_count: w[MADE].saturating_sub(w[CLOSED]),
    }
}

// What is owed, negative where there is credit.
pub fn owed(w: &[u64; WORDS]) -> i64
    requires { LedgerFit (ledger_on w.now) }
    ensures { result ≡ sub_ℕ (ledger_on w.now).charged (credits_by (ledger_on w.now)) }
{
    w[CHARGED].checked_signed_diff(credits(w)).unwrap()
}

// The arrears on day t.
#[tactic(auto, using(crate::proofs::Turns::sum_turn, crate::proofs::Turns::sum_done))]
pub fn arrears(w: &[u64; WORDS], t: u64) -> u64
    ensures { result ≡ arrears_by (ledger_on w.now) t }
{
    let p = credits(w);
    let made = w[MADE];
    let mut below = w[BELOW];
    let mut sum: u64 = 0;
    for k in w[CLOSED]..made {
        let e = Entry::at(w, k);
        sum = sum.saturating_add(e.due(below, p, t));
        below = e.upto;
    }
    sum
}

// The sum of the items before open item i.
fn sum_before(w: &[u64; WORDS], i: u64) -> u64
    requires { i < (ledger_on w.now).made - (ledger_on w.now).closed }
    ensures { result ≡ sum_before (ledger_on w.now) i }
{
    if i == 0 {
        return w[BELOW];
    }
    Entry::at(w, w[CLOSED] + i - 1).upto
}

// Open item i, from 0 in the order posted.
pub fn open_item(w: &[u64; WORDS], i: u64) -> OpenItem
    ensures { result ≡ get_or (open_by (ledger_on w.now)) i no_item }
{
    let closed = w[CLOSED];
    if w[MADE].saturating_sub(closed) <= i {
        return NO_ITEM;
    }
    let e = Entry::at(w, closed + i);
    let before = sum_before(w, i);
    OpenItem {
        day: e.day,
        unpaid: e.unpaid(before, credits(w)),
    }
}

// ---- the test
// Whether nothing that is paid is open still.
fn is_settled(w: &[u64; WORDS]) -> bool
    ensures { result ≡ is_settled (ledger_on w.now) }
{
    let closed = w[CLOSED];
    w[MADE] <= closed || credits(w) < Entry::at(w, closed).upto
}

fn head_ok(w: &[u64; WORDS]) -> bool
    ensures { result ≡ head_ok (ledger_on w.now) }
{
    let charged = w[CHARGED];
    let credited = w[CREDITED];
    let made = w[MADE];
    let closed = w[CLOSED];
    charged <= LIMIT
        && credited <= LIMIT
        && w[PAID_OUT] <= credited
        && made <= charged
        && closed <= made
        && made.saturating_sub(closed) <= MOST_OPEN
}

// The test: sums within the limit, payouts within the credits, at most 64 items open and the first of them not paid.
pub fn ok(w: &[u64; WORDS]) -> bool
    ensures { result ≡ ledger_ok (ledger_on w.now) }
{
    head_ok(w) && is_settled(w)
}
