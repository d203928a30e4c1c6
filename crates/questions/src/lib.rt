// What an account answers, asked in any memory. What is no account owes and holds nothing, has no open items and is closed: each of these
// has an answer for any memory, as C has it in one number. Questions for a day can be refused, and say so.
#![tactic(auto, using(crate::proofs::Asked::asked_is, crate::proofs::Asked::told_is), unfolding(crate::specs::Questions::asked_of))]

mod days;

ghost use Rattle.std.specs.Prelude.{◌≡◌, get_or};
ghost use Rattle.ledger.specs.Ledger.{no_item};
ghost use Rattle.questions.specs.Questions.{owed_in, held_in, required_in, service_in, open_in, count_in, working_days_in};

use account::known::Known;
pub use days::{arrears, certified, in_force, notice_live};
use ledger::{NO_ITEM, OpenItem};
use rules::Service;

// What is owed, negative where there is credit.
pub fn owed(m: &[u64]) -> i64
    ensures { result ≡ owed_in m.now }
{
    Known::of(m).map_or(0, |a| ledger::owed(a.ledger()))
}

// The deposit held.
pub fn held(m: &[u64]) -> u64
    ensures { result ≡ held_in m.now }
{
    Known::of(m).map_or(0, |a| a.deposit().held)
}

// The deposit required.
pub fn required(m: &[u64]) -> u64
    ensures { result ≡ required_in m.now }
{
    Known::of(m).map_or(0, |a| a.deposit().required)
}

pub fn service(m: &[u64]) -> Service
    ensures { result ≡ service_in m.now }
{
    Known::of(m).map_or(Service::Closed, |a| a.collection().service())
}

// How many items are open.
pub fn open_count(m: &[u64]) -> u64
    ensures { result ≡ count_in m.now }
{
    Known::of(m).map_or(0, |a| ledger::sums_of(a.ledger()).open_count)
}

// The day and the unpaid part of open item i, from 0 in the order posted; both 0 past the last: every index has an answer.
pub fn open_item(m: &[u64], i: usize) -> OpenItem
    ensures { result ≡ get_or (open_in m.now) i no_item }
{
    Known::of(m).map_or(NO_ITEM, |a| ledger::open_item(a.ledger(), i as u64))
}

// How many working days of its calendar lie among n + 1 to t, if it has one: what a notice of day n has waited on day t.
pub fn working_days(m: &[u64], n: u32, t: u32) -> Option<u64>
    ensures { result ≡ working_days_in m.now n t }
{
    Known::of(m).map_or(None, |a| {
        workdays::working_days(a.workdays(), u64::from(n), u64::from(t))
    })
}
