// A utility account: one slice of words, in which each part owns a span. One event is posted by `judge`, in lent memory; every
// other way to post is a door to it.
#![tactic(auto)]

pub mod known;
mod look;
pub mod many;
mod rows;
pub mod spans;
mod step;
mod ways;
mod would;

ghost use Rattle.std.specs.Prelude.{◌≡◌, Some};
ghost use Rattle.rules.specs.Workdays.{Taken};
ghost use Rattle.account.specs.State.{begun_words, fresh_words, Fit, passes as is_account};
ghost use Rattle.account.specs.Post.{Judges, Leaves, posted};

use known::Known;
use rules::kinds::Kind;
use rules::refusals::Refusal;
use rules::{Answer, Calendar, Event};
pub use spans::WORDS;
use spans::{LAYOUT, LAYOUT_NUMBER, WORKDAYS};
pub use would::would_answer;

// An account by value: 2,192 bytes are copied for each event, which takes twice as long as lending them.
#[derive(Clone, Copy)]
pub struct Account {
    pub memory: [u64; WORDS],
}

// The answer to an event, and the account afterwards.
#[derive(Clone, Copy)]
pub struct Posted {
    pub answer: Answer,
    pub account: Account,
}

// Whether memory is an account.
#[tactic(auto, using(crate::proofs::Exits::passes_yes, crate::proofs::Exits::passes_no))]
pub fn passes(m: &[u64]) -> bool
    ensures { result ≡ is_account m.now }
{
    m.as_array().is_some_and(look::ok)
}

// Memory with the words of an account becomes a fresh one: no events, service on, all sums 0.
pub fn clear(m: &mut [u64; WORDS])
    ensures { m.new ≡ fresh_words }
{
    m.fill(0);
    m[LAYOUT] = LAYOUT_NUMBER;
}

// The same with a calendar: any first day and any bits are taken, so that the claim speaks of every account that is begun.
pub fn begin(m: &mut [u64; WORDS], calendar: Calendar)
    ensures words { m.new ≡ begun_words (Some calendar) }
    ensures taken { Taken (Some calendar) }
{
    clear(m);
    workdays::begin(&mut m[WORKDAYS..WORDS], calendar);
}

// An event of any kind. Here and below that the memory is an account is a clause (known.rt says why).
fn judge_any(m: &mut [u64; WORDS], e: Event) -> Answer
    requires { Fit m.old }
    ensures { Judges m.old e result m.new }
{
    let known = Known { words: m };
    let posted = range::check_event(known.last(), e)?;
    let offer = rows::ask(known, e)?;
    Ok(step::apply(m, posted, offer))
}

// One event judged by the table, in memory that is known to be an account. What is refused changes nothing.
pub fn judge(m: &mut [u64; WORDS], e: Event) -> Answer
    requires { Fit m.old }
    ensures { Judges m.old e result m.new }
{
    if e.is(Kind::Payment) {
        ways::payment(m, e)
    } else if e.is(Kind::Bill) || e.is(Kind::Fee) {
        ways::item(m, e)
    } else {
        judge_any(m, e)
    }
}

// One event posted in any memory. What is no account is refused with 0, and stays as it was.
pub fn post(m: &mut [u64], e: Event) -> Answer
    ensures { Leaves m.old e result m.new }
{
    if passes(m) {
        judge(m.as_mut_array().unwrap(), e)
    } else {
        Err(Refusal::NoAccount)
    }
}

impl Account {
    // No events, service on, all sums 0.
    pub fn fresh() -> Account
        ensures { result.memory ≡ fresh_words }
    {
        let mut memory = [0; WORDS];
        clear(&mut memory);
        Account { memory }
    }

    // The same with a calendar.
    pub fn begin(calendar: Calendar) -> Account
        ensures words { result.memory ≡ begun_words (Some calendar) }
        ensures taken { Taken (Some calendar) }
    {
        let mut memory = [0; WORDS];
        begin(&mut memory, calendar);
        Account { memory }
    }

    // One event posted to the account by value, which is handed back.
    pub fn post(self, e: Event) -> Posted
        ensures { result ≡ posted self e }
    {
        let mut memory = self.memory;
        let answer = post(&mut memory, e);
        let account = Account { memory };
        Posted { answer, account }
    }
}
