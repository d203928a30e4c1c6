// The deposit, in its own words of an account's memory: what is held and required, since when it is full, and the final notices
// and disconnections of the last 365 days, which bar its return.
#![tactic(auto)]

ghost use Rattle.std.specs.Prelude.{◌≡◌, length};
ghost use Rattle.span.proofs.Law.{whole as all_words};
ghost use Rattle.deposit.specs.Deposit.{is_full, deposit_after, concerns, deposit_ok, DepositFit, earned_by, deposit_size, deposit_on, deposit_words};
ghost use Rattle.deposit.specs.Conduct.{conduct_after, recent_by, quiet_by, conduct_ok};

use rules::kinds::Kind;
use rules::limits::{CONDUCT_DAYS, FINAL_DAY, MOST_DEPOSIT};
use rules::{Event, InRange};
use span::Part;

// How many days from the day after an event to the last of the 365 days in which it bars a return.
const BARS_FOR: u64 = CONDUCT_DAYS - 2;

// The days after the three newest final notices, newest first, and the day after the newest disconnection; 0 for none: all are
// words of memory, whose layout is fixed. A third notice within 365 days is one too many, so older ones are never asked for. Three
// fields and no array: a notice moves each to the next, and only the third is asked for.
#[derive(Clone, Copy)]
pub struct Conduct {
    pub first: u64,
    pub second: u64,
    pub third: u64,
    pub cut: u64,
}

#[derive(Clone, Copy)]
pub struct Deposit {
    pub held: u64,
    pub required: u64,
    // The day of the newest deposit paid: of a full deposit, the day on which held and required became equal.
    pub full_on: u64,
    pub conduct: Conduct,
}

// Whether the day before `next`, if there is one, lies in the 365 days up to t.
#[tactic(auto, unfolding(crate::specs::Conduct::recent_by))]
fn recent(next: u64, t: u64) -> bool
    ensures { result ≡ recent_by next t }
{
    1 <= next && t.saturating_sub(next) <= BARS_FOR
}

impl Conduct {
    // What it becomes when the event is accepted.
    fn after(self, e: Event) -> Conduct
        ensures { result ≡ conduct_after self e }
    {
        let next = u64::from(e.day) + 1;
        match Kind::try_from(e.kind) {
            Ok(Kind::FinalNotice) => Conduct {
                first: next,
                second: self.first,
                third: self.second,
                ..self
            },
            Ok(Kind::Disconnection) => Conduct { cut: next, ..self },
            _ => self,
        }
    }

    // Whether there were at most two notices, and no disconnection, in the 365 days up to t.
    fn quiet(self, t: u64) -> bool
        ensures { result ≡ quiet_by self t }
    {
        !recent(self.third, t) && !recent(self.cut, t)
    }

    fn ok(self) -> bool
        ensures { result ≡ conduct_ok self }
    {
        self.first <= FINAL_DAY + 1
            && self.second <= self.first
            && self.third <= self.second
            && self.cut <= FINAL_DAY + 1
    }
}

impl Deposit {
    fn is_full(self) -> bool
        ensures { result ≡ is_full self }
    {
        0 < self.required && self.held == self.required
    }

    // What it becomes when the event is accepted.
    fn after(self, posted: InRange) -> Deposit
        requires { DepositFit self }
        ensures { result ≡ deposit_after self posted.event }
    {
        let e = posted.event;
        match Kind::try_from(e.kind) {
            Ok(Kind::DepositAsked) => Deposit {
                required: e.amount,
                ..self
            },
            Ok(Kind::DepositPaid) => Deposit {
                held: self.held + e.amount,
                full_on: u64::from(e.day),
                ..self
            },
            Ok(Kind::DepositMoved | Kind::Closing) => Deposit {
                held: 0,
                required: 0,
                ..self
            },
            Ok(Kind::FinalNotice | Kind::Disconnection) => Deposit {
                conduct: self.conduct.after(e),
                ..self
            },
            _ => self,
        }
    }

    // Whether it is earned on day t.
    pub fn earned(self, t: u64) -> bool
        ensures { result ≡ earned_by self t }
    {
        self.is_full()
            && dates::year_later(self.full_on).is_some_and(|day| day <= t)
            && self.conduct.quiet(t)
    }
}

impl Part for Deposit {
    ghost WORDS = { deposit_size };

    ghost on = { deposit_on };

    ghost words = { deposit_words };

    ghost passes = { deposit_ok };

    ghost whole = { all_words deposit_size };

    const WORDS: usize = 7;

    // The words, one after the other.
    fn load(w: &[u64]) -> Deposit {
        let [held, required, full_on, first, second, third, cut] = *w.as_array::<7>().unwrap();
        let conduct = Conduct {
            first,
            second,
            third,
            cut,
        };
        Deposit {
            held,
            required,
            full_on,
            conduct,
        }
    }

    fn store(self, w: &mut [u64]) {
        let Conduct {
            first,
            second,
            third,
            cut,
        } = self.conduct;
        w.copy_from_slice(&[
            self.held,
            self.required,
            self.full_on,
            first,
            second,
            third,
            cut,
        ]);
    }

    fn ok(self) -> bool {
        self.held <= self.required
            && self.required <= MOST_DEPOSIT
            && self.full_on <= FINAL_DAY
            && self.conduct.ok()
    }
}

// Whether the event is of a kind that changes the part: any other neither loads nor stores its words.
fn concerns(e: Event) -> bool
    ensures { result ≡ concerns e }
{
    matches!(
        Kind::try_from(e.kind),
        Ok(
            Kind::DepositAsked
                | Kind::DepositPaid
                | Kind::DepositMoved
                | Kind::FinalNotice
                | Kind::Disconnection
                | Kind::Closing
        )
    )
}

// The event is accepted. The words are lent as every part's (`span::Part`). That the sums fit is a clause here, in `after` and in account:
// it follows from the whole history, and not from the step, so that no type could keep it.
pub fn step(w: &mut [u64], posted: InRange)
    requires w_len { length w.old ≡ deposit_size }
    requires deposit_fit { DepositFit (deposit_on w.old) }
    ensures { deposit_on w.new ≡ deposit_after (deposit_on w.old) posted.event }
{
    if concerns(posted.event) {
        span::change(w, |d: Deposit| d.after(posted));
    }
}
