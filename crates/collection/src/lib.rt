// Collection, in its own words of an account's memory: the service, the newest final notice, and the calls that a
// disconnection may ask for. The words come as the slice that an account lends, with its length as a clause: what changes them can take
// no array (`span::Part`), and `watches`, which asks, looks at one word.
#![tactic(auto)]

ghost use Rattle.std.specs.Prelude.{◌≡◌, ◌+◌, length};
ghost use Rattle.span.proofs.Law.{whole as all_words};
ghost use Rattle.rules.specs.History.{within};
ghost use Rattle.workdays.specs.Kept.{workdays_on, calendar_by};
ghost use Rattle.collection.specs.Collection.{service_by, served_after, notice_after, live_by, in_days_by, calls_after, recent_by, called_by, collection_after, watched, concerns, lapsed_by, collection_ok, collection_size, collection_on, collection_words};

use rules::kinds::Kind;
use rules::limits::{CALL_DAYS, ENOUGH, FINAL_DAY, NOTICE_TO};
use rules::{Event, Service};
use span::Part;

// The word of the notice's mark, which is asked and changed by itself.
const NOTICE_LIVE: usize = 2;

// The word of each service is its number. A word of memory may be any other, so it stays one: `ok` tests it.
const ON: u64 = Service::On as u64;

const OFF: u64 = Service::Off as u64;

const CLOSED: u64 = Service::Closed as u64;

// How many days from the day after a call to the last day on which it counts.
const CALLED_FOR: u64 = CALL_DAYS - 1;

// The newest final notice, and 1 while it lives on: no disconnection used it up and no event made it lapse. The mark and the
// service are the words themselves: `ok` tests what they are, and the layout of memory that programs in C keep is fixed.
#[derive(Clone, Copy)]
pub struct Notice {
    pub day: u64,
    pub live: u64,
}

// The day after the last call, and the day after the last call on an earlier day; 0 for none: both are words of memory, whose
// layout is fixed. A disconnection on a day can ask for no other: a call on the day itself does not count, and an older one is
// further back.
#[derive(Clone, Copy)]
pub struct Calls {
    pub last: u64,
    pub earlier: u64,
}

#[derive(Clone, Copy)]
pub struct Collection {
    pub service: u64,
    pub notice: Notice,
    pub calls: Calls,
}

// Whether t lies in the days from `day` + `from` to `day` + `to`; no sum of days is made, so that it needs no bound.
#[tactic(auto, unfolding(rules::specs::History::within))]
fn window(day: u64, from: u64, to: u64, t: u64) -> bool
    ensures { result ≡ within (day + from) (day + to) t }
{
    day <= t && (from..=to).contains(&t.saturating_sub(day))
}

// Whether the day before `next`, if there is one, lies in t − 3 to t − 1.
#[tactic(auto, unfolding(crate::specs::Collection::recent_by))]
fn recent(next: u64, t: u64) -> bool
    ensures { result ≡ recent_by next t }
{
    1 <= next && window(next, 0, CALLED_FOR, t)
}

fn service_after(service: u64, e: Event) -> u64
    ensures { result ≡ served_after service e }
{
    match Kind::try_from(e.kind) {
        Ok(Kind::Disconnection) => OFF,
        Ok(Kind::Reconnection) => ON,
        Ok(Kind::Closing) => CLOSED,
        _ => service,
    }
}

impl Notice {
    // `arrears` are those after the event, on its day.
    fn after(self, e: Event, arrears: u64) -> Notice
        ensures { result ≡ notice_after self e arrears }
    {
        let notice = e.is(Kind::FinalNotice);
        let live = (notice || self.live == 1) && !e.is(Kind::Disconnection) && ENOUGH <= arrears;
        Notice {
            day: if notice { u64::from(e.day) } else { self.day },
            live: u64::from(live),
        }
    }

    fn is_live(self, t: u64) -> bool
        ensures { result ≡ live_by self t }
    {
        self.live == 1 && window(self.day, 0, NOTICE_TO, t)
    }

    // A question of its own beside `is_live`, as the rules have the two. The calendar is looked at last, for twenty days at most.
    fn in_days(self, calendar: &[u64; workdays::WORDS], t: u64) -> bool
        ensures { result ≡ in_days_by (calendar_by (workdays_on calendar.now)) self t }
    {
        self.live == 1
            && t.saturating_sub(self.day) <= NOTICE_TO
            && workdays::waited(calendar, self.day, t)
    }
}

impl Calls {
    fn after(self, e: Event) -> Calls
        ensures { result ≡ calls_after self e }
    {
        let next = u64::from(e.day) + 1;
        if !e.is(Kind::Call) {
            return self;
        }
        Calls {
            last: next,
            earlier: if self.last == next {
                self.earlier
            } else {
                self.last
            },
        }
    }

    fn called(self, t: u64) -> bool
        ensures { result ≡ called_by self t }
    {
        recent(self.last, t) || recent(self.earlier, t)
    }
}

impl Collection {
    // What it becomes when the event is accepted; `arrears` are those after the event, on its day.
    fn after(self, e: Event, arrears: u64) -> Collection
        ensures { result ≡ collection_after self e arrears }
    {
        Collection {
            service: service_after(self.service, e),
            notice: self.notice.after(e, arrears),
            calls: self.calls.after(e),
        }
    }

    pub fn service(self) -> Service
        ensures { result ≡ service_by self.service }
    {
        match self.service {
            ON => Service::On,
            OFF => Service::Off,
            _ => Service::Closed,
        }
    }

    // Whether a final notice is live on day t.
    pub fn notice_live(self, t: u64) -> bool
        ensures { result ≡ live_by self.notice t }
    {
        self.notice.is_live(t)
    }

    // Whether day t is one of the days of a live notice on which a disconnection is allowed, by the words of the account's calendar.
    pub fn notice_in_days(self, calendar: &[u64; workdays::WORDS], t: u64) -> bool
        ensures { result ≡ in_days_by (calendar_by (workdays_on calendar.now)) self.notice t }
    {
        self.notice.in_days(calendar, t)
    }

    // Whether there was a call on some day from t − 3 to t − 1.
    pub fn called(self, t: u64) -> bool
        ensures { result ≡ called_by self.calls t }
    {
        self.calls.called(t)
    }
}

impl Part for Collection {
    ghost WORDS = { collection_size };

    ghost on = { collection_on };

    ghost words = { collection_words };

    ghost passes = { collection_ok };

    ghost whole = { all_words collection_size };

    const WORDS: usize = 5;

    // The words, one after the other.
    fn load(w: &[u64]) -> Collection {
        let [service, day, live, last, earlier] = *w.as_array::<5>().unwrap();
        Collection {
            service,
            notice: Notice { day, live },
            calls: Calls { last, earlier },
        }
    }

    fn store(self, w: &mut [u64]) {
        let Notice { day, live } = self.notice;
        let Calls { last, earlier } = self.calls;
        w.copy_from_slice(&[self.service, day, live, last, earlier]);
    }

    // A service that there is, a mark of the notice that is 0 or 1, days in range, and the calls in order.
    fn ok(self) -> bool {
        self.service <= CLOSED
            && self.notice.live <= 1
            && self.notice.day <= FINAL_DAY
            && self.calls.last <= FINAL_DAY + 1
            && self.calls.earlier <= self.calls.last
    }
}

// Whether there is a notice after the event that low arrears would make lapse: where there is none, nobody need count them.
pub fn watches(w: &[u64], e: Event) -> bool
    requires { length w.now ≡ collection_size }
    ensures { result ≡ watched (collection_on w.now) e }
{
    e.is(Kind::FinalNotice) || w[NOTICE_LIVE] == 1
}

// An event that is none of collection's can only make a notice lapse: of the words one changes, and only where there is a notice, since
// most events come by here. `Notice::after` has the same bar, of the events that are collection's.
fn lapse(w: &mut [u64], arrears: u64)
    requires { length w.old ≡ collection_size }
    ensures { collection_on w.new ≡ lapsed_by (collection_on w.old) arrears }
{
    let live = w[NOTICE_LIVE];
    if live != 0 {
        w[NOTICE_LIVE] = u64::from(live == 1 && ENOUGH <= arrears);
    }
}

// Whether the event is of a kind that sets the service, or is a notice or a call.
fn concerns(e: Event) -> bool
    ensures { result ≡ concerns e }
{
    matches!(
        Kind::try_from(e.kind),
        Ok(
            Kind::FinalNotice
                | Kind::Call
                | Kind::Disconnection
                | Kind::Reconnection
                | Kind::Closing
        )
    )
}

// The event is accepted; `arrears` are those after it, on its day.
pub fn step(w: &mut [u64], e: Event, arrears: u64)
    requires { length w.old ≡ collection_size }
    ensures { collection_on w.new ≡ collection_after (collection_on w.old) e arrears }
{
    if concerns(e) {
        span::change(w, |c: Collection| c.after(e, arrears));
    } else {
        lapse(w, arrears);
    }
}
