// Working days: the calendar that an account may be given when it is begun, as the account keeps it in 34 words of its memory: 1 where
// there is one, its first day, and a bit for each of its days. Without one all are 0. No event changes it: the part has no step, and is no
// `Part`. What is asked is defined for any words, so that the test need look at two of them alone.
#![tactic(auto)]

ghost use Rattle.std.specs.Prelude.{◌≡◌, ◌+◌, ◌-◌, ◌≤◌, ◌<◌, ◌&&◌, Some, min, leb, ltb, length};
ghost use Rattle.rules.specs.Limits.{calendar_days};
ghost use Rattle.rules.specs.Workdays.{bit_set, bit_in, how_many, counted_by, waited, in_calendar};
ghost use Rattle.workdays.specs.Kept.{workdays_size, workdays_on, workdays_words, workdays_of, workdays_ok, calendar_by};

use rules::Calendar;
use rules::limits::{CALENDAR_DAYS, CALENDAR_WORDS, NOTICE_FROM};

// 1 where there is a calendar
const GIVEN: usize = 0;

const FIRST: usize = 1;

const BITS: usize = 2;

pub const WORDS: usize = BITS + CALENDAR_WORDS;

// how many days have their bits in one word
const WORD_DAYS: u64 = u64::BITS as u64;

// ---- its days, counted from its first
// Whether the calendar that begins on `first` has day d; no sum of days is made, so that nothing wraps.
fn holds(first: u64, d: u64) -> bool
    ensures { result ≡ (leb first d && ltb d (first + calendar_days)) }
{
    first <= d && d - first < CALENDAR_DAYS
}

// How many of its days lie up to day d, d among them: none where d is before its first, all where d is past its last. No sum of days is
// made here either.
fn days_to(first: u64, d: u64) -> u64
    ensures { result ≡ min (d + 1 - first) calendar_days }
{
    if d < first {
        0
    } else {
        (d - first).min(CALENDAR_DAYS - 1) + 1
    }
}

// How many of a word's bits are set from bit `from` to the one before `to`: the mask drops those from `to` on, the shift those below `from`.
#[tactic(auto, using(crate::proofs::Bits::masked))]
fn ones_between(word: u64, from: u64, to: u64) -> u64
    requires { (from < 64) × (0 < to) × (to ≤ 64) }
    ensures { result ≡ how_many (bit_set word) from (to - from) }
{
    let mask = u64::MAX >> (WORD_DAYS - to);
    u64::from(((word & mask) >> from).count_ones())
}

// How many working days there are from the calendar's day lo to the one before its day hi, its first being 0: over the words in which
// these days have their bits.
#[tactic(auto, using(crate::proofs::Bits::turn, rules::proofs::Workdays::how_many_le))]
fn ones_from(bits: &[u64; CALENDAR_WORDS], lo: u64, hi: u64) -> u64
    requires { hi ≤ calendar_days }
    ensures { result ≡ how_many (bit_in bits.now) lo (hi - lo) }
{
    let mut count: u64 = 0;
    for k in lo / WORD_DAYS..hi.div_ceil(WORD_DAYS) {
        let day = WORD_DAYS * k;
        let from = lo.saturating_sub(day);
        let to = (hi - day).min(WORD_DAYS);
        count += ones_between(bits[k as usize], from, to);
    }
    count
}

// ---- what it answers
// The words of the bits, with their number in the type.
#[tactic(auto, using(crate::proofs::Words::bits_whole))]
fn bits_in(w: &[u64; WORDS]) -> &[u64; CALENDAR_WORDS]
    ensures { result.now ≡ (workdays_on w.now).bits }
{
    w[BITS..].as_array().unwrap()
}

// How many working days lie among n + 1 to t, if there is a calendar. A day that it does not have is none.
#[tactic(auto, using(crate::proofs::Law::counted_on))]
pub fn working_days(w: &[u64; WORDS], n: u64, t: u64) -> Option<u64>
    ensures { result ≡ counted_by (calendar_by (workdays_on w.now)) n t }
{
    if w[GIVEN] != 1 {
        return None;
    }
    let first = w[FIRST];
    Some(ones_from(bits_in(w), days_to(first, n), days_to(first, t)))
}

// Whether a notice of day n has waited long enough on t.
pub fn waited(w: &[u64; WORDS], n: u64, t: u64) -> bool
    ensures { result ≡ waited (calendar_by (workdays_on w.now)) n t }
{
    match working_days(w, n, t) {
        Some(count) => NOTICE_FROM <= count,
        None => NOTICE_FROM <= t.saturating_sub(n),
    }
}

// Whether day t lies in the calendar, if there is one.
pub fn in_calendar(w: &[u64; WORDS], t: u64) -> bool
    ensures { result ≡ in_calendar (calendar_by (workdays_on w.now)) t }
{
    w[GIVEN] != 1 || holds(w[FIRST], t)
}

// ---- the test
// A mark that is 0 or 1, and a first day that there can be. Not the bits: any are a calendar's, and without one they are
// never read.
pub fn ok(w: &[u64; WORDS]) -> bool
    ensures { result ≡ workdays_ok (workdays_on w.now) }
{
    w[GIVEN] <= 1 && w[FIRST] <= u64::from(u32::MAX)
}

// ---- its beginning
// The words become a calendar's.
#[tactic(auto, using(crate::proofs::Words::begun))]
pub fn begin(w: &mut [u64], calendar: Calendar)
    requires { length w.old ≡ workdays_size }
    ensures { w.new ≡ workdays_words (workdays_of (Some calendar)) }
{
    w[GIVEN] = 1;
    w[FIRST] = u64::from(calendar.first);
    w[BITS..].copy_from_slice(&calendar.bits);
}
