// Rows 1 to 3, which concern every event: its day, and its fields; unknown kinds too. A field that a kind does not name is 0.
#![tactic(auto)]

ghost use Rattle.std.specs.Prelude.{◌≡◌, cond, not, Err, MatchResult};
ghost use Rattle.rules.specs.Kinds.{kind_number};
ghost use Rattle.rules.specs.Range.{amount_to, at_till, option_in, longest_certificate, fields_of, in_range};
ghost use Rattle.rules.specs.Answer.{answered};
ghost use Rattle.rules.specs.Accepted.{day_rows};

use rules::kinds::Kind;
use rules::limits::{
    APPROVAL_DAYS, CERTIFICATE_DAYS, FINAL_DAY, LAST_TILL, LEAST_PARTS, MOST_AMOUNT, MOST_DEPOSIT,
    MOST_PARTS, MOST_RECEIPT, SHORT_CERTIFICATE_DAYS, SHORT_CERTIFICATES_FROM,
};
use rules::refusals::Refusal;
use rules::{Event, Fields, InRange};

// The amount lies in 1 to n, and the option is not named.
fn amount_to(n: u64) -> Fields
    ensures { result ≡ amount_to n }
{
    Fields {
        option_from: 0,
        option_to: 0,
        amount_from: 1,
        amount_to: n,
    }
}

// The option names a till, and the amount lies in 1 to n.
fn at_till(n: u64) -> Fields
    ensures { result ≡ at_till n }
{
    Fields {
        option_to: LAST_TILL,
        ..amount_to(n)
    }
}

// The option lies in m to n, and the amount is not named.
fn option_in(m: u8, n: u8) -> Fields
    ensures { result ≡ option_in m n }
{
    Fields {
        option_from: m,
        option_to: n,
        amount_from: 0,
        amount_to: 0,
    }
}

// The most days of a certificate of day t.
fn longest_certificate(t: u32) -> u64
    ensures { result ≡ longest_certificate t }
{
    if u64::from(t) < SHORT_CERTIFICATES_FROM {
        CERTIFICATE_DAYS
    } else {
        SHORT_CERTIFICATE_DAYS
    }
}

// The fields of a kind in an event of day t.
fn fields_of(kind: Kind, t: u32) -> Fields
    ensures { result ≡ fields_of (kind_number kind) t }
{
    match kind {
        Kind::Bill | Kind::DepositPaid | Kind::Payout => amount_to(MOST_AMOUNT),
        Kind::Payment => at_till(MOST_AMOUNT),
        Kind::ReturnedPayment => at_till(MOST_RECEIPT),
        Kind::Fee => option_in(1, 3),
        Kind::DepositAsked => amount_to(MOST_DEPOSIT),
        Kind::Certificate => amount_to(longest_certificate(t)),
        Kind::Approval => amount_to(APPROVAL_DAYS),
        Kind::Arrangement => option_in(LEAST_PARTS, MOST_PARTS),
        Kind::Reconnection => option_in(0, 1),
        Kind::DepositMoved | Kind::FinalNotice | Kind::Call | Kind::Disconnection | Kind::Closing =>
            option_in(0, 0),
    }
}

// For every kind, option and amount, unknown kinds too.
#[tactic(auto, unfolding(rules::specs::Range::in_range, rules::specs::History::within))]
fn in_range(e: Event) -> bool
    ensures { result ≡ in_range e }
{
    let Ok(kind) = Kind::try_from(e.kind) else {
        return false;
    };
    let f = fields_of(kind, e.day);
    (f.option_from..=f.option_to).contains(&e.option)
        && (f.amount_from..=f.amount_to).contains(&e.amount)
}

// 1 and 2: day t is past the last day, or before `last`, the day of the last accepted event.
pub fn check_day(last: u64, t: u64) -> Result<(), Refusal>
    ensures { result ≡ answered (day_rows last t 0) tt }
{
    Refusal::PastLastDay.when(FINAL_DAY < t)?;
    Refusal::BeforeLastEvent.when(t < last)
}

// 1 to 3: the day, then the fields. What they let pass is in range.
pub fn check_event(last: u64, e: Event) -> Result<InRange, Refusal>
    ensures { MatchResult result
        (λ posted. (posted.event ≡ e) × (day_rows last e.day (cond (not (in_range e)) 3 0) ≡ 0))
        (λ refusal. Err refusal ≡ answered (day_rows last e.day (cond (not (in_range e)) 3 0)) (tt {0})) }
{
    check_day(last, u64::from(e.day))?;
    Refusal::OutOfRange.when(!in_range(e))?;
    Ok(InRange { event: e })
}
