// The rows of one kind, or of a few, asked in the order of the table: refused by the first that refuses.
ghost use Rattle.std.specs.Prelude.{◌≡◌, cond, not, ◌-◌, ltb};
ghost use Rattle.rules.specs.Answer.{answered};
ghost use Rattle.rules.specs.Service.{is_on};
ghost use Rattle.table.specs.ByKind.{item_rows, credit_rows, returned_rows, moved_rows, collection_rows, notice_rows, cut_rows, reconnection_rows};

use rules::View;
use rules::limits::{ENOUGH, LIMIT, MOST_OPEN};
use rules::refusals::Refusal;

// 18, 19: the places of open items are taken; the charges would pass the limit. A sum past the largest number counts as that.
pub fn item_rows(places: u64, charged: u64, charge: u64) -> Result<(), Refusal>
    ensures { result ≡ answered (item_rows places charged charge) tt }
{
    Refusal::TooManyOpen.when(MOST_OPEN <= places)?;
    Refusal::PastLimit.when(LIMIT < charged.saturating_add(charge))
}

// 19: payments plus deposits moved would pass the limit.
pub fn credit_rows(credited: u64, credit: u64) -> Result<(), Refusal>
    ensures { result ≡ answered (credit_rows credited credit) tt }
{
    Refusal::PastLimit.when(LIMIT < credited.saturating_add(credit))
}

// 7, of a payout and of a deposit paid: the amount is more than a less b.
pub fn over_row(a: u64, b: u64, amount: u64) -> Result<(), Refusal>
    ensures { result ≡ answered (cond (ltb (a - b) amount) 7 0) tt }
{
    Refusal::WrongSum.when(a.saturating_sub(b) < amount)
}

// 6: the receipt is not known, or was returned; then 18 and 19.
pub fn returned_rows(v: View, charge: u64) -> Result<(), Refusal>
    ensures { result ≡ answered (returned_rows v charge) tt }
{
    Refusal::NoPayment.when(v.payment == 0)?;
    item_rows(v.open_count, v.charged, charge)
}

// 7: the deposit is not full, or none is required; 8: it is not earned; then 19.
pub fn moved_rows(v: View) -> Result<(), Refusal>
    ensures { result ≡ answered (moved_rows v) tt }
{
    Refusal::WrongSum.when(v.required == 0 || v.held != v.required)?;
    Refusal::NotEarned.when(!v.earned)?;
    credit_rows(v.credited, v.held)
}

// 5, of a call, a final notice and a disconnection: the service is not on.
pub fn service_row(v: View) -> Result<(), Refusal>
    ensures { result ≡ answered (cond (not (is_on v.service)) 5 0) tt }
{
    Refusal::WrongService.when(!v.service.is_on())
}

// 5: not on; 24: the day is not in the calendar; 10: the arrears are too low.
fn collection_rows(v: View) -> Result<(), Refusal>
    ensures { result ≡ answered (collection_rows v 0) tt }
{
    service_row(v)?;
    Refusal::OutsideCalendar.when(!v.in_calendar)?;
    Refusal::LowArrears.when(v.arrears < ENOUGH)
}

// 5, 24 and 10; 11: a notice is live; then 18 and 19.
pub fn notice_rows(v: View, charge: u64) -> Result<(), Refusal>
    ensures { result ≡ answered (notice_rows v charge) tt }
{
    collection_rows(v)?;
    Refusal::NoticeLive.when(v.notice_live)?;
    item_rows(v.open_count, v.charged, charge)
}

// 5, 24 and 10; 12: no live notice in its days; 13: no call in its days; 14: an arrangement is in force; 15: a certificate that
// no approval covers.
pub fn cut_rows(v: View) -> Result<(), Refusal>
    ensures { result ≡ answered (cut_rows v) tt }
{
    collection_rows(v)?;
    Refusal::NoNotice.when(!v.notice_in_days)?;
    Refusal::NoCall.when(!v.called)?;
    Refusal::Arranged.when(v.in_force)?;
    Refusal::Certified.when(v.certified && !v.approved)
}

// 5: not off; 16: arrears, and no arrangement in force; 17: less held than required; then 18 and 19.
pub fn reconnection_rows(v: View, charge: u64) -> Result<(), Refusal>
    ensures { result ≡ answered (reconnection_rows v charge) tt }
{
    Refusal::WrongService.when(!v.service.is_off())?;
    Refusal::InArrears.when(0 < v.arrears && !v.in_force)?;
    Refusal::DepositShort.when(v.held < v.required)?;
    item_rows(v.open_count, v.charged, charge)
}
