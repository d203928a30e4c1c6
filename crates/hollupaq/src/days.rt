// What an account that a program keeps answers for a day. Below 256: the day is refused by that number, 1 or 2 as an event's is, or 0
// where the memory is no account. Else 256 and what is told is added to it.
ghost use Rattle.std.specs.Prelude.{◌≡◌};
ghost use Rattle.questions.specs.Questions.{arrears_on, in_force_on, notice_live_on, certified_on, working_days_in};
ghost use Rattle.hollupaq.specs.Library.{amount_word, truth_word, count_word};

use crate::word_of;
use rules::refusals::Refusal;

// What is answered where there is no calendar to count by.
const NO_CALENDAR: u64 = 0;

// 1 for yes, 0 for no.
fn truth_word(answer: Result<bool, Refusal>) -> u64
    ensures { result ≡ truth_word answer }
{
    word_of(answer.map(u64::from))
}

// The arrears in cents.
#[unsafe(no_mangle)]
pub extern "C" fn hollupaq_arrears(account: &[u64], day: u32) -> u64
    ensures { result ≡ amount_word (arrears_on account.now day) }
{
    word_of(questions::arrears(account, day))
}

// Whether a payment arrangement is in force.
#[unsafe(no_mangle)]
pub extern "C" fn hollupaq_in_force(account: &[u64], day: u32) -> u64
    ensures { result ≡ truth_word (in_force_on account.now day) }
{
    truth_word(questions::in_force(account, day))
}

// Whether a final notice is live.
#[unsafe(no_mangle)]
pub extern "C" fn hollupaq_notice_live(account: &[u64], day: u32) -> u64
    ensures { result ≡ truth_word (notice_live_on account.now day) }
{
    truth_word(questions::notice_live(account, day))
}

// Whether a medical certificate is live.
#[unsafe(no_mangle)]
pub extern "C" fn hollupaq_certified(account: &[u64], day: u32) -> u64
    ensures { result ≡ truth_word (certified_on account.now day) }
{
    truth_word(questions::certified(account, day))
}

// How many working days the account's calendar has after one day and up to another: 256 and the count, or 0 where it has no calendar.
#[unsafe(no_mangle)]
pub extern "C" fn hollupaq_working_days(account: &[u64], after: u32, to: u32) -> u64
    ensures { result ≡ count_word (working_days_in account.now after to) }
{
    match questions::working_days(account, after, to) {
        Some(count) => word_of(Ok(count)),
        None => NO_CALENDAR,
    }
}
