// The questions for a day, refused with 1 or 2 as an event is; with 0 where the memory is no account.
ghost use Rattle.std.specs.Prelude.{◌≡◌, true, Err, MatchResult};
ghost use Rattle.account.specs.State.{state_on, passes};
ghost use Rattle.questions.specs.Questions.{day_refusal_by, told_on, arrears_on, in_force_on, notice_live_on, certified_on};

use account::known::Known;
use rules::refusals::Refusal;

// The account in memory m, asked for day t.
fn on_day<'a>(m: &'a [u64], t: u32) -> Result<Known<'a>, Refusal>
    ensures { MatchResult result
        (λ a. (a.words.now ≡ m.now) × (passes m.now ≡ true) × (day_refusal_by (state_on m.now) t ≡ 0))
        (λ r. Err r ≡ told_on m.now t (λ s. s.last)) }
{
    let account = Known::of(m)?;
    range::check_day(account.last(), u64::from(t))?;
    Ok(account)
}

// The arrears on day t.
pub fn arrears(m: &[u64], t: u32) -> Result<u64, Refusal>
    ensures { result ≡ arrears_on m.now t }
{
    on_day(m, t).map(|a| ledger::arrears(a.ledger(), u64::from(t)))
}

// Whether a payment arrangement is in force on day t.
pub fn in_force(m: &[u64], t: u32) -> Result<bool, Refusal>
    ensures { result ≡ in_force_on m.now t }
{
    on_day(m, t).map(|a| a.arrangement().in_force(u64::from(t)))
}

// Whether a final notice is live on day t.
pub fn notice_live(m: &[u64], t: u32) -> Result<bool, Refusal>
    ensures { result ≡ notice_live_on m.now t }
{
    on_day(m, t).map(|a| a.collection().notice_live(u64::from(t)))
}

// Whether a certificate is live on day t.
pub fn certified(m: &[u64], t: u32) -> Result<bool, Refusal>
    ensures { result ≡ certified_on m.now t }
{
    on_day(m, t).map(|a| a.medical().certified(u64::from(t)))
}
