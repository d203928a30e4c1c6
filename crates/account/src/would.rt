// What would be answered to an event, with the account left alone.
ghost use Rattle.std.specs.Prelude.{◌≡◌};
ghost use Rattle.account.specs.State.{state_on};
ghost use Rattle.account.specs.Post.{receipt_at, answer_at, answer_to};

use crate::known::Known;
use crate::rows;
use rules::kinds::Kind;
use rules::{Answer, Event};

// The receipt that the event takes where it is accepted, 0 where it is no payment.
fn receipt(account: Known, e: Event) -> u64
    ensures { result ≡ receipt_at (state_on account.entry.words.now) e }
{
    let n = receipts::count(account.receipts(), e.option);
    if e.is(Kind::Payment) { n + 1 } else { 0 }
}

// In memory that is known to be an account.
fn answer(account: Known, e: Event) -> Answer
    ensures { result ≡ answer_at (state_on account.entry.words.now) e }
{
    range::check_event(account.last(), e)?;
    rows::ask(account, e)?;
    Ok(receipt(account, e))
}

// In any memory: the answer that posting the event would give.
pub fn would_answer(m: &[u64], e: Event) -> Answer
    ensures { result ≡ answer_to m.now e }
{
    answer(Known::of(m)?, e)
}
