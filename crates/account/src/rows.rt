// Rows 4 to 19 and 24 of the table, asked about an event in memory that is known to be an account, which is left alone.
ghost use Rattle.std.specs.Prelude.{◌≡◌};
ghost use Rattle.rules.specs.Answer.{answered};
ghost use Rattle.rules.specs.Table.{refusal_by};
ghost use Rattle.account.specs.State.{state_on, view};
ghost use Rattle.account.specs.Looks.{offer_of};

use crate::known::Known;
use crate::look;
use rules::refusals::Refusal;
use rules::{Event, View};

// An event that they do not refuse: what they looked at, and the amount of the item that it makes, if it makes one.
#[derive(Clone, Copy)]
pub struct Offer {
    pub view: View,
    pub item: Option<u64>,
}

// What they look at is read only where rows 1 to 3 let the event pass: these are asked before.
pub fn ask(account: Known, e: Event) -> Result<Offer, Refusal>
    ensures { let s = state_on account.entry.words.now in result ≡ answered (refusal_by (view s e) e) (offer_of s e) }
{
    let view = look::seen(account, e);
    let item = table::check(view, e)?;
    Ok(Offer { view, item })
}
