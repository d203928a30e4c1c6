// The amounts that an event moves, of a View and the event alone: its charge, its credit; in `fees` the fees by number and
// the late charge. Every function is total, and its contract is an equation with the rules' definition.
#![tactic(auto)]

mod fees;

ghost use Rattle.std.specs.Prelude.{◌≡◌, min};
ghost use Rattle.std.specs.Bool.{then_some};
ghost use Rattle.basics.specs.Machine.{largest};
ghost use Rattle.rules.specs.Money.{charges as makes_item};
ghost use Rattle.rules.specs.Table.{charge_of, credit_of};

use fees::fee_number;
pub use fees::{fee, late_charge};
use rules::kinds::Kind;
use rules::{Event, View};

// The amount of the item that the event makes, if it makes one; the largest number where the amount is more. `account::ways::amount_of` says
// why it works out the same of fewer words.
pub fn charge(v: View, e: Event) -> Option<u64>
    ensures { result ≡ then_some (makes_item e) (min (charge_of v e) largest) }
{
    match Kind::try_from(e.kind) {
        Ok(Kind::Bill) => {
            let late = late_charge(v.charged.saturating_sub(v.credits));
            Some(e.amount.saturating_add(late))
        }
        Ok(Kind::ReturnedPayment) => Some(v.payment.saturating_add(fee(fee_number(e)))),
        Ok(Kind::Fee | Kind::FinalNotice | Kind::Reconnection) => Some(fee(fee_number(e))),
        _ => None,
    }
}

// What the event credits: a payment, or the deposit held where it moves it, which may be 0 too.
pub fn credit(v: View, e: Event) -> u64
    ensures { result ≡ credit_of v e }
{
    if e.is(Kind::Payment) {
        e.amount
    } else if e.moves_deposit() {
        v.held
    } else {
        0
    }
}
