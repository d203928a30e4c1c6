// The table of refusals as code: rows 4 to 19 and 24, of a View and an event. Only the rows that concern the event's kind are asked.
// What is public takes any View, any event and any sums. Each contract is an equation with a definition, of the rules, or of this crate for
// the rows of one kind.
#![tactic(auto)]

mod arms;

ghost use Rattle.std.specs.Prelude.{◌≡◌, min};
ghost use Rattle.basics.specs.Machine.{largest};
ghost use Rattle.std.specs.Bool.{then_some};
ghost use Rattle.rules.specs.Answer.{answered};
ghost use Rattle.rules.specs.Money.{charges};
ghost use Rattle.rules.specs.Table.{row4 as Row4, charge_of, refusal_by};
ghost use Rattle.table.specs.ByKind.{from_row5};
ghost use Rattle.table.specs.Seen.{looks_at_debt};

pub use arms::{credit_rows, item_rows};
use rules::kinds::Kind;
use rules::refusals::Refusal;
use rules::{Event, View};

// Whether the event's kind looks at arrears, or at an arrangement in force.
#[tactic(auto, unfolding(crate::specs::Seen::looks_at_debt))]
pub fn looks_at_debt(e: Event) -> bool
    ensures { result ≡ looks_at_debt e }
{
    matches!(
        Kind::try_from(e.kind),
        Ok(Kind::Arrangement | Kind::FinalNotice | Kind::Disconnection | Kind::Reconnection)
    )
}

// 4: closed; not a payment, a returned payment or a payout.
fn row4(v: View, e: Event) -> bool
    ensures { result ≡ Row4 v e }
{
    v.service.is_closed()
        && !(e.is(Kind::Payment) || e.is(Kind::ReturnedPayment) || e.is(Kind::Payout))
}

// 5 to 19 and 24, of which each kind has its own; `charge` is the amount of the item that the event makes; 0 where it makes
// none, since no row of such a kind asks for it. A certificate, an approval and a kind that is not known have no rows here.
#[tactic(auto, unfolding(crate::specs::ByKind::from_row5), using(crate::proofs::Equations::passing, crate::proofs::ByKind::of_unknown))]
fn from_row5(v: View, e: Event, charge: u64) -> Result<(), Refusal>
    requires { charge ≡ min (charge_of v e) largest }
    ensures { result ≡ answered (from_row5 v e) tt }
{
    let Ok(kind) = Kind::try_from(e.kind) else {
        return Ok(());
    };
    // A match, and no table of closures: each arm is one call, and names it.
    match kind {
        Kind::Bill | Kind::Fee => arms::item_rows(v.open_count, v.charged, charge),
        Kind::Payment => arms::credit_rows(v.credited, e.amount),
        Kind::ReturnedPayment => arms::returned_rows(v, charge),
        Kind::DepositAsked => Refusal::WrongSum.when(e.amount <= v.held),
        Kind::DepositPaid => arms::over_row(v.required, v.held, e.amount),
        Kind::DepositMoved => arms::moved_rows(v),
        Kind::Payout => arms::over_row(v.credits, v.charged, e.amount),
        Kind::Arrangement => Refusal::NothingToArrange.when(v.arrears == 0 || v.in_force),
        Kind::FinalNotice => arms::notice_rows(v, charge),
        Kind::Call => arms::service_row(v),
        Kind::Disconnection => arms::cut_rows(v),
        Kind::Reconnection => arms::reconnection_rows(v, charge),
        Kind::Closing => arms::credit_rows(v.credited, v.held),
        Kind::Certificate | Kind::Approval => Ok(()),
    }
}

// Rows 4 to 19 and 24: refused by the first that refuses the event; where none does, the amount of the item that it makes, if it makes one.
#[tactic(auto, unfolding(crate::specs::ByKind::from_row5, rules::specs::Table::refusal_by), using(amounts::proofs::Equations::item_amount))]
pub fn check(v: View, e: Event) -> Result<Option<u64>, Refusal>
    ensures { result ≡ answered (refusal_by v e) (then_some (charges e) (min (charge_of v e) largest)) }
{
    Refusal::Closed.when(row4(v, e))?;
    let item = amounts::charge(v, e);
    from_row5(v, e, item.unwrap_or(0))?;
    Ok(item)
}
