// An account by `&mut`, as a value that a caller keeps: `account::post` judges the event in its memory, so that no rule stands here and
// nothing is copied.
#![tactic(auto)]

ghost use Rattle.lent.specs.Left.{LeavesLent};

use account::Account;
use rules::{Answer, Event};

// One event posted. A refused one leaves the account as it was.
pub fn post_lent(a: &mut Account, e: Event) -> Answer
    ensures { LeavesLent a.old e result a.new }
{
    account::post(&mut a.memory, e)
}

#[cfg(test)]
mod tests {
    use super::*;
    use rules::Calendar;
    use rules::kinds::Kind;
    use rules::refusals::Refusal;

    fn event(kind: Kind, day: u32, amount: u64) -> Event {
        Event {
            kind: kind.number(),
            option: 0,
            day,
            amount,
        }
    }

    // Document 01's worked example, run by value and lent: no program of this repository posts by value.
    #[test]
    fn both_forms_answer_the_worked_example(rt: HostRuntime) {
        let mut kept = Account::fresh();
        let mut lent = Account::fresh();
        for (e, wanted) in [
            (event(Kind::Bill, 100, 10_000), Ok(0)),
            (event(Kind::Bill, 130, 5_000), Ok(0)),
            (event(Kind::Payment, 131, 4_000), Ok(1)),
            (event(Kind::Disconnection, 131, 0), Err(Refusal::NoNotice)),
        ] {
            let posted = kept.post(e);
            kept = posted.account;
            assert_eq!(rt; posted.answer, wanted);
            assert_eq!(rt; post_lent(&mut lent, e), wanted);
        }
        assert_eq!(rt; questions::owed(&kept.memory), 11_075);
        assert_eq!(rt; questions::owed(&lent.memory), 11_075);
    }

    // With a calendar from day 21 on, of which every day is a working day: a notice of day 20 is outside it.
    #[test]
    fn both_forms_begin_with_a_calendar(rt: HostRuntime) {
        let calendar = Calendar {
            first: 21,
            bits: [u64::MAX; 32],
        };
        let mut kept = Account::begin(calendar);
        let mut lent = Account::begin(calendar);
        for (e, wanted) in [
            (event(Kind::Bill, 0, 6_000), Ok(0)),
            (
                event(Kind::FinalNotice, 20, 0),
                Err(Refusal::OutsideCalendar),
            ),
            (event(Kind::FinalNotice, 21, 0), Ok(0)),
            (event(Kind::Call, 24, 0), Ok(0)),
            (event(Kind::Disconnection, 25, 0), Err(Refusal::NoNotice)),
            (event(Kind::Disconnection, 26, 0), Ok(0)),
        ] {
            let posted = kept.post(e);
            kept = posted.account;
            assert_eq!(rt; posted.answer, wanted);
            assert_eq!(rt; post_lent(&mut lent, e), wanted);
        }
        assert_eq!(rt; questions::working_days(&kept.memory, 21, 26), Some(5));
        assert_eq!(rt; questions::working_days(&lent.memory, 21, 26), Some(5));
    }
}
