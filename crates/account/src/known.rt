// Memory that is known to be an account, and the parts that are read of it. Where an account is changed, that it is one is a clause: after a
// step it follows from its whole history, and not from the step, so no type could keep it. No `impl Model`: contracts speak of its words too.
ghost use Rattle.std.specs.Prelude.{◌≡◌, true, false, MatchResult};
ghost use Rattle.rules.specs.declared.refusals.Refusal.TheVariants.{NoAccount};
ghost use Rattle.receipts.specs.Receipts.{receipts_on};
ghost use Rattle.ledger.specs.Ledger.{ledger_on};
ghost use Rattle.workdays.specs.Kept.{workdays_on};
ghost use Rattle.account.specs.State.{state_on, passes as is_account, Fit};

use crate::passes;
use crate::spans::{
    ARRANGEMENT, COLLECTION, DEPOSIT, LAST, MEDICAL, RECEIPTS, WORDS, ledger_in, receipts_in,
    workdays_in,
};
use arrangement::Arrangement;
use collection::Collection;
use deposit::Deposit;
use medical::Medical;
use rules::refusals::Refusal;
use span::Part;

#[derive(Clone, Copy)]
pub struct Known<'a> {
    pub words: &'a [u64; WORDS],
    ghost fit: { Fit words.now },
}

impl<'a> Known<'a> {
    // The account that memory is, by one test of it.
    #[tactic(auto, using(crate::proofs::Exits::passed_fit))]
    pub fn of(m: &'a [u64]) -> Result<Known<'a>, Refusal>
        ensures { MatchResult result
            (λ a. (a.words.now ≡ m.now) × (is_account m.now ≡ true))
            (λ r. (is_account m.now ≡ false) × (r ≡ NoAccount)) }
    {
        if passes(m) {
            Ok(Known {
                words: m.as_array().unwrap(),
            })
        } else {
            Err(Refusal::NoAccount)
        }
    }

    // The day of the last accepted event.
    pub fn last(self) -> u64
        ensures { result ≡ (state_on self.entry.words.now).last }
    {
        self.words[LAST]
    }

    // One method for each part: a generic one would want the bounds of each span as constants beside the trait. The words get a name of their
    // own, since the check takes no part yet of an array behind a field.
    pub fn collection(self) -> Collection
        ensures { result ≡ (state_on self.entry.words.now).collection }
    {
        let m = self.words;
        Collection::load(&m[COLLECTION..DEPOSIT])
    }

    pub fn deposit(self) -> Deposit
        ensures { result ≡ (state_on self.entry.words.now).deposit }
    {
        let m = self.words;
        Deposit::load(&m[DEPOSIT..MEDICAL])
    }

    pub fn medical(self) -> Medical
        ensures { result ≡ (state_on self.entry.words.now).medical }
    {
        let m = self.words;
        Medical::load(&m[MEDICAL..ARRANGEMENT])
    }

    pub fn arrangement(self) -> Arrangement
        ensures { result ≡ (state_on self.entry.words.now).arrangement }
    {
        let m = self.words;
        Arrangement::load(&m[ARRANGEMENT..RECEIPTS])
    }

    pub(crate) fn receipts(self) -> &'a [u64; receipts::WORDS]
        ensures { receipts_on result.now ≡ (state_on self.entry.words.now).receipts }
    {
        receipts_in(self.words)
    }

    pub fn ledger(self) -> &'a [u64; ledger::WORDS]
        ensures { ledger_on result.now ≡ (state_on self.entry.words.now).ledger }
    {
        ledger_in(self.words)
    }

    pub fn workdays(self) -> &'a [u64; workdays::WORDS]
        ensures { workdays_on result.now ≡ (state_on self.entry.words.now).workdays }
    {
        workdays_in(self.words)
    }
}
