// Where each part of an account begins: the parts lie one after another, each in a span of its own.
ghost use Rattle.std.specs.Prelude.{◌≡◌};
ghost use Rattle.receipts.specs.Receipts.{receipts_on};
ghost use Rattle.ledger.specs.Ledger.{ledger_on};
ghost use Rattle.workdays.specs.Kept.{workdays_on};
ghost use Rattle.account.specs.State.{state_on};

use arrangement::Arrangement;
use collection::Collection;
use deposit::Deposit;
use medical::Medical;
use span::Part;

// the number of the layout, by which memory of another version is told
pub const LAYOUT: usize = 0;

// the day of the last accepted event
pub const LAST: usize = 1;

pub const COLLECTION: usize = 2;

pub const DEPOSIT: usize = COLLECTION + Collection::WORDS;

pub const MEDICAL: usize = DEPOSIT + Deposit::WORDS;

pub const ARRANGEMENT: usize = MEDICAL + Medical::WORDS;

pub const RECEIPTS: usize = ARRANGEMENT + Arrangement::WORDS;

pub const LEDGER: usize = RECEIPTS + receipts::WORDS;

pub const WORKDAYS: usize = LEDGER + ledger::WORDS;

// how many words an account has
pub const WORDS: usize = WORKDAYS + workdays::WORDS;

// The number of this layout: a million and five. An account once began with a day, and no day is so large. One that is laid out otherwise,
// or was made while other events were accepted, has another number.
pub const LAYOUT_NUMBER: u64 = 1_000_005;

// The words of the three parts that are read where they lie, with their length in the type.
pub(crate) fn receipts_in(m: &[u64; WORDS]) -> &[u64; receipts::WORDS]
    ensures { receipts_on result.now ≡ (state_on m.now).receipts }
{
    m[RECEIPTS..LEDGER].as_array().unwrap()
}

pub(crate) fn ledger_in(m: &[u64; WORDS]) -> &[u64; ledger::WORDS]
    ensures { ledger_on result.now ≡ (state_on m.now).ledger }
{
    m[LEDGER..WORKDAYS].as_array().unwrap()
}

pub(crate) fn workdays_in(m: &[u64; WORDS]) -> &[u64; workdays::WORDS]
    ensures { workdays_on result.now ≡ (state_on m.now).workdays }
{
    m[WORKDAYS..WORDS].as_array().unwrap()
}
