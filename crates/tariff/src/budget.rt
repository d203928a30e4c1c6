// Reading for a budget: the largest usage that a sum pays for.
ghost use Rattle.std.specs.Prelude.{◌≡◌, ◌≤◌, IfOk, MatchOption};
ghost use Rattle.rules.specs.Tariff.{cents_of};
ghost use Rattle.rules.specs.Budget.{reading_of};
ghost use Rattle.tariff.specs.Classes.{class_number};
ghost use Rattle.tariff.specs.Largest.{Largest, NonePaid};

use crate::Metered;
use crate::classes::Class;
use rules::limits::MOST_USAGE;
use rules::refusals::Refusal;

// The largest usage whose bill is at most a sum, none where even usage 0 costs more; or refused.
pub type Reading = Result<Option<u64>, Refusal>;

// So many halvings leave one usage of all that there are: 2 to the power of 24 is more than 10,000,001.
const HALVINGS: u32 = 24;

// The largest usage of a class that a sum pays for, where it pays for the basic charge. A search by halves: `low` is paid for, and `high`
// and what lies above it are not. Its turns are counted, so that they are those of the logarithm of the range and no more.
fn largest_paid(class: Class, sum: u64) -> u64
    requires { cents_of (class_number class) 0 ≤ sum }
    ensures { Largest (class_number class) sum result }
{
    let mut low: u64 = 0;
    let mut high = MOST_USAGE + 1;
    for _ in 0..HALVINGS {
        let middle = Metered {
            class,
            usage: (low + high) / 2,
        };
        if middle.cents() <= sum {
            low = middle.usage;
        } else {
            high = middle.usage;
        }
    }
    low
}

// The reading for a class, as C has it, and a sum of any size: exact, so that a usage that is told is paid for, and maximal, so that no larger
// one is, and where none is told no usage at all.
pub fn reading_for(class: u8, sum: u64) -> Reading
    ensures reading { result ≡ reading_of class sum }
    ensures largest { IfOk result (λ found. MatchOption found (NonePaid class sum) (Largest class sum)) }
{
    // Usage 0 costs the basic charge.
    let basic = Metered::of(class, 0)?;
    if basic.cents() <= sum {
        Ok(Some(largest_paid(basic.class, sum)))
    } else {
        Ok(None)
    }
}
