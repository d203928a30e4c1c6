// The same date one year later, by a count of days: how many days a year has that begins on some day, without walking the calendar.
#![tactic(auto)]

ghost use Rattle.std.specs.Prelude.{◌≡◌};
ghost use Rattle.rules.specs.Dates.{year_later};

// 31 December 2198, the last day whose date comes again.
const LAST_TO_RETURN: u64 = 72_683;

// From 1 March of a year after a 29 February, four years are 1,461 days, of which the last is the next 29 February, and three are 1,095.
const FOUR_YEARS: u64 = 1_461;

const THREE_YEARS: u64 = 1_095;

// The days from such a 1 March, that of 1996, to day 0.
const SINCE_1996: u64 = 1_401;

// 1 March 2099 and 1 March 2100, between which four years end without a 29 February.
const MARCH_2099: u64 = 36_219;

const MARCH_2100: u64 = 36_584;

// The day of the same date one year later, 1 March for a 29 February; none where it lies after 31 December 2199. A year that begins in the
// fourth of the four years passes the 29 February at their end. From March 2100 on the count is a day ahead, as that year had none.
#[tactic(auto, using(crate::proofs::Law::later_on, crate::proofs::Law::later_never))]
pub fn year_later(day: u64) -> Option<u64>
    ensures { result ≡ year_later day }
{
    if LAST_TO_RETURN < day {
        return None;
    }
    let ahead = if day < MARCH_2100 { 0 } else { 1 };
    let place = (day + SINCE_1996 + ahead) % FOUR_YEARS;
    let passes = THREE_YEARS <= place && (day < MARCH_2099 || MARCH_2100 <= day);
    Some(day + if passes { 366 } else { 365 })
}
