// The fees, as one table by number, and the late charge.
ghost use Rattle.std.specs.Prelude.{◌≡◌};
ghost use Rattle.rules.specs.Fees.{fee_of, fee_number};
ghost use Rattle.rules.specs.Money.{late_charge};

use rules::Event;
use rules::kinds::Kind;

// By number, 1 to 7: connection after hours, tampering, meter test, final notice, returned check, reconnection in
// hours, reconnection after hours.
const FEES: [u64; 7] = [7_500, 15_000, 3_000, 1_500, 2_500, 2_000, 7_500];

// The fees that a kind brings of itself. A fee is a number, as the option of an event names it: an enum would list seven names and seven
// numbers beside the seven amounts.
const NOTICE_FEE: u64 = 4;

const RETURNED_CHECK: u64 = 5;

// in hours; after hours the next
const RECONNECTION: u64 = 6;

// The fee of a number, 0 where there is none of that number: a charge adds it, and where there is no fee it adds nothing. A match, since
// checked_sub, get and copied in a row would be no plainer.
pub fn fee(n: u64) -> u64
    ensures { result ≡ fee_of n }
{
    match n {
        1..=7 => FEES[(n - 1) as usize],
        _ => 0,
    }
}

// The number of the fee that an event brings, 0 for none: the numbers begin at 1, and `fee` answers every one.
pub fn fee_number(e: Event) -> u64
    ensures { result ≡ fee_number e }
{
    match Kind::try_from(e.kind) {
        Ok(Kind::Fee) => u64::from(e.option),
        Ok(Kind::FinalNotice) => NOTICE_FEE,
        Ok(Kind::ReturnedPayment) => RETURNED_CHECK,
        Ok(Kind::Reconnection) => RECONNECTION + u64::from(e.option),
        _ => 0,
    }
}

// Three quarters of one per cent of what is owed, as the fee page puts it: times 3, then a quarter, then a hundredth, fractions
// dropped at both divisions. Three times a u64 may be more than one holds, a quarter of that never is.
pub fn late_charge(owed: u64) -> u64
    ensures { result ≡ late_charge owed }
{
    let three_times = 3 * u128::from(owed);
    let quarter = (three_times / 4) as u64;
    quarter / 100
}
