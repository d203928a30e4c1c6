// The bill of a reading, and the reading for a budget, in plain numbers: the class, the usage and the sum too, as C has them.
ghost use Rattle.std.specs.Prelude.{◌≡◌, get_or};
ghost use Rattle.rules.specs.Tariff.{cents_of, bill_refusal, bill_lines, no_line};
ghost use Rattle.rules.specs.Budget.{reading_of};
ghost use Rattle.hollupaq.specs.Library.{told, reading_word};

use crate::word_of;

// What is answered where a sum pays for nothing: below what tells a usage, and a number that refuses no reading.
const TOO_LITTLE: u64 = 0;

// The cents of the bill of a class and a usage. Below 256: refused by that number.
#[unsafe(no_mangle)]
pub extern "C" fn hollupaq_bill(class: u8, usage: u64) -> u64
    ensures { result ≡ told (bill_refusal class usage) (cents_of class usage) }
{
    word_of(tariff::bill(class, usage))
}

// The kilowatt-hours of line i of that bill, from 0; 0 past the last, and where the bill is refused.
#[unsafe(no_mangle)]
pub extern "C" fn hollupaq_bill_used(class: u8, usage: u64, i: usize) -> u64
    ensures { result ≡ (get_or (bill_lines class usage) i no_line).used }
{
    tariff::bill_line(class, usage, i).used
}

// The price of each of them, in hundredths of a cent; 0 as well then.
#[unsafe(no_mangle)]
pub extern "C" fn hollupaq_bill_price(class: u8, usage: u64, i: usize) -> u64
    ensures { result ≡ (get_or (bill_lines class usage) i no_line).price }
{
    tariff::bill_line(class, usage, i).price
}

// The largest usage of a class that a sum pays for: 256 and its kilowatt-hours, or 0 where even usage 0 costs more. Else below 256: the
// class is refused by that number.
#[unsafe(no_mangle)]
pub extern "C" fn hollupaq_reading(class: u8, sum: u64) -> u64
    ensures { result ≡ reading_word (reading_of class sum) }
{
    match tariff::reading_for(class, sum) {
        Ok(Some(usage)) => word_of(Ok(usage)),
        Ok(None) => TOO_LITTLE,
        Err(refusal) => word_of(Err(refusal)),
    }
}
