// The paper's limits, each by one name; specs/Limits.antt has the same names.

// The last day, 31 December 2199.
pub const FINAL_DAY: u64 = 73_048;

// The most that the charges, or payments plus deposits moved, may come to.
pub const LIMIT: u64 = 1_000_000_000_000;

// The most items that may be open.
pub const MOST_OPEN: u64 = 64;

// Arrears under this bar a final notice and a disconnection, and make a notice lapse.
pub const ENOUGH: u64 = 5_000;

// The largest amount A, the largest sum that may be asked as a deposit, and the largest receipt that an event can name.
pub const MOST_AMOUNT: u64 = 10_000_000_000;

pub const MOST_DEPOSIT: u64 = 100_000_000;

pub const MOST_RECEIPT: u64 = u64::MAX;

// Tills are numbered from 0 to this one, and so many of each till's newest payments are known by their receipts.
pub const LAST_TILL: u8 = 4;

pub const KNOWN_RECEIPTS: u64 = 16;

// An item is delinquent from so many days after its own.
pub const GRACE: u64 = 20;

// A disconnection wants a notice that has waited so many days, or with a calendar so many working days; and a notice is live for so
// many days after its own.
pub const NOTICE_FROM: u64 = 5;

pub const NOTICE_TO: u64 = 20;

// A calendar has so many days, and as many bits in words of 64.
pub const CALENDAR_DAYS: u64 = 2_048;

pub const CALENDAR_WORDS: usize = 32;

// A call counts on so many days after its own.
pub const CALL_DAYS: u64 = 3;

// A deposit's notices and disconnections are looked for in so many days, in a leap year too.
pub const CONDUCT_DAYS: u64 = 365;

// The longest certificate, in days, and the longest since they are shorter.
pub const CERTIFICATE_DAYS: u64 = 180;

pub const SHORT_CERTIFICATE_DAYS: u64 = 90;

// 1 January 2026, the first day of shorter certificates.
pub const SHORT_CERTIFICATES_FROM: u64 = 9_497;

// The longest approval, in days.
pub const APPROVAL_DAYS: u64 = 30;

// An arrangement's parts, at least and at most, and the days of each.
pub const LEAST_PARTS: u8 = 2;

pub const MOST_PARTS: u8 = 6;

pub const PART_DAYS: u64 = 30;

// A bill is worked out for at most so many kilowatt-hours.
pub const MOST_USAGE: u64 = 10_000_000;
