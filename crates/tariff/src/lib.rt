// Bills from the reading: the amount for a bill, worked out from a class and its kilowatt-hours, and the lines that it is made of. Each
// class has its schedule, a basic charge and a row of blocks; source document 002 has the prices. The account knows nothing of them:
// what is worked out here is posted as any bill is. budget.rt asks the other way round: how much usage a sum pays for.
#![tactic(auto)]

mod budget;
mod classes;

ghost use Rattle.std.specs.Prelude.{◌≡◌, ◌≤◌, ◌<◌, get_or, IfOk, IfErr};
ghost use Rattle.basics.specs.Machine.{largest};
ghost use Rattle.rules.specs.Refusals.{refusal_of};
ghost use Rattle.rules.specs.Limits.{most_usage};
ghost use Rattle.rules.specs.Tariff.{lines_from, energy_by, row_of, basic_of, cents_of, bill_refusal, bill_of, bill_lines, no_line};
ghost use Rattle.tariff.specs.Blocks.{start_of};
ghost use Rattle.tariff.specs.Classes.{class_number};

pub use budget::{Reading, reading_for};
use classes::Class;
use rules::limits::MOST_USAGE;
use rules::refusals::Refusal;
use rules::{Block, Line};

// How many blocks each schedule has.
const BLOCKS: usize = 3;

// What a class pays: its basic charge in cents, and its blocks.
#[derive(Clone, Copy)]
struct Schedule {
    basic_charge: u64,
    blocks: [Block; BLOCKS],
}

// The schedules of the three classes. A class with one price has it in every block. Limits stand beside prices in each, as the source
// has them.
const RESIDENTIAL: Schedule = Schedule {
    basic_charge: 1_031,
    blocks: [
        Block {
            limit: 15_000,
            price: 731,
        },
        Block {
            limit: 50_000,
            price: 731,
        },
        Block {
            limit: MOST_USAGE,
            price: 731,
        },
    ],
};

const SINGLE_PHASE: Schedule = Schedule {
    basic_charge: 1_229,
    blocks: [
        Block {
            limit: 15_000,
            price: 767,
        },
        Block {
            limit: 50_000,
            price: 767,
        },
        Block {
            limit: MOST_USAGE,
            price: 767,
        },
    ],
};

const THREE_PHASE: Schedule = Schedule {
    basic_charge: 2_218,
    blocks: [
        Block {
            limit: 15_000,
            price: 767,
        },
        Block {
            limit: 50_000,
            price: 647,
        },
        Block {
            limit: MOST_USAGE,
            price: 467,
        },
    ],
};

// What stands past the last line: every index has an answer, and C asks for the two numbers by themselves. No Default of Line: a line of
// zeros means something only here, and the definitions name it.
const NO_LINE: Line = Line { used: 0, price: 0 };

impl Schedule {
    // Where block i begins: the first at 0, each other one at the limit of the one before it.
    fn start(self, i: usize) -> u64
        requires { i < BLOCKS }
        ensures { result ≡ start_of self.blocks i }
    {
        if i == 0 { 0 } else { self.blocks[i - 1].limit }
    }

    // The line of block i: what of the usage lies in it, at its price.
    fn line(self, usage: u64, i: usize) -> Line
        requires { i < BLOCKS }
        ensures { result ≡ get_or (lines_from 0 self.blocks usage) i no_line }
    {
        let Block { limit, price } = self.blocks[i];
        Line {
            used: usage.min(limit).saturating_sub(self.start(i)),
            price,
        }
    }

    // The energy sum of a usage, in hundredths of a cent: line after line, its kilowatt-hours at its price. A loop, which wants its
    // invariant alone: as map and sum it wanted three answers by hand, that the closure may be called, that its products fit, and what
    // they come to.
    #[tactic(auto, using(crate::proofs::Rows::lines_length, crate::proofs::Rows::length_of, std::proofs::lemmas::Grind::common_steps))]
    fn energy(self, usage: u64) -> u64
        requires { energy_by self.blocks usage ≤ largest }
        ensures { result ≡ energy_by self.blocks usage }
    {
        let mut sum: u64 = 0;
        for i in 0..BLOCKS {
            let l = self.line(usage, i);
            sum += l.price * l.used;
        }
        sum
    }
}

// A class and a usage that a bill is worked out for.
#[derive(Clone, Copy)]
struct Metered {
    class: Class,
    usage: u64,
    ghost usage_in_range: { usage ≤ most_usage },
}

impl Metered {
    // Those of a class and a usage, if they are not refused.
    fn of(class: u8, usage: u64) -> Result<Metered, Refusal>
        ensures ok { IfOk result (λ m. (class_number m.class ≡ class) × (m.usage ≡ usage)) }
        ensures err { IfErr result (λ r. (r ≡ refusal_of (bill_refusal class usage)) × (0 < bill_refusal class usage)) }
    {
        match Class::try_from(class) {
            Ok(class) if usage <= MOST_USAGE => Ok(Metered { class, usage }),
            _ => Err(Refusal::NoTariff),
        }
    }

    // The schedule of its class.
    fn schedule(self) -> Schedule
        ensures basic_charge { result.basic_charge ≡ basic_of (class_number self.class) }
        ensures blocks { result.blocks ≡ row_of (class_number self.class) }
    {
        match self.class {
            Class::Residential => RESIDENTIAL,
            Class::SinglePhase => SINGLE_PHASE,
            Class::ThreePhase => THREE_PHASE,
        }
    }

    // Its cents: the basic charge, and the energy sum in whole cents, half a cent up.
    #[tactic(auto, unfolding(rules::specs::Tariff::cents_of))]
    fn cents(self) -> u64
        ensures { result ≡ cents_of (class_number self.class) self.usage }
    {
        let s = self.schedule();
        s.basic_charge + (s.energy(self.usage) + 50) / 100
    }
}

// The bill of a class and a usage: here they come as C has them, and are tested.
pub fn bill(class: u8, usage: u64) -> Result<u64, Refusal>
    ensures { result ≡ bill_of class usage }
{
    Ok(Metered::of(class, usage)?.cents())
}

// Line i of that bill, counted from 0, of a class and a usage as C has them too: a line for each block. Past the last, and where the
// bill is refused, one of no kilowatt-hours.
pub fn bill_line(class: u8, usage: u64, i: usize) -> Line
    ensures { result ≡ get_or (bill_lines class usage) i no_line }
{
    match Metered::of(class, usage) {
        Ok(m) if i < BLOCKS => m.schedule().line(usage, i),
        _ => NO_LINE,
    }
}
