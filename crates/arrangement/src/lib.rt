// The latest payment arrangement, as an account keeps it, and what was paid and returned since: five words of its memory.
#![tactic(auto)]

ghost use Rattle.std.specs.Prelude.{◌≡◌, cond, ◌≤◌, length};
ghost use Rattle.span.proofs.Law.{whole as all_words};
ghost use Rattle.rules.specs.Kinds.{returned_payment};
ghost use Rattle.rules.specs.History.{is};
ghost use Rattle.rules.specs.Limits.{limit};
ghost use Rattle.arrangement.specs.Arrangement.{arrangement_size, arrangement_on, arrangement_words, arrangement_after, in_force_by, arrangement_ok, ArrangementFit};

use rules::InRange;
use rules::kinds::Kind;
use rules::limits::{FINAL_DAY, LIMIT, MOST_PARTS, PART_DAYS};
use span::Part;

// Where there is none, day, parts and debt are 0: these are words of memory, whose layout is fixed, and an arrangement in no parts is in
// force on no day.
#[derive(Clone, Copy)]
pub struct Arrangement {
    pub day: u64,
    pub parts: u64,
    // The arrears on its day, before it (document 01: D).
    pub debt: u64,
    pub paid: u64,
    pub returned: u64,
}

impl Arrangement {
    // What it becomes when the event is accepted. `arrears` are those before the event, on its day; `payment` is the one
    // that a returned payment names.
    pub fn after(self, posted: InRange, arrears: u64, payment: u64) -> Arrangement
        requires arrangement_fit { ArrangementFit self }
        requires payment_bound { cond (is returned_payment posted.event) payment 0 ≤ limit }
        ensures { result ≡ arrangement_after self posted.event arrears payment }
    {
        let e = posted.event;
        match Kind::try_from(e.kind) {
            Ok(Kind::Arrangement) => Arrangement {
                day: u64::from(e.day),
                parts: u64::from(e.option),
                debt: arrears,
                paid: 0,
                returned: 0,
            },
            Ok(Kind::Payment) => Arrangement {
                paid: self.paid + e.amount,
                ..self
            },
            Ok(Kind::ReturnedPayment) => Arrangement {
                returned: self.returned + payment,
                ..self
            },
            _ => self,
        }
    }

    // Whether it is in force on day t.
    pub fn in_force(self, t: u64) -> bool
        requires { ArrangementFit self }
        ensures { result ≡ in_force_by self t }
    {
        if self.day + PART_DAYS * self.parts <= t {
            return false;
        }
        let instalment = self.debt.div_ceil(self.parts);
        let fallen_due = t.saturating_sub(self.day) / PART_DAYS;
        self.debt.min(instalment * fallen_due) + self.returned <= self.paid
    }
}

impl Part for Arrangement {
    ghost WORDS = { arrangement_size };

    ghost on = { arrangement_on };

    ghost words = { arrangement_words };

    ghost passes = { arrangement_ok };

    ghost whole = { all_words arrangement_size };

    const WORDS: usize = 5;

    // The words, one after the other.
    fn load(w: &[u64]) -> Arrangement {
        let [day, parts, debt, paid, returned] = *w.as_array::<5>().unwrap();
        Arrangement {
            day,
            parts,
            debt,
            paid,
            returned,
        }
    }

    fn store(self, w: &mut [u64]) {
        w.copy_from_slice(&[self.day, self.parts, self.debt, self.paid, self.returned]);
    }

    // At most six parts, no day where there is none, and sums within the limit.
    fn ok(self) -> bool {
        self.parts <= u64::from(MOST_PARTS)
            && self.day <= FINAL_DAY * self.parts
            && self.debt <= LIMIT
            && self.paid <= LIMIT
            && self.returned <= LIMIT
    }
}

// An accepted event, in place, with the arrears and the payment as `after` takes them. That the sums fit is a clause here and there: it
// follows from the whole history, and not from the step, so that no type could keep it. Any other kind neither loads nor stores the words.
// They are lent as every part's (`span::Part`).
pub fn step(w: &mut [u64], posted: InRange, arrears: u64, payment: u64)
    requires size { length w.old ≡ arrangement_size }
    requires fit { ArrangementFit (arrangement_on w.old) }
    requires payment_bound { cond (is returned_payment posted.event) payment 0 ≤ limit }
    ensures { arrangement_on w.new ≡ arrangement_after (arrangement_on w.old) posted.event arrears payment }
{
    let e = posted.event;
    if e.is(Kind::Payment) || e.is(Kind::ReturnedPayment) || e.is(Kind::Arrangement) {
        span::change(w, |a: Arrangement| a.after(posted, arrears, payment));
    }
}
