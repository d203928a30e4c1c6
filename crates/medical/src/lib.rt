// Medical certificates and the superintendent's approvals, as an account keeps them: two words of its memory.
#![tactic(auto)]

ghost use Rattle.std.specs.Prelude.{◌≡◌, ◌+◌, ◌≤◌, length};
ghost use Rattle.span.proofs.Law.{whole as all_words};
ghost use Rattle.rules.specs.Limits.{certificate_days};
ghost use Rattle.medical.specs.Medical.{medical_size, medical_on, medical_words, medical_after, certified_by, approved_by, medical_ok};

use rules::kinds::Kind;
use rules::limits::{APPROVAL_DAYS, CERTIFICATE_DAYS, FINAL_DAY};
use rules::{Event, InRange};
use span::Part;

// The last day plus the longest certificate of any day, and plus the longest approval.
const LAST_CERTIFIED: u64 = FINAL_DAY + CERTIFICATE_DAYS;

const LAST_APPROVED: u64 = FINAL_DAY + APPROVAL_DAYS;

// The day past the end of the certificate that ends last, and of the approval that ends last among those posted after the
// newest certificate; 0 for none: both are words of memory, whose layout is fixed. No later day can ask for more.
#[derive(Clone, Copy)]
pub struct Medical {
    pub certified_to: u64,
    pub approved_to: u64,
}

// The day past the end of a certificate or an approval.
fn end_of(e: Event) -> u64
    requires { e.amount ≤ certificate_days }
    ensures { result ≡ e.day + e.amount }
{
    u64::from(e.day) + e.amount
}

impl Medical {
    // What it becomes when the event is accepted.
    pub fn after(self, posted: InRange) -> Medical
        ensures { result ≡ medical_after self posted.event }
    {
        let e = posted.event;
        match Kind::try_from(e.kind) {
            Ok(Kind::Certificate) => Medical {
                certified_to: self.certified_to.max(end_of(e)),
                approved_to: 0,
            },
            Ok(Kind::Approval) => Medical {
                approved_to: self.approved_to.max(end_of(e)),
                ..self
            },
            _ => self,
        }
    }

    // Whether a certificate is live on day t.
    pub fn certified(self, t: u64) -> bool
        ensures { result ≡ certified_by self t }
    {
        t < self.certified_to
    }

    // Whether an approval posted after the last certificate covers day t.
    pub fn approved(self, t: u64) -> bool
        ensures { result ≡ approved_by self t }
    {
        t < self.approved_to
    }
}

impl Part for Medical {
    ghost WORDS = { medical_size };

    ghost on = { medical_on };

    ghost words = { medical_words };

    ghost passes = { medical_ok };

    ghost whole = { all_words medical_size };

    const WORDS: usize = 2;

    fn load(w: &[u64]) -> Medical {
        let [certified_to, approved_to] = *w.as_array::<2>().unwrap();
        Medical {
            certified_to,
            approved_to,
        }
    }

    fn store(self, w: &mut [u64]) {
        w.copy_from_slice(&[self.certified_to, self.approved_to]);
    }

    // Wide enough for every end that an event in range can set.
    fn ok(self) -> bool {
        self.certified_to <= LAST_CERTIFIED && self.approved_to <= LAST_APPROVED
    }
}

// An accepted event, in place, in words that are lent as every part's (`span::Part`). The kinds are asked first, so that any other event
// neither loads nor stores the words.
pub fn step(w: &mut [u64], posted: InRange)
    requires { length w.old ≡ medical_size }
    ensures { medical_on w.new ≡ medical_after (medical_on w.old) posted.event }
{
    let e = posted.event;
    if e.is(Kind::Certificate) || e.is(Kind::Approval) {
        span::change(w, |m: Medical| m.after(posted));
    }
}
