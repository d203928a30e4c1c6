// Account i of many that lie one after another in one memory: the others stay as they are. Its place is worked out: tried with
// `chunks_exact_mut(WORDS).nth(i)`, which leaves open what all of the memory is afterwards.
ghost use Rattle.account.specs.Many.{LeavesAt};

use crate::{WORDS, post};
use rules::refusals::Refusal;
use rules::{Answer, Event};

pub fn post_at(all: &mut [u64], i: usize, e: Event) -> Answer
    ensures { LeavesAt i all.old e result all.new }
{
    let n = all.len() / WORDS;
    if i < n {
        let at = i * WORDS;
        let end = at + WORDS;
        post(&mut all[at..end], e)
    } else {
        Err(Refusal::NoAccount)
    }
}
