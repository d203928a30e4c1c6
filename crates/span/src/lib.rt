// Memory in spans of words: what a store in one span does to the others is a law on lists (proofs/Law.antt). Here is what a part of an
// account is.
#![tactic(auto)]

ghost use Rattle.std.specs.Prelude.{◌≡◌, ℕ, Bool, List, length};

// What an account keeps in a span of its own: a value that is read from the words, changed, and written back. The words are lent
// as a slice with a clause on its length: what memory is after a piece of it was lent on as an array is left open by the check.
pub trait Part: Copy {
    // how many words it has
    ghost WORDS: { ℕ };

    // the value that they hold
    ghost on: { List ℕ → Self };

    // the words that hold it
    ghost words: { Self → List ℕ };

    // its test
    ghost passes: { Self → Bool };

    const WORDS: usize;

    fn load(w: &[u64]) -> Self
        requires { length w.now ≡ WORDS }
        ensures { result ≡ on w.now };

    fn store(self, w: &mut [u64])
        requires { length w.old ≡ WORDS }
        ensures { on w.new ≡ self };

    fn ok(self) -> bool
        ensures { result ≡ passes self };

    // They are all of it: equal parts are equal memory.
    ghost whole: { (w : List ℕ) → length w ≡ WORDS → w ≡ words (on w) };
}

// The step of a part: which events concern it, and what they change, is all that a part says of its own.
pub fn change<P: Part, F: FnOnce(P) -> P>(w: &mut [u64], f: F)
    requires words { length w.old ≡ P.WORDS }
    requires callable { F.pre f (P.on w.old) }
    ensures { F.post f (P.on w.old) (P.on w.new) }
{
    let before = P::load(w);
    f(before).store(w);
}
