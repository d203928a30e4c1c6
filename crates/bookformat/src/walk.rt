// Records of a book that lie one behind another, read in their order: those of one account, or of all.
#![tactic(auto)]

ghost use Rattle.std.specs.Prelude.{◌≡◌, ◌+◌, ◌*◌, ◌≤◌, length};
ghost use Rattle.std.specs.Iterator.{YieldsFirst, item_count};
ghost use Rattle.bookformat.specs.Book.{events_at};

use crate::{RECORD, event_at};
use rules::Event;
use std::marker::Model;

// The records that are left: `left` of them, the next one at byte `at`. A contract sees the list of their events.
#[derive(Drop)]
pub struct Records<'a> {
    bytes: &'a [u8],
    at: usize,
    left: usize,
}

impl<'a> Model for Records<'a> {
    ghost use Rattle.std.specs.Prelude.{List, ◌+◌, ◌*◌, ◌≤◌, length};
    ghost use Rattle.rules.specs.declared.Event.{Event};
    ghost use Rattle.bookformat.specs.Book.{events_at};

    ghost Value = { List Event };

    ghost view = { λ s. events_at s.left s.at s.bytes.now };

    ghost invariant = { λ s. s.at + 16 * s.left ≤ length s.bytes.now };
}

impl<'a> Records<'a> {
    // The n records from byte p on.
    #[tactic(auto, using(crate::proofs::Trips::length_events))]
    pub fn new(b: &'a [u8], p: usize, n: usize) -> Records<'a>
        requires { p + 16 * n ≤ length b.now }
        ensures events { result ≡ events_at n p b.now }
        ensures count { length result ≡ n }
    {
        Records {
            bytes: b,
            at: p,
            left: n,
        }
    }
}

impl<'a> Iterator for Records<'a> {
    type Item = Event;

    ghost next_gives = { YieldsFirst (λ rest. rest) };

    ghost remaining = { item_count (λ rest. rest) };

    fn next(&mut self) -> Option<Event> {
        if self.left == 0 {
            return None;
        }
        let e = event_at(self.bytes, self.at);
        self.at += RECORD;
        self.left -= 1;
        Some(e)
    }
}
