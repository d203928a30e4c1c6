// The line of an account: its words, stored one behind the other.
ghost use Rattle.std.specs.Prelude.{[], ◌∷◌, ◌++◌, ◌+◌, ◌≤◌, length};
ghost use Rattle.rules.specs.Service.{word_of};
ghost use Rattle.text.specs.Put.{Put};
ghost use Rattle.report.specs.Standing.{standing_line};

use crate::Standing;
use rules::Service;
use text::{put_bytes, put_difference, put_number};

// Stores the word of the service and a space. It has no `Display` (`text` says why).
fn put_word(out: &mut [u8], p: usize, s: Service) -> usize
    requires { p + length (word_of s ++ (32 ∷ [])) ≤ length out.old }
    ensures { Put (word_of s ++ (32 ∷ [])) out.old out.new p result }
{
    let word: &[u8] = match s {
        Service::On => b"on ",
        Service::Off => b"off ",
        Service::Closed => b"closed ",
    };
    put_bytes(out, p, word)
}

// Stores the line of account i, and says where the text goes on.
#[tactic(auto, unfolding(crate::specs::Standing::standing_line))]
pub fn put_line(out: &mut [u8], p: usize, i: u64, s: Standing) -> usize
    requires { p + length (standing_line i s) ≤ length out.old }
    ensures { Put (standing_line i s) out.old out.new p result }
{
    let owed_at = put_number(out, p, i, b' ');
    let held_at = put_difference(out, owed_at, s.charged, s.credits, b' ');
    let open_at = put_number(out, held_at, s.held, b' ');
    let word_at = put_number(out, open_at, s.open_count, b' ');
    let refused_at = put_word(out, word_at, s.service);
    put_number(out, refused_at, s.refused, b'\n')
}
