// Text in lent bytes: bytes copied, and numbers in decimal digits. A number or a word is stored together with the byte that
// follows it, a space or the end of the line.
//
// There is no `Display`: no contract promises that `write!` answers Ok where there is room, only what it wrote where it does.
// Nor a struct of bytes and place: each contract would also have to say that it still holds the same lent bytes.
#![tactic(auto)]

ghost use Rattle.std.specs.Prelude.{◌≡◌, [], ◌∷◌, ◌++◌, ◌+◌, ◌≤◌, length};
ghost use Rattle.std.specs.Fmt.{decimal, signed_decimal};
ghost use Rattle.std.proofs.Math.IntN.{sub_ℕ};
ghost use Rattle.text.specs.Put.{Put};

use itoa::write_digits;

// How many digits n has.
#[tactic(auto, using(crate::proofs::Numerals::width_told))]
pub fn width(n: u64) -> usize
    ensures digits { result ≡ length (decimal n) }
    ensures short { result ≤ 20 }
{
    n.checked_ilog10().unwrap_or(0) as usize + 1
}

// Stores n and the byte after it, and says where the text goes on.
#[tactic(auto, using(std::proofs::lemmas::List::length_push))]
pub fn put_number(out: &mut [u8], p: usize, n: u64, mark: u8) -> usize
    requires { p + length (decimal n ++ (mark ∷ [])) ≤ length out.old }
    ensures { Put (decimal n ++ (mark ∷ [])) out.old out.new p result }
{
    let end = p + width(n);
    write_digits(n, out, end);
    out[end] = mark;
    end + 1
}

// How many bytes a less b takes as text, its minus sign among them: for a program that measures a text before it stores it.
#[tactic(auto, using(crate::proofs::Numerals::length_difference, crate::proofs::Numerals::difference_short))]
pub fn difference_width(a: u64, b: u64) -> usize
    ensures told { result ≡ length (signed_decimal (sub_ℕ a b)) }
    ensures short { result ≤ 21 }
{
    if a < b {
        1 + width(b - a)
    } else {
        width(a - b)
    }
}

// Stores a less b, with a minus sign when negative, and the byte after it, and says where the text goes on.
pub fn put_difference(out: &mut [u8], p: usize, a: u64, b: u64, mark: u8) -> usize
    requires { p + length (signed_decimal (sub_ℕ a b) ++ (mark ∷ [])) ≤ length out.old }
    ensures { Put (signed_decimal (sub_ℕ a b) ++ (mark ∷ [])) out.old out.new p result }
{
    if a < b {
        out[p] = b'-';
        return put_number(out, p + 1, b - a, mark);
    }
    put_number(out, p, a - b, mark)
}

// Stores all of a slice from p on, and says where the text goes on.
pub fn put_bytes(out: &mut [u8], p: usize, from: &[u8]) -> usize
    requires { p + length from.now ≤ length out.old }
    ensures { Put from.now out.old out.new p result }
{
    let end = p + from.len();
    out[p..end].copy_from_slice(from);
    end
}
