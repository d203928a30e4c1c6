// Numbers in bytes, the lowest byte first, of any width up to 8 bytes: read from a slice and stored into one. The library's
// `from_le_bytes` and `to_le_bytes` are of each type by itself, and here is one law over the width.
#![tactic(auto)]

ghost use Rattle.std.specs.Prelude.{◌≡◌, ◌+◌, ◌<◌, ◌≤◌, length};
ghost use Rattle.std.proofs.lemmas.List.Edits.{sets};
ghost use Rattle.little.specs.Little.{num, le, top};

// The number of w bytes at p.
pub fn get(b: &[u8], p: usize, w: usize) -> u64
    requires within { p + w ≤ length b.now }
    requires narrow { w ≤ 8 }
    ensures value { result ≡ num w p b.now }
    ensures small { result < top w }
{
    let mut number: u64 = 0;
    for byte in b[p..p + w].iter().rev() {
        number = u64::from(*byte) + 256 * number;
    }
    number
}

// Stores the w bytes of v from p on.
pub fn put(out: &mut [u8], p: usize, w: usize, v: u64)
    requires { p + w ≤ length out.old }
    ensures { out.new ≡ sets out.old p (le w v) }
{
    let mut rest = v;
    for byte in out[p..p + w].iter_mut() {
        *byte = (rest % 256) as u8;
        rest /= 256;
    }
}
