// Words and bytes that a caller lends: how many there are, and what is put into them.
#![tactic(auto)]

ghost use Rattle.std.specs.Prelude.{◌≡◌, ◌+◌, ◌≤◌, length};
ghost use Rattle.lent.specs.Lent.{or_else, words_refusal, short_scratch};
ghost use Rattle.lent.specs.Inner.Overwrite.{overwrite};

// The first of two refusals that is not 0.
pub fn or_else(first: u32, second: u32) -> u32
    ensures answer { result ≡ or_else first second }
{
    if first != 0 {
        return first;
    }
    second
}

// Refusal 14: fewer words than a call needs.
pub fn words_refusal(lent: usize, needed: usize) -> u32
    ensures answer { result ≡ words_refusal lent needed }
{
    if lent < needed {
        return 14;
    }
    0
}

// Refusal 15: fewer words of scratch than a call needs.
pub fn short_scratch(scratch: usize, needed: usize) -> u32
    ensures answer { result ≡ short_scratch scratch needed }
{
    if scratch < needed {
        return 15;
    }
    0
}

// Copies words into as many. Not by `copy_from_slice`, which is a call of `memmove` once it is compiled: the archive for C would need that name.
pub fn copy(from: &[u32], to: &mut [u32])
    requires { length to.old ≡ length from.now }
    ensures words { to.new ≡ from.now }
{
    for (w, word) in from.iter().enumerate() {
        to[w] = *word;
    }
}

// Copies bytes to those from place `at` on, one by one for the same reason.
pub fn copy_bytes(from: &[u8], to: &mut [u8], at: usize)
    requires { at + length from.now ≤ length to.old }
    ensures bytes { to.new ≡ overwrite at from.now to.old }
{
    for (k, byte) in from.iter().enumerate() {
        to[at + k] = *byte;
    }
}
