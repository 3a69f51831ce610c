// Little-endian numbers in a slice of bytes.
#![tactic(auto)]

ghost use Rattle.std.specs.Prelude.{◌≡◌, ◌+◌, ◌<◌, ◌≤◌, get_or, length};
ghost use Rattle.lent.specs.Inner.Overwrite.{overwrite};
ghost use Rattle.bytes_le.specs.Little.{le, bytes_of};

// The number in N bytes, from place `at` on.
pub fn read<const N: usize>(s: &[u8], at: usize) -> u32
    requires { (N ≤ 4) × (at + N ≤ length s.now) }
    ensures answer { result ≡ le N s.now at }
{
    let mut number: u32 = 0;
    for k in 0..N {
        number += u32::from(s[at + k]) << (8 * k);
    }
    number
}

// Writes a number to N bytes, from place `at` on.
pub fn write<const N: usize>(out: &mut [u8], at: usize, x: u32)
    requires { (N ≤ 4) × (at + N ≤ length out.old) }
    ensures bytes { out.new ≡ overwrite at (bytes_of N x) out.old }
{
    for k in 0..N {
        out[at + k] = ((x >> (8 * k)) % 256) as u8;
    }
}
