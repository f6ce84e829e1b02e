// Big-endian numbers of a slice of bytes, read and written; bytes copied.
#![tactic(auto)]

ghost use Rattle.std.specs.Prelude.{◌≡◌, ◌+◌, ◌≤◌, ◌<◌, ◌^◌, length, get_or};
ghost use Rattle.rules.specs.Words.{tab};
ghost use Rattle.rules.specs.Image.{be, bytes};
ghost use Rattle.fields.specs.Fields.{splice};

// The number that the W bytes from `at` say.
pub fn big_endian<const W: usize>(s: &[u8], at: usize) -> u64
    requires { (W ≤ 8) × (at + W ≤ length s.now) }
    ensures { (result ≡ be s.now at W) × (result < 256 ^ W) }
{
    let mut n: u64 = 0;
    for x in &s[at..at + W] {
        n = n * 256 + u64::from(*x);
    }
    n
}

// The same of three and of four bytes, as the narrower number that it is.
pub fn be24(s: &[u8], at: usize) -> u32
    requires { at + 3 ≤ length s.now }
    ensures { (result ≡ be s.now at 3) × (result < 2 ^ 24) }
{
    big_endian::<3>(s, at) as u32
}

pub fn be32(s: &[u8], at: usize) -> u32
    requires { at + 4 ≤ length s.now }
    ensures { (result ≡ be s.now at 4) × (result < 2 ^ 32) }
{
    big_endian::<4>(s, at) as u32
}

// Writes v in `w` bytes from `at`, the last byte first.
pub fn put_be(out: &mut [u8], at: usize, v: u64, w: usize)
    requires { at + w ≤ length out.old }
    ensures { out.new ≡ splice out.old at (bytes w v) }
{
    let mut rest = v;
    for j in (0..w).rev() {
        out[at + j] = (rest % 256) as u8;
        rest = rest / 256;
    }
}

// Copies the first n bytes.
pub fn copy_front(from: &[u8], n: usize, out: &mut [u8])
    requires { (n ≤ length from.now) × (n ≤ length out.old) }
    ensures { out.new ≡ splice out.old 0 (tab (λ k. get_or from.now k 0) n) }
{
    out[..n].copy_from_slice(&from[..n]);
}
