// Numbers and lines put into a lent buffer. `at` counts the bytes that are written already; each function writes after them and answers the
// new count. What does not fit is left out.
ghost use Rattle.std.specs.Prelude.{◌%◌, [], ◌∷◌};
ghost use Rattle.io.specs.Counts.{IsPrefixLen};
ghost use Rattle.text.specs.Digits.{digit, decimal, signed};
ghost use Rattle.text.specs.Put.{Puts};

pub fn put_byte(out: &mut [u8], at: usize, b: u8) -> usize
    requires { IsPrefixLen at out.old }
    ensures { Puts out.old at (b ∷ []) out.new result }
{
    if at < out.len() {
        out[at] = b;
        return at + 1;
    }
    at
}

pub fn put_bytes(out: &mut [u8], at: usize, from: &[u8]) -> usize
    requires { IsPrefixLen at out.old }
    ensures { Puts out.old at from.now out.new result }
{
    let mut to = at;
    for b in from {
        to = put_byte(&mut *out, to, *b);
    }
    to
}

// The last decimal digit of a number.
pub fn put_digit(out: &mut [u8], at: usize, n: usize) -> usize
    requires { IsPrefixLen at out.old }
    ensures { Puts out.old at (digit (n % 10) ∷ []) out.new result }
{
    put_byte(out, at, b'0' + (n % 10) as u8)
}

// A number of up to 64 bits.
pub fn put_long(out: &mut [u8], at: usize, n: u64) -> usize
    requires { IsPrefixLen at out.old }
    ensures { Puts out.old at (decimal n) out.new result }
{
    let mut digits = [0u8; 20];
    let k = io::decimal(n, &mut digits);
    put_bytes(out, at, &digits[..k])
}

pub fn put_number(out: &mut [u8], at: usize, n: u32) -> usize
    requires { IsPrefixLen at out.old }
    ensures { Puts out.old at (decimal n) out.new result }
{
    put_long(out, at, u64::from(n))
}

// A number of up to 64 bits that may be negative.
pub fn put_signed_long(out: &mut [u8], at: usize, z: i64) -> usize
    requires { IsPrefixLen at out.old }
    ensures { Puts out.old at (signed z) out.new result }
{
    let size = z.unsigned_abs();
    if 0 <= z {
        return put_long(out, at, size);
    }
    let next = put_byte(&mut *out, at, b'-');
    put_long(out, next, size)
}

pub fn put_signed(out: &mut [u8], at: usize, z: i32) -> usize
    requires { IsPrefixLen at out.old }
    ensures { Puts out.old at (signed z) out.new result }
{
    put_signed_long(out, at, i64::from(z))
}
