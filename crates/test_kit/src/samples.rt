// Small profiles.
ghost use Rattle.std.specs.Prelude.{◌≡◌, ◌≤◌, length};

// Three: a chain 0, 1, 2; cycle 20; deadlines 0; 2 and 4 at level 0, 6 and 8 at level 1.
pub fn three() -> [u8; 78]
    ensures { 78 ≡ length result }
{
    *b"\x10\x64\x00\x00\x00\xa0\
\x00\x00\x00\x00\x00\x00\x00\x00\x00\x00\x00\x00\x00\x00\x02\x00\x00\x04\x00\x00\x06\x00\x00\x08\
\x00\x00\x00\x00\x00\x00\x00\x01\x00\x00\x00\x00\x00\x00\x02\x00\x00\x04\x00\x00\x06\x00\x00\x08\
\x00\x00\x00\x00\x00\x00\x00\x02\x00\x00\x00\x00\x00\x00\x02\x00\x00\x04\x00\x00\x06\x00\x00\x08"
}

// Near: Three, but for an average of 3 at level 1 of action 0.
pub fn near() -> [u8; 78]
    ensures { 78 ≡ length result }
{
    let mut image = three();
    image[26] = 3;
    image
}

// One: one action at one level; cycle 1; deadline 0; both times 0.
pub fn one() -> [u8; 24]
    ensures { 24 ≡ length result }
{
    *b"\x10\x22\x00\x00\x00\x08\
\x00\x00\x00\x00\x00\x00\x00\x00\x00\x00\x00\x00\x00\x00\x00\x00\x00\x00"
}

// Long: one action at one level; cycle 1,073,741,823; deadline 0; average 16,777,214 and worst 16,777,215.
pub fn long() -> [u8; 24]
    ensures { 24 ≡ length result }
{
    *b"\x10\x23\xff\xff\xff\xf8\
\x00\x00\x00\x00\x00\x00\x00\x00\x00\x00\x00\x00\xff\xff\xfe\xff\xff\xff"
}

// One, so changed that it is refused with the number that a digit says, 2, 3 or 5 to 9.
pub fn damaged(digit: u8) -> [u8; 24]
    ensures { 24 ≡ length result }
{
    let mut image = one();
    match digit {
        b'2' => image[0] = 0x20,
        b'3' => image[5] = 0,
        b'5' => image[5] = 9,
        b'6' => image[17] = 8,
        b'7' => image[20] = 1,
        b'8' => image[13] = 1,
        b'9' => image[23] = 2,
        _ => {}
    }
    image
}

// How many of its bytes are to be taken; for 1 and 4 there are too few.
pub fn damaged_bytes(digit: u8) -> usize
    ensures { result ≤ 24 }
{
    match digit {
        b'1' => 5,
        b'4' => 23,
        _ => 24,
    }
}
