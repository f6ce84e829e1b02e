// Lines of words, as files of outside values have them: a line ends in a newline, one space stands between two words.
ghost use Rattle.std.specs.Prelude.{◌≤◌, ◌<◌, ◌≡◌, ◌+◌, IfSome, length, drop};
ghost use Rattle.io.specs.Counts.{IsPrefixLen};
ghost use Rattle.text.specs.Words.{from_first, after_first, from_word, digits_say, capped, only_digits, whole_number, is_number};

// Where the byte stands first, from index `from` on; the length where it does not.
pub fn find(text: &[u8], from: usize, byte: u8) -> usize
    requires { from ≤ length text.now }
    ensures lower_bound { (from ≤ result) × (result ≤ length text.now) }
    ensures text_value { drop result text.now ≡ from_first byte (drop from text.now) }
{
    match text[from..].iter().position(|b| *b == byte) {
        Some(k) => from + k,
        None => text.len(),
    }
}

// The index after that; the length where it stands nowhere.
pub fn next(text: &[u8], from: usize, byte: u8) -> usize
    requires { from ≤ length text.now }
    ensures upper_bound { (result ≤ length text.now) × (from < length text.now → from < result) }
    ensures text_value { drop result text.now ≡ after_first byte (drop from text.now) }
{
    let at = find(text, from, byte);
    if at < text.len() {
        return at + 1;
    }
    at
}

// Where word k of a line starts, counted from 0; the length where it has no more.
pub fn word(line: &[u8], k: usize) -> usize
    ensures upper_bound { result ≤ length line.now }
    ensures line_value { drop result line.now ≡ from_word k line.now }
{
    let mut at = 0;
    for _word in 0..k {
        at = next(line, at, b' ');
    }
    at
}

// Word k as a decimal number, read up to the first byte that is no digit: 0 where it begins with none. A value that is too large for 32 bits
// counts as the largest one that is not.
pub fn number(line: &[u8], k: usize) -> u32
    ensures { result ≡ capped (digits_say 0 (from_word k line.now)) }
{
    let mut value: u32 = 0;
    for at in word(line, k)..line.len() {
        let b = line[at];
        if !b.is_ascii_digit() {
            return value;
        }
        value = value.saturating_mul(10).saturating_add(u32::from(b - b'0'));
    }
    value
}

fn only_digits(text: &[u8]) -> bool
    ensures { result ≡ only_digits text.now }
{
    text.iter().all(|b| b.is_ascii_digit())
}

// The decimal number that all of a text says: 0 where it has any byte that is no digit, or none.
pub fn whole_number(text: &[u8]) -> u32
    ensures { result ≡ whole_number text.now }
{
    if only_digits(text) {
        number(text, 0)
    } else {
        0
    }
}

// Whether it is one, so that a text that is none is told from the number 0.
pub fn is_number(text: &[u8]) -> bool
    ensures { result ≡ is_number text.now }
{
    !text.is_empty() && only_digits(text)
}

// The value of a hexadecimal digit in lower case.
fn hex_digit(b: u8) -> Option<u8>
    ensures { IfSome result (λ d. d < 16) }
{
    match b {
        b'0'..=b'9' => Some(b - b'0'),
        b'a'..=b'f' => Some(b - b'a' + 10),
        _ => None,
    }
}

// The byte that two of them say.
fn pair(line: &[u8], at: usize) -> Option<u8>
    ensures { IfSome result (λ _. at + 2 ≤ length line.now) }
{
    let high = hex_digit(*line.get(at)?)?;
    let low = hex_digit(*line.get(at + 1)?)?;
    Some(high * 16 + low)
}

// The bytes that word 0 says in hexadecimal, as many as fit; answers how many.
pub fn bytes(line: &[u8], out: &mut [u8]) -> usize
    ensures { IsPrefixLen result out.new }
{
    for n in 0..out.len() {
        match pair(line, n * 2) {
            Some(byte) => out[n] = byte,
            None => return n,
        }
    }
    out.len()
}
