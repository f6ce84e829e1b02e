// What the programs that run under the gate share: sample images, the files and the numbers of a case, and lines on standard output. A case is
// files of one number, or a line of text, told again with what came of it. No contract can say which bytes standard output takes, so what only
// writes promises only that it ends: what a program wrote is compared with its file `stdout`.
#![tactic(auto)]

ghost use Rattle.std.specs.Prelude.{ℕ, ◌+◌, ◌≤◌, ◌<◌, min, ◌≡◌, cond, eqb, length, get_or, IfOk};
ghost use Rattle.io.specs.Counts.{IsPrefixLen};
ghost use Rattle.rules.specs.Numbers.{policy_2008};
ghost use Rattle.text.specs.Words.{from_word, digits_say, capped};
ghost use Rattle.test_kit.specs.Tally.{counted};

use rules::{Blame, Fault, Reason};
use std::fmt::Display;
use std::io;
use std::rt::Files;
use text::put_bytes;

pub mod samples;

// ---- the files of a case

// The name of a case's file, put into `out`: the case in three digits, then `what`.
pub fn case_name<'a>(case: usize, what: &[u8], out: &'a mut [u8]) -> &'a [u8]
    ensures { length result.now ≤ length out.old }
{
    let hundreds = text::put_digit(&mut *out, 0, case / 100);
    let tens = text::put_digit(&mut *out, hundreds, case / 10);
    let ones = text::put_digit(&mut *out, tens, case);
    let end = put_bytes(&mut *out, ones, what);
    &out[..end]
}

// What there is of that file, as much as `out` has room for.
pub fn read_case<'a, R: Files>(
    rt: &R,
    case: usize,
    what: &[u8],
    out: &'a mut [u8],
) -> io::Result<&'a [u8]>
    ensures { IfOk result (λ text. length text.now ≤ length out.old) }
{
    let mut name = [0u8; 32];
    files::read_file(rt, case_name(case, what, &mut name), out)
}

// What there is of a file of a series, as much as `out` has room for: its name is that of the series, its number in two digits, then `what`.
pub fn read_of_series<'a, R: Files>(
    rt: &R,
    series: &[u8],
    number: usize,
    what: &[u8],
    out: &'a mut [u8],
) -> io::Result<&'a [u8]>
    ensures { IfOk result (λ text. length text.now ≤ length out.old) }
{
    let mut name = [0u8; 32];
    let start = put_bytes(&mut name, 0, series);
    let tens = text::put_digit(&mut name, start, number / 10);
    let ones = text::put_digit(&mut name, tens, number);
    let end = put_bytes(&mut name, ones, what);
    files::read_file(rt, &name[..end], out)
}

// Whether the file of a case says this text.
pub fn says<R: Files>(rt: &R, case: usize, what: &[u8], text: &[u8]) -> io::Result<bool> {
    let mut buffer = [0u8; files::LARGE_BUFFER];
    Ok(text == read_case(rt, case, what, &mut buffer)?)
}

// ---- what a case says

// The numbers that its words say, those after the first word: 0 for a word that is no number.
pub fn numbers(line: &[u8]) -> [u32; 24]
    ensures value { 24 ≡ length result }
    ensures by_index { (k : ℕ) → k < 24 → get_or result k 0 ≡ capped (digits_say 0 (from_word (k + 1) line.now)) }
{
    std::array::from_fn(|k| text::words::number(line, k + 1))
}

// As much of something as a case says, where there is `most` of it.
pub fn part(n: u32, most: usize) -> usize
    ensures { result ≡ min n most }
{
    most.min(n as usize)
}

// The policy of a case by its year, 2008 where it says none.
pub fn year(said: u32) -> u32
    ensures { result ≡ cond (eqb said 0) policy_2008 said }
{
    if said == 0 { rules::POLICY_2008 } else { said }
}

// A count. The largest number of 32 bits, which stands for every larger one, stands for the largest count.
pub fn count(n: u32) -> usize
    ensures { (n < 4294967295 → result ≡ n) × (n ≡ 4294967295 → result ≡ 18446744073709551615) }
{
    if n == u32::MAX {
        usize::MAX
    } else {
        n as usize
    }
}

// The profile that it names by its first word, put into `out`: Three, Near, One, Long, or a damaged One, as `5-damaged`.
pub fn sample<'a>(line: &[u8], out: &'a mut [u8]) -> &'a [u8]
    ensures { length result.now ≤ length out.old }
{
    let end = match line {
        [b'T', ..] => put_bytes(&mut *out, 0, &samples::three()),
        [b'N', ..] => put_bytes(&mut *out, 0, &samples::near()),
        [b'O', ..] => put_bytes(&mut *out, 0, &samples::one()),
        [b'L', ..] => put_bytes(&mut *out, 0, &samples::long()),
        [digit, ..] => put_damaged(&mut *out, *digit),
        [] => put_damaged(&mut *out, 0),
    };
    &out[..end]
}

fn put_damaged(out: &mut [u8], digit: u8) -> usize
    ensures { IsPrefixLen result out.new }
{
    let image = samples::damaged(digit);
    let bytes = samples::damaged_bytes(digit);
    put_bytes(out, 0, &image[0..bytes])
}

// ---- what is said of it

// The words, with the numbers at the places that `_` marks.
pub fn say<P: Print>(rt: &P, words: &[u8], row: &[u32]) -> io::Result<()> {
    let mut from = 0;
    for n in row {
        let end = text::words::find(words, from, b'_');
        say_number(rt, &words[from..end], *n)?;
        from = text::words::next(words, from, b'_');
    }
    rt.write_all(&words[from..])
}

// The words, and a number after them.
pub fn say_number<P: Print, N: Display + Drop>(rt: &P, words: &[u8], n: N) -> io::Result<()> {
    rt.write_all(words)?;
    print!(rt; "{n}")
}

// The words, and the refusal of an image: its number, 0 for none, with 5 to 8 the action at fault too.
pub fn say_refusal<P: Print, T>(rt: &P, words: &[u8], answer: &Result<T, Blame>) -> io::Result<()> {
    match answer {
        Ok(_) => say_number(rt, words, 0u32),
        Err(blame) => {
            let fault = Fault::from(*blame);
            say_number(rt, words, fault.number)?;
            match blame.reason {
                Reason::Spare | Reason::Range | Reason::Table | Reason::Loop => {
                    say_number(rt, b" ", fault.action)
                }
                _ => Ok(()),
            }
        }
    }
}

// Which of two it is.
pub fn say_whether<P: Print>(rt: &P, yes: bool, words: &[u8], otherwise: &[u8]) -> io::Result<()> {
    rt.write_all(if yes { words } else { otherwise })
}

// What a lent slice is full of where a case tells what a call leaves of it.
pub const UNTOUCHED: u8 = 0xa5;

// Whether what lies behind what a call wrote is as it was handed over.
pub fn say_tail<P: Print>(rt: &P, tail: &[u8]) -> io::Result<()> {
    let kept = tail.iter().all(|b| *b == UNTOUCHED);
    say_whether(rt, kept, b", tail kept", b", tail CHANGED")
}

// How many of something agree with their files, of how many. Either stays where it is once it is the largest of its type.
#[derive(Clone, Copy)]
pub struct Tally {
    pub agreed: u64,
    pub all: u64,
}

impl Tally {
    pub fn new() -> Self
        ensures { result ≡ record { agreed = 0; all = 0 } }
    {
        Tally { agreed: 0, all: 0 }
    }

    // Counts one more, and names it where it does not agree.
    pub fn tell<P: Print>(
        &mut self,
        rt: &P,
        agrees: bool,
        what: &[u8],
        number: usize,
    ) -> io::Result<()>
        ensures { self.new ≡ counted agrees self.old }
    {
        self.all = self.all.saturating_add(1);
        if agrees {
            self.agreed = self.agreed.saturating_add(1);
            return Ok(());
        }
        rt.write_all(what)?;
        say_number(rt, b" does not agree: ", number)?;
        rt.write_all(b"\n")
    }

    // How many agree of how many.
    pub fn sum_up<P: Print>(&self, rt: &P, what: &[u8]) -> io::Result<()> {
        print!(rt; "{} of {}", self.agreed, self.all)?;
        rt.write_all(what)?;
        rt.write_all(b" agree\n")
    }
}
