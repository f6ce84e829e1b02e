// Outside cases of the action at fault. NNN.profile is an image and NNN.plan what the plan program prints for it, which is what the dry-run program
// prints too where the image is refused. wNN.tables is what is given to writing, as text in five lines: n, L, cycle and the bytes of the lent image;
// masks; deadlines; averages; worst times. Each slice is as long as its line. Then either wNN.written is the image or wNN.refused the line of the
// refusal; an absent file reads as an empty one. They come with the request that a refusal names the action at fault.
#![tactic(auto)]

ghost use Rattle.std.specs.Prelude.{◌≤◌, ◌≡◌, length};

use profile::Tables;
use rules::{Blame, Fault};
use std::io;
use std::rt::Files;
use test_kit::{Tally, UNTOUCHED, read_case, read_of_series, says};

const IMAGES: usize = 31;

const WRITINGS: usize = 16;

// ---- images

fn plan_agrees<R: Files>(rt: &R, case: usize) -> io::Result<bool> {
    let mut buffer = [0u8; files::BUFFER];
    let image = read_case(rt, case, b".profile", &mut buffer)?;
    let mut out = [0u8; files::LARGE_BUFFER];
    let k = print::plan_text(image, rules::POLICY_2008, &mut out);
    says(rt, case, b".plan", &out[..k])
}

// With no durations: a refused image is refused first.
fn dry_run_agrees<R: Files>(rt: &R, case: usize) -> io::Result<bool> {
    let mut text = [0u8; files::LARGE_BUFFER];
    let want = read_case(rt, case, b".plan", &mut text)?;
    if !want.starts_with(b"r") {
        return Ok(true);
    }
    let mut buffer = [0u8; files::BUFFER];
    let image = read_case(rt, case, b".profile", &mut buffer)?;
    let mut out = [0u8; files::LARGE_BUFFER];
    let k = print::dry_text(image, rules::POLICY_2008, b"", &mut out);
    Ok(&out[..k] == want)
}

// ---- tables as text

// No slice of a writing is longer.
const MOST_ENTRIES: usize = 16;

// Line k, counted from 0; empty where there is none.
fn line(text: &[u8], k: usize) -> &[u8] {
    text.split(|b| *b == b'\n').nth(k).unwrap_or(&[])
}

// The decimal number of 64 bits that a word begins with. One of more bits is the largest.
fn long(word: &[u8]) -> u64 {
    let mut value: u64 = 0;
    for digit in word {
        if !digit.is_ascii_digit() {
            return value;
        }
        if 1_844_674_407_370_955_160 < value {
            return u64::MAX;
        }
        value = value * 10 + u64::from(*digit - b'0');
    }
    value
}

// How many numbers a line has.
fn count_of(line: &[u8]) -> usize
    ensures { result ≤ 16 }
{
    line.split_inclusive(|b| *b == b' ')
        .count()
        .min(MOST_ENTRIES)
}

// Those numbers, and then 0.
fn longs_of(line: &[u8]) -> [u64; MOST_ENTRIES]
    ensures { 16 ≡ length result }
{
    let mut entries = [0u64; MOST_ENTRIES];
    let words = line.split_inclusive(|b| *b == b' ');
    for (entry, word) in entries.iter_mut().zip(words) {
        *entry = long(word);
    }
    entries
}

// The same of 32 bits: a number of more is the largest.
fn shorts_of(line: &[u8]) -> [u32; MOST_ENTRIES]
    ensures { 16 ≡ length result }
{
    longs_of(line).map(|long| u32::try_from(long).unwrap_or(u32::MAX))
}

// ---- writing

// No lent image is longer.
const MOST_BYTES: usize = 1024;

// What comes of writing the tables that the text says.
fn written(text: &[u8], image: &mut [u8]) -> Result<usize, Blame> {
    let first = shorts_of(line(text, 0));
    let masks = line(text, 1);
    let deadlines = line(text, 2);
    let averages = line(text, 3);
    let worst = line(text, 4);
    let tables = Tables {
        masks: &longs_of(masks)[..count_of(masks)],
        deadlines: &shorts_of(deadlines)[..count_of(deadlines)],
        averages: &shorts_of(averages)[..count_of(averages)],
        worst: &shorts_of(worst)[..count_of(worst)],
    };
    let room = test_kit::part(first[3], image.len());
    profile::write(
        test_kit::count(first[0]),
        test_kit::count(first[1]),
        first[2],
        tables,
        &mut image[..room],
    )
}

// The line of a refusal, none without one.
fn refused_line<'a>(answer: &Result<usize, Blame>, out: &'a mut [u8]) -> &'a [u8]
    ensures { length result.now ≤ length out.old }
{
    match answer {
        Ok(_) => &[],
        Err(blame) => {
            let k = print_lines::put_fault(&mut *out, 0, Fault::from(*blame));
            &out[..k]
        }
    }
}

// The lent image and the wanted one start out alike, so that they stay alike only where writing keeps what it does not write.
fn writing_agrees<R: Files>(rt: &R, writing: usize) -> io::Result<bool> {
    let mut buffer = [0u8; files::BUFFER];
    let text = read_of_series(rt, b"w", writing, b".tables", &mut buffer)?;
    let mut image = [UNTOUCHED; MOST_BYTES];
    let answer = written(text, &mut image);
    let mut want = [UNTOUCHED; MOST_BYTES];
    let wanted = read_of_series(rt, b"w", writing, b".written", &mut want)?.len();
    let mut told = [0u8; 64];
    let mut said = [0u8; 64];
    let refused = read_of_series(rt, b"w", writing, b".refused", &mut said)?;
    let told = refused_line(&answer, &mut told);
    Ok(answer.unwrap_or(0) == wanted && image == want && told == refused)
}

// ---- all of them

fn tell_images<R: Files + Print>(rt: &R) -> io::Result<()> {
    let mut plans = Tally::new();
    let mut dry_runs = Tally::new();
    for case in 0..IMAGES {
        plans.tell(rt, plan_agrees(rt, case)?, b"plan", case)?;
        dry_runs.tell(rt, dry_run_agrees(rt, case)?, b"dry run", case)?;
    }
    plans.sum_up(rt, b" plans")?;
    dry_runs.sum_up(rt, b" dry runs")
}

fn tell_writings<R: Files + Print>(rt: &R) -> io::Result<()> {
    let mut writings = Tally::new();
    for writing in 0..WRITINGS {
        writings.tell(rt, writing_agrees(rt, writing)?, b"writing", writing)?;
    }
    writings.sum_up(rt, b" writings")
}

fn main(rt: HostRuntime) -> io::Result<()> {
    tell_images(&rt)?;
    tell_writings(&rt)
}
