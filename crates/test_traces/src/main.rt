// Outside traces: NAME.profile is an image, NAME.trace a trace, and then either NAME.refreshed is the new image or NAME.refused the line of the
// refusal. An absent file reads as an empty one. t00 to t23 come with the rules, e1/000 to e1/031 with the request that skipped actions do not count.
#![tactic(auto)]

use std::io;
use std::rt::Files;
use test_kit::{Tally, UNTOUCHED, read_of_series};

// The traces of each series.
const OF_THE_RULES: usize = 24;

const OF_SKIPPED_ACTIONS: usize = 32;

// The number that a trace is refused with, 0 for none.
fn number<R: Files>(rt: &R, series: &[u8], trace: usize) -> io::Result<u32> {
    let mut buffer = [0u8; 32];
    let line = read_of_series(rt, series, trace, b".refused", &mut buffer)?;
    Ok(text::words::number(line, 1))
}

// Whether the refresh by a trace answers its number and its new image. The lent slice and the wanted one start out alike, so that they stay
// alike only where the refresh keeps what it does not write.
fn agrees<R: Files>(rt: &R, series: &[u8], trace: usize) -> io::Result<bool> {
    let mut buffer = [0u8; files::BUFFER];
    let image = read_of_series(rt, series, trace, b".profile", &mut buffer)?;
    let mut bytes = [0u8; files::LONG_BUFFER];
    let records = read_of_series(rt, series, trace, b".trace", &mut bytes)?;
    let mut want = [UNTOUCHED; files::BUFFER];
    let wanted = read_of_series(rt, series, trace, b".refreshed", &mut want)?.len();
    let mut out = [UNTOUCHED; files::BUFFER];
    let (refused, bytes) = match refresh::refresh(image, records, &mut out) {
        Ok(bytes) => (0, bytes),
        Err(blame) => (blame.reason as u32, 0),
    };
    if refused != number(rt, series, trace)? {
        return Ok(false);
    }
    Ok(bytes == wanted && out == want)
}

// Tells of a series, whose traces are numbered from 0, how many agree.
fn tell_series<R: Files + Print>(
    rt: &R,
    series: &[u8],
    traces: usize,
    what: &[u8],
) -> io::Result<()> {
    let mut tally = Tally::new();
    for trace in 0..traces {
        tally.tell(rt, agrees(rt, series, trace)?, series, trace)?;
    }
    tally.sum_up(rt, what)
}

fn main(rt: HostRuntime) -> io::Result<()> {
    tell_series(&rt, b"t", OF_THE_RULES, b" traces")?;
    tell_series(
        &rt,
        b"e1/0",
        OF_SKIPPED_ACTIONS,
        b" traces with skipped actions",
    )
}
