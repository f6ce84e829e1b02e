// Outside readings: each line of readings.txt has an image in hexadecimal, the first position, the last, the level, the time, and the
// reading as the programs print it.
#![tactic(auto)]

use files::read_file;
use print::put_reading;
use std::io;
use test_kit::Tally;
use text::words;

// Whether the reading that a line asks for is the one that it says.
fn agrees(line: &[u8]) -> bool {
    let mut buffer = [0u8; files::BUFFER];
    let n = words::bytes(line, &mut buffer);
    let first = words::number(line, 1) as usize;
    let last = words::number(line, 2) as usize;
    let level = words::number(line, 3) as usize;
    let t = words::number(line, 4);
    let reading = speed::speed_reading(&buffer[..n], first, last, level, t);
    let mut out = [0u8; 32];
    let k = put_reading(&mut out, reading);
    let said = words::word(line, 5);
    out[..k] == line[said..]
}

// How many lines agree of how many, counted from 1.
fn compare<R: Print>(rt: &R, text: &[u8]) -> io::Result<()> {
    let mut readings = Tally::new();
    for (k, line) in text.split_inclusive(|b| *b == b'\n').enumerate() {
        let reading = line.strip_suffix(b"\n").unwrap_or(line);
        readings.tell(rt, agrees(reading), b"line", k + 1)?;
    }
    readings.sum_up(rt, b" readings")
}

fn main(rt: HostRuntime) -> io::Result<()> {
    let mut buffer = [0u8; files::LONG_BUFFER];
    compare(&rt, read_file(&rt, b"readings.txt", &mut buffer)?)
}
