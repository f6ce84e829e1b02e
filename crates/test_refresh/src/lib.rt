// The refresh at its edges: new and raised averages, each refusal of a trace, as many records as can be and one more, little room, and damaged
// images. A case is told again with what came of it.
#![tactic(auto)]

use profile::Tables;
use std::io;
use test_kit::{UNTOUCHED, part, say_number, say_refusal, say_tail, say_whether};

pub fn tell<R: Print>(rt: &R, line: &[u8]) -> io::Result<()> {
    rt.write_all(line)?;
    if !line.starts_with(b"#") {
        tell_refresh(rt, line)?;
    }
    rt.write_all(b"\n")
}

// A profile, the bytes of room, the bytes of the trace, and its records, which are said again and again to its end.
fn tell_refresh<R: Print>(rt: &R, line: &[u8]) -> io::Result<()> {
    let mut buffer = [0u8; 78];
    let image = test_kit::sample(line, &mut buffer);
    let row = test_kit::numbers(line);
    let trace = trace_of(row);
    refreshed(
        rt,
        image,
        &trace[..part(row[1], files::LONG_BUFFER)],
        row[0],
    )
}

// ---- the trace

// A record is four numbers, the first of them 1 if it is open; its 40 bits are open 1, action 6, level 3, duration 30.
fn bits(open: u32, action: u32, level: u32, duration: u32) -> u64 {
    let o = u64::from(open % 2);
    let a = u64::from(action % 64);
    let l = u64::from(level % 8);
    let d = u64::from(duration % 1_073_741_824);
    ((o * 64 + a) * 8 + l) * 1_073_741_824 + d
}

// Record r of a case, of the four that it has room for.
fn record(row: [u32; 24], r: usize) -> u64 {
    let at = r % 4 * 4 + 2;
    bits(row[at], row[at + 1], row[at + 2], row[at + 3])
}

fn trace_of(row: [u32; 24]) -> [u8; files::LONG_BUFFER] {
    let mut trace = [0u8; files::LONG_BUFFER];
    fill(&mut trace, row);
    trace
}

fn fill(trace: &mut [u8], row: [u32; 24]) {
    for r in 0..trace.len() / 5 {
        fields::put_be(trace, r * 5, record(row, r), 5);
    }
}

// ---- what came of it

// A slice of 80 bytes, of which some are lent.
fn refreshed<R: Print>(rt: &R, image: &[u8], trace: &[u8], room: u32) -> io::Result<()> {
    let mut out = [UNTOUCHED; 80];
    let answer = refresh::refresh(image, trace, &mut out[..part(room, 80)]);
    say_refusal(rt, b": refusal ", &answer)?;
    say_written(rt, image, out, answer.unwrap_or(0))
}

// Behind the new image, and all over with a refusal, the slice is as it was handed over.
fn say_written<R: Print>(rt: &R, image: &[u8], out: [u8; 80], bytes: usize) -> io::Result<()> {
    say_number(rt, b", bytes ", bytes)?;
    if bytes <= 80 {
        if 0 < bytes {
            say_averages(rt, image, &out[..bytes])?;
        }
        say_tail(rt, &out[bytes..])?;
    }
    Ok(())
}

// The averages of the new image, and whether the old image comes back when they are replaced by the old ones.
fn say_averages<R: Print>(rt: &R, image: &[u8], new: &[u8]) -> io::Result<()> {
    test_kit::say(rt, b", averages _ _, _ _, _ _", &averages_of(new))?;
    let back = with_averages(new, &averages_of(image));
    say_whether(
        rt,
        back.starts_with(image),
        b", rest kept",
        b", rest CHANGED",
    )
}

// Up to six, 0 for those that it has not.
fn averages_of(image: &[u8]) -> [u32; 6] {
    let mut masks = [0u64; 3];
    let mut deadlines = [0u32; 3];
    let mut averages = [0u32; 6];
    let mut worst = [0u32; 6];
    let _ = profile::read(image, &mut masks, &mut deadlines, &mut averages, &mut worst);
    averages
}

fn with_averages(image: &[u8], averages: &[u32; 6]) -> [u8; 78] {
    let mut masks = [0u64; 3];
    let mut deadlines = [0u32; 3];
    let mut own = [0u32; 6];
    let mut worst = [0u32; 6];
    let read = profile::read(image, &mut masks, &mut deadlines, &mut own, &mut worst);
    let mut out = [0u8; 78];
    if let Ok(counts) = read {
        let tables = Tables {
            masks: &masks,
            deadlines: &deadlines,
            averages,
            worst: &worst,
        };
        let _ = profile::write(counts.n, counts.levels, counts.cycle, tables, &mut out);
    }
    out
}
