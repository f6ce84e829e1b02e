// The speed reading at its edges: case 6 and the times around it, the room at 1, at 0 and below, and each refusal. A case is told again with the
// reading: its bits are the exact value, and for a reader it is told in thousandths too.
#![tactic(auto)]

use print::put_reading;
use speed_stretch::Reading;
use std::io;
use test_kit::count;

pub fn tell<R: Print>(rt: &R, line: &[u8]) -> io::Result<()> {
    rt.write_all(line)?;
    if !line.starts_with(b"#") {
        tell_reading(rt, line)?;
    }
    rt.write_all(b"\n")
}

// A profile, the first position, the last, the level and the time.
fn tell_reading<R: Print>(rt: &R, line: &[u8]) -> io::Result<()> {
    let mut buffer = [0u8; 78];
    let image = test_kit::sample(line, &mut buffer);
    let row = test_kit::numbers(line);
    say_at(
        rt,
        image,
        count(row[0]),
        count(row[1]),
        count(row[2]),
        row[3],
    )
}

// The reading, and whether its ratio is at most 1.
fn say_at<R: Print>(
    rt: &R,
    image: &[u8],
    first: usize,
    last: usize,
    level: usize,
    t: u32,
) -> io::Result<()> {
    say_reading(rt, speed::speed_reading(image, first, last, level, t))?;
    let on_time = speed::on_time(image, first, last, level, t);
    test_kit::say_whether(rt, on_time, b", on time", b", not on time")
}

fn say_reading<R: Print>(rt: &R, reading: Reading) -> io::Result<()> {
    let mut text = [0u8; 32];
    let k = put_reading(&mut text, reading);
    rt.write_all(b": ")?;
    rt.write_all(&text[..k])?;
    if let Reading::Ratio(x) = reading {
        say_ratio(rt, thousandths(x))?;
    }
    Ok(())
}

fn say_ratio<R: Print>(rt: &R, value: u64) -> io::Result<()> {
    print!(rt; ", about {}.{:03}", value / 1000, value % 1000)
}

// A ratio in thousandths, rounded down.
fn thousandths(x: f64) -> u64 {
    let y = x * 1000.0;
    if y > -1.0 {
        if y < 18446744073709551616.0 {
            return std::num::truncating_f64_to_u64(y);
        }
    }
    0
}
