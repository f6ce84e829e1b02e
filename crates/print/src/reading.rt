// A speed reading as the programs print it: `spent`, `refused` and the number, with 5 to 8 the action too, or the 64 bits of the ratio in
// hexadecimal.
ghost use Rattle.std.specs.Prelude.{◌≡◌};
ghost use Rattle.text.specs.Put.{Puts};
ghost use Rattle.print.specs.Reading.{ratio_bits, reading_text};

use print_lines::put_said;
use speed_stretch::Reading;
use text::put_bytes;

// The bits of a ratio. A ratio is never below 0, so what is has bits that no ratio has.
fn bits(x: f64) -> u64
    ensures { result ≡ ratio_bits x }
{
    if 0.0 <= x {
        return f64::to_bits(x);
    }
    0xffff_ffff_ffff_ffff
}

pub fn put_reading(out: &mut [u8], reading: Reading) -> usize
    ensures { Puts out.old 0 (reading_text reading) out.new result }
{
    match reading {
        Reading::Ratio(x) => {
            let mut digits = [0u8; 16];
            let k = io::hex(bits(x), 16, &mut digits);
            put_bytes(out, 0, &digits[..k])
        }
        Reading::Spent => put_bytes(out, 0, b"spent"),
        Reading::Refused(refusal) => put_said(out, 0, refusal),
    }
}
