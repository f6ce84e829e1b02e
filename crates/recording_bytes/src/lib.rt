// The bytes of a recording's frame: the durations that they say, and whether an entry is too long.
#![tactic(auto)]

ghost use Rattle.std.specs.Prelude.{◌+◌, ◌*◌, ◌/◌, ◌%◌, ◌≤◌, min, ◌≡◌, eqb, length, get_or};
ghost use Rattle.io.specs.Counts.{IsPrefixLen};
ghost use Rattle.rules.specs.Numbers.{duration_bytes};
ghost use Rattle.rules.specs.Words.{tab, all_pass};
ghost use Rattle.rules.specs.Image.{be};
ghost use Rattle.fields.specs.Fields.{splice};

// The durations that the bytes say, as far as there is room for them. Answers how many.
pub fn take_durations(bytes: &[u8], durations: &mut [u32]) -> usize
    ensures value { (result ≡ min (length bytes.now / duration_bytes) (length durations.old)) × IsPrefixLen result durations.new }
    ensures durations_after { durations.new
        ≡ splice durations.old 0 (tab (λ k. be bytes.now (k * duration_bytes) duration_bytes) result) }
{
    let said = bytes.len() / rules::DURATION_BYTES;
    let count = said.min(durations.len());
    for k in 0..count {
        durations[k] = fields::be32(bytes, k * rules::DURATION_BYTES);
    }
    count
}

// Four bytes as one number, the first the lowest: a compiler makes one load of it. The first alone is asked
// for, but by itself it would be picked out of each entry, one after another.
fn four(s: &[u8], at: usize) -> u32
    requires { at + 4 ≤ length s.now }
    ensures { result % 256 ≡ get_or s.now at 0 }
{
    u32::from_le_bytes([s[at], s[at + 1], s[at + 2], s[at + 3]])
}

// Whether each of the first `cells` entries is at most 16,777,215, used or not: whether its first byte is 0. The bits of all are joined, so that
// no test stands in the loop.
pub fn all_short(frame: &[u8], cells: usize) -> bool
    requires { cells * duration_bytes ≤ length frame.now }
    ensures { result ≡ all_pass (λ k. eqb (get_or frame.now (k * duration_bytes) 0) 0) cells }
{
    let mut all = 0;
    for k in 0..cells {
        all |= four(frame, k * rules::DURATION_BYTES);
    }
    all % 256 == 0
}
