// The encoder's times (source 001, figure 5) as a fixed table, nine actions by eight levels, and its profile: the chain in the listed order,
// deadlines 0, cycle 320,000.
#![tactic(auto)]

ghost use Rattle.std.specs.Prelude.{◌<◌, ◌≡◌};
ghost use Rattle.image_write.specs.Writing.{Writes, written};
ghost use Rattle.encoder.specs.Times.{times, column, encoder_tables};

use profile::Tables;
use rules::Blame;

const ACTIONS: usize = 9;

const LEVELS: usize = 8;

const CYCLE: u32 = 320_000;

const MASKS: [u64; ACTIONS] = [0, 1, 2, 4, 8, 16, 32, 64, 128];

const DEADLINES: [u32; ACTIONS] = [0; ACTIONS];

// Motion's average and worst time, by level.
const MOTION: [[u32; 2]; LEVELS] = [
    [215, 1_000],
    [30_000, 100_000],
    [50_000, 200_000],
    [95_000, 350_000],
    [110_000, 500_000],
    [120_000, 1_200_000],
    [150_000, 1_200_000],
    [200_000, 1_500_000],
];

// The average and the worst time, by action, then level: all but Motion's are the same at each level.
const TIMES: [[[u32; 2]; LEVELS]; ACTIONS] = [
    [[12_000, 24_000]; LEVELS], // Grab
    MOTION,
    [[16_000, 16_000]; LEVELS], // Transform
    [[6_000, 13_000]; LEVELS], // Quantize
    [[4_000, 4_000]; LEVELS], // Intra
    [[5_000, 50_000]; LEVELS], // Compress
    [[4_000, 5_000]; LEVELS], // Inverse quantize
    [[20_000, 50_000]; LEVELS], // Inverse transform
    [[10_000, 13_000]; LEVELS], // Reconstruct
];

// The table, as the definition has it.
fn times() -> [[[u32; 2]; LEVELS]; ACTIONS]
    ensures { result ≡ times }
{
    TIMES
}

// The columns of such a table.
const AVERAGE: usize = 0;

const WORST: usize = 1;

// The entries of a column, as a table of averages or of worst times.
const ENTRIES: usize = ACTIONS * LEVELS;

// A column of the table, by action, then level.
fn column(table: [[[u32; 2]; LEVELS]; ACTIONS], which: usize) -> [u32; ENTRIES]
    requires { which < 2 }
    ensures { result ≡ column table which }
{
    let mut times: [u32; ENTRIES] = [0; ENTRIES];
    for k in 0..ENTRIES {
        let action = table[k / LEVELS];
        let level = action[k % LEVELS];
        times[k] = level[which];
    }
    times
}

// Writes the encoder's profile: refused only where the image is shorter than its 546 bytes (`Written`, `only-room`).
pub fn write_image(image: &mut [u8]) -> Result<usize, Blame>
    ensures { Writes 9 8 320000 encoder_tables image.old image.new (written result).refusal (written result).bytes }
{
    let masks = MASKS;
    let deadlines = DEADLINES;
    let times = times();
    let averages = column(times, AVERAGE);
    let worst = column(times, WORST);
    let tables = Tables {
        masks: &masks,
        deadlines: &deadlines,
        averages: &averages,
        worst: &worst,
    };
    profile::write(ACTIONS, LEVELS, CYCLE, tables, image)
}
