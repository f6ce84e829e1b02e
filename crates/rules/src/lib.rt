// The numbers of the rules, each once, for every crate; specs/Numbers has what the definitions need of them, under the same names. The rules
// themselves are mathematics: see specs/ for the definitions and proofs/ for their laws.
#![tactic(auto)]

pub mod blame;

ghost use Rattle.std.specs.Prelude.{◌≡◌};
ghost use Rattle.rules.specs.Reasons.{number_of, fault_of, number, fault};

pub use blame::Blame;

// ---- ranges

// Actions of a profile: 1 to this many.
pub const MOST_ACTIONS: usize = 64;
// Levels of a profile: 1 to this many.
pub const MOST_LEVELS: usize = 8;
// The longest cycle, the latest deadline and the latest clock.
pub const LAST_CLOCK: u32 = 1_073_741_823;
// The longest average, worst time and dry run entry.
pub const LONGEST_TIME: u32 = 16_777_215;
// Actions in a coast, the decided one included: 1 to this many.
pub const LONGEST_COAST: usize = 16;
// The entry of the coast bounds where a coast would go past the last position.
pub const ABSENT: i32 = -2_147_483_648;
// Records of a trace: 0 to this many.
pub const MOST_RECORDS: usize = 65_535;
// Frames of a recording: 0 to this many.
pub const MOST_FRAMES: u32 = 4_096;
// Repeats of a body: 1 to this many.
pub const MOST_REPEATS: u32 = 1_620;
// What a limit or a coast bound of 64 bits is where there is none.
pub const ABSENT_LONG: i64 = -9_223_372_036_854_775_808;

// ---- the policies, by their year

pub const POLICY_2008: u32 = 2_008;

pub const POLICY_2005: u32 = 2_005;

// ---- the image's header, 48 bits: version 4, actions 7, levels 4, cycle 30, spare 3

pub const HEADER_BYTES: usize = 6;

pub const FIRST_VERSION: u32 = 1;
// What the last bit of each part is worth.
pub const VERSION_WORTH: u64 = 17_592_186_044_416;

pub const ACTIONS_WORTH: u64 = 137_438_953_472;

pub const LEVELS_WORTH: u64 = 8_589_934_592;

pub const CYCLE_WORTH: u64 = 8;
// How many numbers the bits of each part can say.
pub const ACTIONS_SAID: u64 = 128;

pub const LEVELS_SAID: u64 = 16;

pub const CYCLE_SAID: u64 = 1_073_741_824;
// The version before the bits of the actions: version 1 is worth as much as they can say.
pub const VERSION_BEFORE: u64 = 128;

// ---- an action's record: mask 64 bits, deadline 30, spare 2, then by level average 24, worst 24

pub const HEAD_BYTES: usize = 12;

pub const LEVEL_BYTES: usize = 6;
// From the start of the record: the deadline, and at level 0 the average and the worst time.
pub const DEADLINE_AT: usize = 8;

pub const AVERAGE_AT: usize = 12;

pub const WORST_AT: usize = 15;
// What the last bit of the deadline is worth, above two spare bits.
pub const DEADLINE_WORTH: u32 = 4;

// ---- a trace's record, 40 bits: open 1, action 6, level 3, duration 30

pub const ENTRY_BYTES: usize = 5;
// How many numbers a duration's bits can say.
pub const DURATION_SAID: u32 = 1_073_741_824;

// ---- a frame of a recording: n by L durations, by position, then level

pub const DURATION_BYTES: usize = 4;

// ---- the summaries of a body: by position, then level, four numbers each

pub const SUMMARY_NUMBERS: usize = 4;

// What every call over a body repeated takes of it: n, L and the cycle of the body, how often it is repeated, and by which policy it was planned.
#[repr(C)]
#[derive(Clone, Copy, PartialEq, Eq)]
pub struct Body {
    pub n: u32,
    pub levels: u32,
    pub cycle: u32,
    pub repeats: u32,
    pub policy: u32,
}

// The counts of a profile, as the header of its image says them.
#[derive(Clone, Copy, PartialEq, Eq)]
pub struct Counts {
    pub n: usize,
    pub levels: usize,
    pub cycle: u32,
}

// ---- refusals

// Why a call is refused. Each reason has a number of its own, which C and the programs say: `refused_short` to `refused_policy` of specs/Numbers.
#[derive(Clone, Copy, PartialEq, Eq)]
pub enum Reason {
    Short = 1,
    Version = 2,
    Count = 3,
    Length = 4,
    Spare = 5,
    Range = 6,
    Table = 7,
    Loop = 8,
    Unfit = 9,
    Finished = 10,
    Turn = 11,
    Back = 12,
    Clock = 13,
    Trace = 14,
    Name = 15,
    Duration = 16,
    Room = 17,
    Reading = 18,
    Repeats = 19,
    Policy = 20,
}

// What a call answers to C of a refusal: its number, 0 for none.
#[repr(C)]
#[derive(Clone, Copy, PartialEq, Eq)]
pub struct Refusal {
    pub number: u32,
}

// What a call that takes an image, or writes one, answers to C of it: with 5 to 8 also the lowest action at fault.
#[repr(C)]
#[derive(Clone, Copy, PartialEq, Eq)]
pub struct Fault {
    pub number: u32,
    pub action: u32,
}

// The action where none is at fault: the number after the last that an action can have.
pub const NO_ACTION: u32 = 64;

impl From<Reason> for Refusal {
    ghost from_gives = { λ reason refusal. refusal.number ≡ number_of reason };

    fn from(reason: Reason) -> Self {
        Refusal {
            number: reason as u32,
        }
    }
}

impl From<Blame> for Fault {
    ghost from_gives = { λ blame fault. fault ≡ fault_of blame };

    fn from(blame: Blame) -> Self {
        Fault {
            number: blame.reason as u32,
            action: blame.action.unwrap_or(NO_ACTION),
        }
    }
}

impl Refusal {
    // That of a call which gives nothing else.
    pub fn of(outcome: Result<(), Reason>) -> Self
        ensures { result.number ≡ number outcome }
    {
        match outcome {
            Ok(()) => Refusal { number: 0 },
            Err(reason) => Refusal::from(reason),
        }
    }
}

impl Fault {
    // The same with the action at fault.
    pub fn of(outcome: Result<(), Blame>) -> Self
        ensures { result ≡ fault outcome }
    {
        match outcome {
            Ok(()) => Fault {
                number: 0,
                action: NO_ACTION,
            },
            Err(blame) => Fault::from(blame),
        }
    }
}
