// The limits and the refusals for code; specs/Limits and specs/Refusals have the numbers, under the same names, for
// the definitions, all of which stand in specs/. specs/Answer has a refusal's number.
#![tactic(auto)]

ghost use Rattle.std.specs.Prelude.{◌≡◌};
ghost use Rattle.rules.specs.Answer.{number_of, number};

// The greatest P and V.
pub const MOST_PARALLELISM: u64 = 64999;

pub const MOST_PLACES: u64 = 16777216;

// The most inputs or outputs of a registration, and the most plain flushes.
pub const MOST_IN_A_LIST: usize = 65535;

pub const MOST_FLUSHES: u32 = 65535;

// The greatest lane.
pub const MOST_LANE: u64 = 255;

// The least place with bit 62 or 63.
pub const LEAST_FLAGGED: u64 = 4611686018427387904;

// The last span number from which on the guide alone takes no push and no flush.
pub const LAST_SPAN_LIMIT: u32 = 4294967264;

// The mark of a place that a registration wrote, and of one that was set.
pub const MARK_WRITTEN: u16 = 32768;

pub const MARK_SET: u16 = 49152;

// What a span number is multiplied by in a location that is one number: above every position.
pub const LOCATION_RADIX: u64 = 4294967296;

// What the tally's sum is divided by in the average.
pub const AVERAGE_DIVISOR: f32 = 65000.0;

// How many counts for low parallelisms a summary has, and how many sums of thousands.
pub const LOW_COUNTS: usize = 128;

pub const SUMS_OF_THOUSANDS: usize = 65;

// The most bytes of a job, and the bytes that the program lends for a listing.
pub const MOST_JOB_BYTES: usize = 65536;

pub const PROGRAM_LISTING_BYTES: usize = 65536;

// What a listing's length, or a refusal's line, is multiplied by in the number that a host gets.
pub const REPLY_RADIX: u64 = 64;

// What an input is multiplied by where it and a place are told as one number: above every place.
pub const PLACE_RADIX: u64 = 16777216;

// The storage that a job is run in: its greatest P and V, and W.
pub const JOB_PARALLELISM: usize = 64;

pub const JOB_PLACES: usize = 512;

pub const JOB_POOL: usize = 4096;

// The refusals, and the number of each.
#[derive(Clone, Copy, PartialEq, Eq)]
pub enum Refusal {
    OutOfRange = 1,
    TooShort = 2,
    TooManyNumbers = 3,
    FlaggedPlace = 4,
    UnknownPlace = 5,
    RepeatedOutput = 6,
    Closed = 7,
    TakenPlace = 8,
    TooManyRegistrations = 9,
    FullPool = 10,
    TooManyFlushes = 11,
    StillWaiting = 12,
    NotHeld = 13,
    GuideExhausted = 14,
    Malformed = 15,
    LongJob = 16,
    LongListing = 17,
    UnknownLane = 18,
    NeverAccepted = 19,
    NotWaiting = 20,
    ProfileBreach = 21,
}

impl From<Refusal> for u32 {
    ghost from_gives = { λ x r. r ≡ number_of x };

    fn from(x: Refusal) -> u32 {
        x as u32
    }
}

impl From<Refusal> for u64 {
    ghost from_gives = { λ x r. r ≡ number_of x };

    fn from(x: Refusal) -> u64 {
        x as u64
    }
}

// The number that a call answers with: 0, or the refusal's.
pub fn number<T>(answer: &Result<T, Refusal>) -> u64
    ensures { result ≡ number answer.now }
{
    match answer {
        Ok(_) => 0,
        Err(x) => u64::from(*x),
    }
}
