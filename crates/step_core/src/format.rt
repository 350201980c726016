// Where the words lie: the fixed words from the front on, then each block's own words.
ghost use Rattle.std.specs.Prelude.{◌≡◌, ◌+◌, ◌*◌, ◌<◌, ◌^◌};
ghost use Rattle.step_core.specs.Format.{frozen_word, mutable_word, row_address};

/// The word that holds the address of the head generation.
pub const HEAD: u64 = 0;

/// The word that holds the number of the first word never drawn.
pub const NEXT: u64 = 1;

/// The word that holds the next ticket, 0 at opening.
pub const TICKET: u64 = 2;

/// The first announce word. Each pass has one, and the arena begins behind the last.
pub const FIRST_ANNOUNCED: u64 = 3;

/// The first bucket word of a generation, counted from the generation's address.
pub const FIRST_BUCKET: u64 = 2;

/// The first key of a row, counted from the row's address.
pub const FIRST_KEY: u64 = 3;

/// The factor of a key's spot: 2^64 divided by the golden ratio, as in multiplicative hashing
/// (Knuth, The Art of Computer Programming, volume 3, section 6.4).
pub const SPOT_FACTOR: u64 = 11400714819323198485;

/// The greatest exponent of a generation.
pub const MAX_EXPONENT: u32 = 24;

/// The most keys that a round may be opened with.
pub const MAX_KEYS: usize = 1 << 24;

/// The most words of one draw.
pub const MAX_DRAW: u64 = 1 << 28;

/// The number of words of an operation.
pub const OP_LEN: u64 = 5;

/// The most passes of a round.
pub const MAX_SEATS: u32 = 64;

/// The most words of a round, opening and room.
pub const MAX_WORDS: u64 = 1 << 28;

/// The most calls that a pass begins.
pub const MAX_CALLS: u64 = 1 << 48;

/// The most turns of a plan, tried or helped.
pub const MAX_TURNS: u32 = 1_000_000;

/// The bucket word that names a mutable row: twice the row's address.
pub fn mutable_word(row: u64) -> u64
    requires { 2 * row < 2 ^ 64 }
    ensures { result ≡ mutable_word row }
{
    2 * row
}

/// The word of the same bucket once it is frozen. One that is frozen already stays.
pub fn frozen_word(word: u64) -> u64
    ensures { result ≡ frozen_word word }
{
    word | 1
}

/// The address of the row that a bucket word names, whether the bucket is frozen or not.
pub fn row_address(word: u64) -> u64
    ensures { result ≡ row_address word }
{
    word / 2
}

/// The word of a generation that holds the address of its predecessor, or 0. At the generation's address
/// itself stands its exponent.
pub fn predecessor_place(generation: u64) -> u64
    requires { generation + 1 < 2 ^ 64 }
    ensures { result ≡ generation + 1 }
{
    generation + 1
}

/// The word of a row that holds the address of its operation, or 0. At the row's address itself
/// stands the number of its keys.
pub fn op_place(row: u64) -> u64
    requires { row + 1 < 2 ^ 64 }
    ensures { result ≡ row + 1 }
{
    row + 1
}

/// The word of a row that holds its key number `i`, counted from 0.
pub fn key_place(row: u64, i: u64) -> u64
    requires { row + FIRST_KEY + i < 2 ^ 64 }
    ensures { result ≡ row + FIRST_KEY + i }
{
    row + FIRST_KEY + i
}
