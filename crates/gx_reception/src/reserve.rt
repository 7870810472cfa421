//! What a day keeps back: its last lines and records are for officers and readers.

/// The last line that a trader is given: the 4,096 behind it are kept for officers and readers.
pub const LAST_TRADERS_LINE: u16 = 61_439;

/// Once there are so many records nothing more is taken of traders: the 65,536 that a day has behind them are kept for
/// officers and readers.
pub const LAST_TRADERS_RECORD: u64 = 16_711_680;

/// So many logins of those who have no user's password are put on record in a run of a server; further ones are not, and
/// are not answered. They are a sixteenth of a day's records.
pub const MOST_DENIALS: u32 = 1_048_576;
