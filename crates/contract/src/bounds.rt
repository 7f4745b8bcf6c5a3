// The bounds of a code's parts, and the lengths that follow from them, in bytes.
use terms::bounds::MAX_STRIKE;

// Capitals, a hyphen, the month, a point, two digits of the year.
pub const MAX_NAME: usize = 8;

pub const MONTHS: u64 = 12;

pub const MAX_FUTURE: usize = MAX_NAME + 1 + 2 + 1 + 2;

// DDMMYY; type and category.
pub const DATE: usize = 2 + 2 + 2;

pub const KIND: usize = 1 + 1;

// One blank, in the style that has it.
pub const MAX_STYLE_TEXT: usize = 1;

// The least number of units that no strike has. A strike with hundredths has one digit less, a point and two digits.
pub const TOO_MANY_UNITS: u64 = MAX_STRIKE / 100 + 1;

pub const MAX_STRIKE_TEXT: usize = 5 + 1 + 2;

// The futures code, M, the date, type and category, the blank, and the strike.
pub const MAX_CODE: usize = MAX_FUTURE + 1 + DATE + KIND + MAX_STYLE_TEXT + MAX_STRIKE_TEXT;
