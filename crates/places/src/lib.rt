// Accounts, their sections and the places of a series: each array of a series has an element for each place. The rules: how many
// places there are, and which are an account's.
#![tactic(auto)]

use terms::bounds::ACCOUNTS;

// The sections of an account's register, 0 and 1.
pub const SECTIONS: usize = 2;

// An account has a place for each of its sections.
pub const PLACES: usize = ACCOUNTS * SECTIONS;
