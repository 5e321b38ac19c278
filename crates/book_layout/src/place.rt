// The first byte of each field of a record (document 01, "Book").

// The head.
pub const USED: usize = 0;

pub const FIRST_USER: usize = 4;

// Users and entries.
pub const NEXT: usize = 0;

pub const KIND: usize = 4;

// A user.
pub const CLASS: usize = 5;

pub const PLANT: usize = 6;

pub const OPTION: usize = 7;

pub const NUMBER: usize = 8;

pub const FIRST_ENTRY: usize = 12;

pub const POWER: usize = 16;

pub const ACTIVATION_YEAR: usize = 20;

pub const ACTIVATION_MONTH: usize = 22;

pub const ISLAND: usize = 23;

pub const OPEN_YEAR: usize = 24;

pub const RUNS: usize = 26;

pub const LATER_RUNS: usize = 27;

pub const CHARGED: usize = 28;

pub const CREDIT: usize = 32;

pub const ADVANCES: usize = 40;

pub const HALF1: usize = 48;

pub const HALF2: usize = 52;

pub const REST: usize = 56;

pub const LATER_ADVANCES: usize = 64;

// An entry.
pub const YEAR: usize = 6;

pub const OWNER: usize = 64;

pub const WITHHELD: usize = 68;

// An advance.
pub const RUN: usize = 5;

pub const TICKS: usize = 8;

pub const BOOKED: usize = 76;

// A closing.
pub const CLOSING_OPTION: usize = 5;

pub const VALUE: usize = 8;

pub const COST: usize = 16;

pub const FLAT_RATE: usize = 24;

pub const CONTRIBUTION: usize = 32;

pub const LIQUIDATION: usize = 40;

pub const LAPSED: usize = 48;

pub const BALANCE: usize = 56;
