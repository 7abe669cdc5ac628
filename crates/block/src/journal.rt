// Where the fields of a journal block stand, document 01's 'Journal block', after the letters DEAD.
pub const COUNT: usize = 4;

pub const FALSIFIED: usize = 8;

pub const NUMBER: usize = 12;

pub const DEPTH: usize = 16;

pub const BACK: usize = 18;

pub const CONSTANT: usize = 20;

pub const COEFFICIENTS: usize = 24;

pub const USED: usize = 152;
