pub const EPOCH: u8 = 1;

pub const OPENED: u8 = 2;

pub const CLOSED: u8 = 3;

pub const UPDATE: u8 = 4;

pub const COMMIT: u8 = 5;

pub const ROLLBACK: u8 = 6;
