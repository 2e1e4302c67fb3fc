// The kinds of messages in flight (document 01: in the pile), as the first word of a message and a
// delivery's answer have them.
// Stay numbers: they are words of the lent block, and `kind_in` and `Delivered` promise numbers.

pub const PREPARE: u64 = 1;

pub const PREPARED: u64 = 2;

pub const COMMIT: u64 = 3;

pub const GET: u64 = 4;

pub const GOT: u64 = 5;

pub const FIRST_GET: u64 = 6;

pub const FIRST_REPLY: u64 = 7;
