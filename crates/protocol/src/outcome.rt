// The outcomes of deliveries: no transaction has ended by it, a read has, ordinary or fast, or a
// write has, alone or in a mixed transaction.
// Stay numbers: `Delivered` hands them to C, and condition 3's theorems speak of 0, 1 and 2.

pub const NONE_ENDED: u64 = 0;

pub const READ_ENDED: u64 = 1;

pub const WRITE_ENDED: u64 = 2;
