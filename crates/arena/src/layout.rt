/// The place of the head's address.
pub const HEAD: u64 = 0;

/// The place of the number that the next draw begins at.
pub const NEXT: u64 = 1;

/// The place of the next ticket.
pub const TICKET: u64 = 2;

/// The place of the announce word of holder 0. Those of the others follow, one word each.
pub const ANNOUNCED: u64 = 3;
