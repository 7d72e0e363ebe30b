// The limits of a plan.

// At most as many associations.
pub const ASSOCIATIONS: usize = 128;
// At most as many codes in all.
pub const PLACES: usize = 4096;
// At most as many codes in an association.
pub const CODES: usize = 256;
