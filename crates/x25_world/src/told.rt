use x25_bits::Role;
use x25_station::Entries;

/// What a step of an end told.
#[derive(Drop)]
pub struct Entered {
    pub at: Role,
    pub entries: Entries,
}
