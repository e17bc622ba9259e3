/// The name of a stretch of a channel: the restarts done since link set-up, the clears done since the last of these,
/// and the resets done since the last of all these (profile).
#[derive(Clone, Copy, Debug, PartialEq, Eq)]
pub struct Stretch {
    pub restarts: u64,
    pub clears: u64,
    pub resets: u64,
}
