/// What a layer is told of its link where its user asks something.
#[derive(Clone, Copy, Debug, PartialEq, Eq)]
pub struct LinkState {
    pub is_up: bool,
    /// 256 packets wait.
    pub is_full: bool,
}
