/// What is found for a called address.
#[derive(Clone, Copy, Debug)]
pub struct Found<'a> {
    /// The numbers of the lines that are tried in turn.
    pub lines: &'a [u8],
    /// The digits of the address that goes on: these, which are what the prefix becomes,
    pub becomes: &'a [u8],
    /// and these, which follow the prefix in the called address.
    pub rest: &'a [u8],
}
