/// A leg of a call: the one by which it came, or the one by which it goes on.
#[derive(Clone, Copy, Debug, PartialEq, Eq)]
pub enum Side {
    Near,
    Far,
}
