/// The marks of a data packet that are its message's: Q, the data qualifier, and D, by which confirmation of delivery
/// is asked. ITU-T X.25 (10/96), sections 4.3.3 and 4.3.6.
#[derive(Clone, Copy, Debug, PartialEq, Eq)]
pub struct Marks {
    pub q: bool,
    pub d: bool,
}
