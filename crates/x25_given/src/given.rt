ghost use Rattle.std.specs.Prelude.{◌≡◌};
ghost use Rattle.x25_given.specs.Given.{may_give, plain_given};

use x25_packet::own_facilities;

/// The most octets of facilities: a field has at most 109, and six are the station's own. ITU-T X.25 (10/96), section
/// 7.1.
pub(crate) const MOST_FACILITIES: usize = 103;

/// The most octets of user data, as with fast select. ITU-T X.25 (10/96), section 6.16.
pub(crate) const MOST_USER: usize = 128;

/// What a user gives beside a packet of his own: facilities, which go behind those that a station writes itself, user
/// data of an acceptance or a clearing, and the D bit of a call or an acceptance.
#[derive(Clone, Copy, Debug)]
pub struct Given<'a> {
    pub facilities: &'a [u8],
    pub user: &'a [u8],
    pub d: bool,
}

impl<'a> Given<'a> {
    /// Whether it may be given: whole facilities of all classes, at most 103 octets, but packet sizes and window sizes
    /// before a marker, which are the station's own; and at most 128 octets of user data.
    pub fn is_allowed(&self) -> bool
        ensures { result ≡ may_give (plain_given self.now) }
    {
        let Some(own) = own_facilities(self.facilities) else {
            return false;
        };
        self.facilities.len() <= MOST_FACILITIES
            && (own.packet_size.is_none()
                && (own.window_size.is_none() && self.user.len() <= MOST_USER))
    }
}
