//! What is given beside a call, as a C program hands it over.
ghost use Rattle.std.specs.Prelude.{◌≡◌, option_map};
ghost use Rattle.x25_given.specs.Given.{plain_given};
ghost use Rattle.x25_c.specs.Given.{given_by, gives_nothing};

use x25_station::Given as StationGiven;

/// Facilities, user data and the D bit beside a call, an acceptance or a clearing; all zeros where nothing is given.
/// `later` and `more` are room for what later versions give.
#[repr(C)]
#[derive(Clone, Copy)]
pub struct Given<'a> {
    pub facilities: &'a [u8],
    pub user: &'a [u8],
    pub d: bool,
    pub later: u64,
    pub more: u64,
}

impl<'a> Given<'a> {
    fn is_nothing(&self) -> bool
        ensures { result ≡ gives_nothing self.now }
    {
        self.facilities.is_empty() && (self.user.is_empty() && !self.d)
    }

    /// What a station is given, where anything is.
    pub(crate) fn beside(self) -> Option<StationGiven<'a>>
        ensures { option_map plain_given result ≡ given_by self.entry }
    {
        if self.is_nothing() {
            return None;
        }
        let Given {
            facilities,
            user,
            d,
            ..
        } = self;
        Some(StationGiven {
            facilities,
            user,
            d,
        })
    }
}
