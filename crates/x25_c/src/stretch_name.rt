//! The name of a stretch, as a C program takes it.
ghost use Rattle.std.specs.Prelude.{◌≡◌};
ghost use Rattle.x25_layer.specs.code.FitsLayer.{plain_stretch};
ghost use Rattle.x25_station.specs.code.PlainEntry.{plain_name};
ghost use Rattle.x25_c.specs.StretchName.{Names, name_told, no_name};

use x25_layer::Stretch;

/// The name of a stretch: the restarts done since link set-up, the clears done since the last of these, and the resets
/// done since the last of all these.
#[repr(C)]
#[derive(Clone, Copy)]
pub struct StretchName {
    pub restarts: u64,
    pub clears: u64,
    pub resets: u64,
}

impl StretchName {
    pub(crate) fn none() -> StretchName
        ensures { result ≡ no_name }
    {
        StretchName {
            restarts: 0,
            clears: 0,
            resets: 0,
        }
    }

    pub(crate) fn of(stretch: &Stretch) -> StretchName
        ensures { result ≡ name_told (plain_name stretch.now) }
    {
        StretchName {
            restarts: stretch.restarts,
            clears: stretch.clears,
            resets: stretch.resets,
        }
    }
}

/// Whether a stretch is open; then its name is written.
pub(crate) fn tell_name(stretch: Option<Stretch>, name: &mut StretchName) -> bool
    ensures { Names (plain_stretch stretch) result name.old name.new }
{
    let Some(stretch) = stretch else {
        return false;
    };
    *name = StretchName::of(&stretch);
    true
}
