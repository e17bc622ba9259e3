//! Packet sizes and windows of a call, as a C program has them.
ghost use Rattle.std.specs.Prelude.{◌≡◌};
ghost use Rattle.x25_c.specs.Sizes.{no_sizes, params_in, sizes_told};

use x25_layer::Params;

/// Packet sizes, as powers of 2, and windows, of what the called and what the calling end sends; all 0 where none are
/// named.
#[repr(C)]
#[derive(Clone, Copy)]
pub struct Sizes {
    pub size_called: u8,
    pub size_calling: u8,
    pub window_called: u8,
    pub window_calling: u8,
}

impl Sizes {
    /// None are named.
    pub(crate) fn none() -> Sizes
        ensures { result ≡ no_sizes }
    {
        Sizes {
            size_called: 0,
            size_calling: 0,
            window_called: 0,
            window_calling: 0,
        }
    }

    pub(crate) fn of(params: Params) -> Sizes
        ensures { result ≡ sizes_told params }
    {
        Sizes {
            size_called: params.size_called,
            size_calling: params.size_calling,
            window_called: params.win_called,
            window_calling: params.win_calling,
        }
    }

    /// Those that are named, if any is.
    pub(crate) fn params(self) -> Option<Params>
        ensures { result ≡ params_in self }
    {
        if self.size_called == 0
            && self.size_calling == 0
            && self.window_called == 0
            && self.window_calling == 0
        {
            return None;
        }
        Some(Params {
            size_called: self.size_called,
            size_calling: self.size_calling,
            win_called: self.window_called,
            win_calling: self.window_calling,
        })
    }
}
