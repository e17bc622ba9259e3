//! Settings that a station takes, and those that it refuses.

use crate::calls::station;
use crate::steps::SETTINGS;
use std::alloc::Global;
use x25_station::{Cfg, Ranges, Role, StationError};

/// k, N2, channels and the longest message, and whether they are in their ranges.
static ROWS: [(u8, u8, u16, u16, bool); 9] = [
    (0, 1, 1, 1, false),
    (8, 1, 1, 1, false),
    (1, 0, 1, 1, false),
    (1, 1, 0, 1, false),
    (1, 1, 4096, 1, false),
    (1, 1, u16::MAX, 1, false),
    (1, 1, 1, 0, false),
    (1, 1, 1, 1, true),
    (7, 255, 4095, 65_535, true),
];

fn refusal(alloc: Global, cfg: Cfg) -> Option<StationError> {
    station(alloc, Role::Dte, cfg).err()
}

#[test]
fn a_setting_out_of_its_range_is_refused(rt: HostRuntime) {
    for &(k, n2, channels, message, is_fine) in &ROWS {
        let wanted = if is_fine {
            None
        } else {
            Some(StationError::BadConfig)
        };
        let cfg = Cfg {
            k,
            n2,
            channels: Ranges {
                message,
                ..Ranges::two_way(channels)
            },
            ..SETTINGS
        };
        assert_eq!(rt;
            refusal(rt.alloc(), cfg),
            wanted,
            "{k} {n2} {channels} {message}"
        );
    }
}
