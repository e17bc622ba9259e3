//! Each refusal has one number, in all crates.

use x25_layer::LayerError;
use x25_link::LinkError;
use x25_station::StationError;

static NUMBERS: [(StationError, u8); 8] = [
    (StationError::Layer(LayerError::NotUp), 9),
    (StationError::Link(LinkError::NotRunning), 11),
    (StationError::Link(LinkError::Closed), 13),
    (StationError::BadConfig, 14),
    (StationError::Link(LinkError::AlreadyUp), 15),
    (StationError::Layer(LayerError::Restarting), 40),
    (StationError::Layer(LayerError::NoSuchChannel), 42),
    (StationError::NoMemory, 70),
];

#[test]
fn each_refusal_has_its_number(rt: HostRuntime) {
    for &(error, number) in &NUMBERS {
        assert_eq!(rt; error.number(), number, "{error:?}");
    }
}
