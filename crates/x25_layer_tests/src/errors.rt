//! Each refusal has one number, in all crates.

use x25_circuit::CircuitError;
use x25_layer::LayerError;

static NUMBERS: [(LayerError, u8); 9] = [
    (LayerError::NotUp, 9),
    (LayerError::QueueFull, 10),
    (LayerError::BadConfig, 14),
    (LayerError::Circuit(CircuitError::WrongState), 30),
    (LayerError::Circuit(CircuitError::Full), 31),
    (LayerError::Restarting, 40),
    (LayerError::NoFreeChannel, 41),
    (LayerError::NoSuchChannel, 42),
    (LayerError::NoMemory, 70),
];

#[test]
fn each_refusal_has_its_number(rt: HostRuntime) {
    for &(error, number) in NUMBERS.iter() {
        assert_eq!(rt; error.number(), number, "{error:?}");
    }
}
