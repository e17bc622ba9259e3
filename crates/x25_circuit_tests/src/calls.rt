//! The calls of a circuit without their claims: a body that makes one of the circuit's own carries all that it
//! promises.
ghost use Rattle.std.specs.Prelude.{◌≡◌, true};
ghost use Rattle.x25_packet.specs.Packet.{plain};
ghost use Rattle.x25_packet.specs.Spelling.{HasChannel};

use std::alloc::Global;
use x25_circuit::{Circuit, CircuitError, Octets, Reply, Request, Requested, Role};
use x25_packet::{Packet, PacketError};

// A value in a place of its own: a body that holds the box lets go of it by one call, and not of each part of the
// value, and so does one that doesn't know what it is.
fn boxed<T: Drop>(alloc: Global, value: T) -> Option<Box<T>> {
    Box::new(alloc, value).ok()
}

/// A circuit in p1, with messages of so many octets at most.
pub fn circuit_with(alloc: Global, role: Role, longest: u16) -> Result<Box<Circuit>, CircuitError> {
    boxed(alloc, Circuit::with(alloc, role, false, longest)?).ok_or(CircuitError::NoMemory)
}

/// A circuit in p1.
pub fn circuit(alloc: Global, role: Role) -> Result<Box<Circuit>, CircuitError> {
    circuit_with(alloc, role, 65_535)
}

pub fn ask<'a>(
    circuit: &mut Circuit,
    request: Request<'a>,
) -> Result<Option<Requested<'a>>, CircuitError> {
    circuit.ask(request)
}

// Whether a packet is of a logical channel.
fn is_of_channel(packet: &Packet) -> bool
    ensures { result ≡ true → HasChannel (plain packet.now) }
{
    match packet {
        Packet::Restart { .. } | Packet::RestartConf => false,
        _ => true,
    }
}

/// Memory for a message.
pub fn message(alloc: Global) -> Result<Octets, CircuitError> {
    Ok(Octets::new(alloc)?)
}

/// A packet of a channel comes.
pub fn hear<'a>(
    circuit: &mut Circuit,
    packet: Packet<'a>,
    message: &mut Octets,
) -> Result<Reply<'a>, CircuitError> {
    let (clears, resets) = circuit.counts();
    if clears == u64::MAX || resets == u64::MAX || !is_of_channel(&packet) {
        return Err(CircuitError::WrongState);
    }
    Ok(circuit.hear(&Ok(packet), message))
}

/// Octets come that are too few for a packet.
pub fn hear_too_few(
    circuit: &mut Circuit,
    message: &mut Octets,
) -> Result<Reply<'static>, CircuitError> {
    let (clears, resets) = circuit.counts();
    if clears == u64::MAX || resets == u64::MAX {
        return Err(CircuitError::WrongState);
    }
    Ok(circuit.hear(&Err(PacketError::TooShort), message))
}
