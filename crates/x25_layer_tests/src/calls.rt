//! The calls of a layer without their claims: a body that makes one of the layer's own carries all that it promises.

use std::alloc::Global;
use x25_circuit::{Octets, Request};
use x25_layer::{Layer, LayerError, LinkState, Params, Proposal, Ranges, Report, Role};

// A value in a place of its own: a body that holds the box lets go of it by one call, and not of each part of the
// value, and so does one that doesn't know what it is.
fn boxed<T: Drop>(alloc: Global, value: T) -> Option<Box<T>> {
    Box::new(alloc, value).ok()
}

/// A layer with these channels, whose calls have at most 16 octets of user data.
pub fn layer_with(alloc: Global, role: Role, channels: Ranges) -> Result<Box<Layer>, LayerError> {
    boxed(alloc, Layer::with(alloc, role, channels, false)?).ok_or(LayerError::NoMemory)
}

/// A layer of so many channels, all of them two-way.
pub fn layer(alloc: Global, role: Role, channels: u16) -> Result<Box<Layer>, LayerError> {
    layer_with(alloc, role, Ranges::two_way(channels))
}

pub fn up(layer: &mut Layer) {
    layer.up();
}

/// Asks for a restart with a cause, and diagnostic 7.
pub fn restart(layer: &mut Layer, link: LinkState, cause: u8) -> Result<(), LayerError> {
    layer.restart(link, cause, 7)
}

pub fn pull(layer: &mut Layer, behind: u16) -> Option<u16> {
    layer.pull(behind)
}

pub fn ask(
    layer: &mut Layer,
    link: LinkState,
    channel: u16,
    request: Request,
) -> Result<(), LayerError> {
    layer.ask(link, channel, request)
}

/// A call with the usual sizes and windows, and why it would be refused.
pub fn call(
    layer: &mut Layer,
    link: LinkState,
    (called, calling): (&str, &str),
    user: &[u8],
) -> (Option<LayerError>, Result<u16, LayerError>) {
    let proposal = Proposal::new(Params::default(), false);
    let told = layer.call_refusal(link, called, calling, user, &proposal);
    (told, layer.call(link, called, calling, user, &proposal))
}

/// Memory for a message.
pub fn message(alloc: Global) -> Option<Octets> {
    Octets::new(alloc).ok()
}

/// Octets are handed up, and with `wide` are read in all forms. None where a count is full.
pub fn hear<'a>(
    layer: &mut Layer,
    wide: bool,
    octets: &'a [u8],
    message: &mut Octets,
) -> Option<Report<'a>> {
    if layer.full() {
        return None;
    }
    let form = if wide { Some(layer.form(octets)) } else { None };
    Some(layer.hear(&form, octets, message))
}
