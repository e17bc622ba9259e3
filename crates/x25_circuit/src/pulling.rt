//! The data packets that are sent. ITU-T X.25 (10/96), sections 4.3.4 and 4.4.1.
ghost use Rattle.std.specs.Prelude.{◌≡◌, ◌≤◌, length, IfSome};
ghost use Rattle.std.specs.Borrow.{sem};
ghost use Rattle.x25_packet.specs.Packet.{plain};
ghost use Rattle.x25_circuit.specs.Circuit.{CircuitSettings};
ghost use Rattle.x25_circuit.specs.Circuit.{Circuit as Channel};
ghost use Rattle.x25_circuit.specs.Calling.{pulled};
ghost use Rattle.x25_circuit.specs.code.DataPacket.{plain_data, plain_pulled};
ghost use Rattle.x25_circuit.specs.code.Replies.{IsSendable};
ghost use Rattle.x25_circuit.specs.code.FitsCircuit.{FitsCircuit, clears_of, resets_of};
ghost use Rattle.x25_circuit.specs.Pulling.{packet_with, EndsPulled};

use crate::circuit::Circuit;
use crate::state::State;
use crate::transfer::Header;
use x25_packet::Packet;

/// A data packet that is sent: what it says beside its user data, and the user data, which is borrowed from the
/// message.
#[derive(Drop)]
pub struct DataPacket<'a> {
    pub header: Header,
    pub user: &'a [u8],
}

impl<'a> DataPacket<'a> {
    /// The packet, on channel 1.
    pub fn packet(&self) -> Packet<'a>
        ensures { plain result ≡ plain_data self.now }
    {
        Packet::Data {
            channel: 1,
            marks: self.header.marks,
            m: self.header.m,
            ps: self.header.ps,
            pr: self.header.pr,
            user: self.user,
        }
    }
}

impl Circuit {
    /// The next data packet, where a message waits, the other end is ready and fewer packets than the window are
    /// unacknowledged. Its user data is borrowed from the message. It takes no memory.
    pub fn pull(&mut self) -> Option<DataPacket<'_>>
        ensures packet { (c : CircuitSettings) (x : Channel) → FitsCircuit c self.old x
            → plain_pulled result ≡ (pulled c x).packet }
        ensures range { IsSendable (plain_pulled result) }
        ensures* after { sem 𝓛 (EndsPulled self.entry) }
    {
        let header = self.advance()?;
        Some(DataPacket {
            header,
            user: self.transfer.queue.cutter.lent(),
        })
    }

    // Sends the next data packet. Its user data is lent by the queue.
    fn advance(&mut self) -> Option<Header>
        ensures next { (c : CircuitSettings) (x : Channel) → FitsCircuit c self.old x
            → FitsCircuit c self.new (pulled c x).next }
        ensures packet { (c : CircuitSettings) (x : Channel) → FitsCircuit c self.old x
            → packet_with result self.new.transfer.queue.cutter.lent ≡ (pulled c x).packet }
        ensures short { IfSome result (λ header. length self.new.transfer.queue.cutter.lent ≤ 4096) }
        ensures clears { clears_of self.new ≡ clears_of self.old }
        ensures resets { resets_of self.new ≡ resets_of self.old }
    {
        if self.transfer.queue.len() == 0 {
            return None;
        }
        match self.state {
            State::Open => {
                let terms = self.outgoing();
                self.transfer.advance(terms)
            }
            _ => None,
        }
    }
}
