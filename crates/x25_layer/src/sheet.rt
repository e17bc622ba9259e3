//! The packet that a call of a layer leaves to be put into its link.
ghost use Rattle.std.specs.Prelude.{◌≡◌, ◌≤◌, length};
ghost use Rattle.x25_packet.specs.Packet.{accept, call, plain};
ghost use Rattle.x25_packet.specs.Spelling.{IsChannel, IsInRange, spelling_of};
ghost use Rattle.x25_circuit.specs.code.Replies.{IsControl, IsSendable, plain_owed, plain_sent};
ghost use Rattle.x25_layer.specs.Layer.{packet_on};
ghost use Rattle.x25_layer.specs.code.Answering.{spelled};

use std::alloc::{AllocError, Global};
use std::marker::Model;
use x25_circuit::{Owed, Requested};
use x25_frame::N1;
use x25_packet::{Digits, FacilityField, Packet, encode, encode_accept, encode_call};

/// Memory for one packet: its octets, or none.
#[derive(Drop)]
pub(crate) struct Sheet {
    octets: Vec<u8>,
}

impl Model for Sheet {
    ghost use Rattle.std.specs.Prelude.{◌≡◌, ℕ, List, vec_capacity};

    ghost Value = { List ℕ };

    ghost view = { λ s. s.octets.items };

    ghost invariant = { λ s. vec_capacity s.octets ≡ 4099 };
}

impl Sheet {
    ghost use Rattle.std.specs.Prelude.{[], IfOk};

    /// A sheet for 4,099 octets. Err: no memory.
    pub(crate) fn new(alloc: Global) -> Result<Sheet, AllocError>
        ensures { IfOk result (λ s. s ≡ []) }
    {
        let octets = Vec::with_capacity(alloc, N1)?;
        Ok(Sheet { octets })
    }

    /// The octets of the packet.
    pub(crate) fn as_slice(&self) -> &[u8]
        ensures { result.now ≡ self.now }
    {
        &self.octets
    }

    /// No packet is to be put.
    #[inline(always)]
    pub(crate) fn clear(&mut self)
        ensures { self.new ≡ [] }
    {
        self.octets.clear();
    }

    /// This packet is to be put.
    #[inline(always)]
    #[tactic(auto, using(crate::proofs::LengthLemmas::spelled_long))]
    pub(crate) fn spell(&mut self, packet: &Packet)
        requires { IsInRange 128 (plain packet.now) }
        ensures put { self.new ≡ spelling_of (plain packet.now) }
        ensures long { length self.new ≤ 4099 }
    {
        self.octets.clear();
        encode(packet, &mut self.octets).unwrap();
    }

    /// A CALL of these is to be put.
    #[tactic(auto, using(crate::proofs::LengthLemmas::spelled_long))]
    fn spell_call(
        &mut self,
        channel: u16,
        called: &Digits,
        calling: &Digits,
        facilities: &FacilityField,
        user: &[u8],
    )
        requires { IsInRange 128 (call channel called.now calling.now facilities.now user.now) }
        ensures { self.new ≡ spelling_of (call channel called.now calling.now facilities.now user.now) }
    {
        self.octets.clear();
        encode_call(channel, called, calling, facilities, user, &mut self.octets).unwrap();
    }

    /// An ACCEPT with these facilities is to be put.
    #[tactic(auto, using(crate::proofs::LengthLemmas::spelled_long))]
    fn spell_accept(&mut self, channel: u16, facilities: &FacilityField)
        requires { IsInRange 128 (accept channel facilities.now) }
        ensures { self.new ≡ spelling_of (accept channel facilities.now) }
    {
        self.octets.clear();
        encode_accept(channel, facilities, &mut self.octets).unwrap();
    }

    /// The packet that a request of the user sends, where it sends one, is to be put on its channel.
    #[inline(always)]
    pub(crate) fn spell_sent(&mut self, channel: u16, packet: Option<Requested<'_>>)
        requires channel { IsChannel channel }
        requires range { IsSendable (plain_sent packet) }
        requires control { IsControl (plain_sent packet) }
        ensures put { self.new ≡ spelled (packet_on channel (plain_sent packet.entry)) }
        ensures short { length self.new ≤ 260 }
    {
        let Some(packet) = packet else {
            self.clear();
            return;
        };
        match packet {
            Requested::Call {
                called,
                calling,
                facilities,
                user,
            } => self.spell_call(channel, &called, &calling, &facilities, user),
            Requested::Accept { facilities } => self.spell_accept(channel, &facilities),
            Requested::Interrupt { user } => self.spell(&Packet::Interrupt { channel, user }),
            Requested::Owed(owed) => self.spell(&owed.packet(channel)),
        }
    }

    /// The packet that a circuit owes for one that came, where there is one, is to be put on its channel.
    #[inline(always)]
    pub(crate) fn spell_owed(&mut self, channel: u16, owed: Option<Owed>)
        requires channel { IsChannel channel }
        requires range { IsSendable (plain_owed owed) }
        ensures put { self.new ≡ spelled (packet_on channel (plain_owed owed)) }
        ensures short { length self.new ≤ 260 }
    {
        let Some(owed) = owed else {
            self.clear();
            return;
        };
        self.spell(&owed.packet(channel));
    }
}
