//! Octets that the link handed up. ITU-T X.25 (10/96), sections 3.3 and 4, and Annex C.
ghost use Rattle.std.specs.Prelude.{◌≡◌, [], IfOk, Some, is_some};
ghost use Rattle.x25_packet.specs.Packet.{plain};
ghost use Rattle.x25_packet.specs.Spelling.{HasChannel, longest_user};
ghost use Rattle.x25_circuit.specs.code.Replies.{plain_read};
ghost use Rattle.x25_layer.specs.code.Answering.{Hears};
ghost use Rattle.x25_layer.specs.Full.{HaveCountsLeft, IsNotFull};
ghost use Rattle.x25_layer.specs.Receiving.{IsReadBy, hears_on, layer_hears};

use crate::layer::Layer;
use crate::report::Report;
use x25_circuit::{Octets, Reply};
use x25_packet::{
    Form, Packet, PacketError, channel, decode, longest_user, read, taking_keeps_octets,
};

impl Layer {
    // A packet of a channel, or octets that spell none. They are dropped while a restart is under way, and where the
    // channel isn't configured.
    fn hear_on<'a>(
        &mut self,
        channel: u16,
        read: &Result<Packet<'a>, PacketError>,
        message: &mut Octets,
    ) -> Report<'a>
        requires kind { IfOk read.now (λ packet. HasChannel (plain packet)) }
        requires left { HaveCountsLeft self.old.circuits.items }
        requires none { self.old.sheet ≡ [] }
        ensures { Hears self.old self.new result message.old message.new
            (λ c l. hears_on c l l.restarting channel (plain_read read.now)) }
    {
        if self.restarting {
            return Report::Nothing;
        }
        if self.circuit(channel).is_none() {
            return Report::Nothing;
        }
        let place = usize::from(channel) - 1;
        let circuit = &mut self.circuits[place];
        let Reply {
            packet,
            collided,
            notice,
        } = circuit.hear(read, message);
        let (clears, resets) = circuit.counts();
        self.busy.note(channel, !circuit.is_idle());
        self.counts_left &= (clears < u64::MAX) & (resets < u64::MAX);
        self.sheet.spell_owed(channel, packet);
        if notice.is_none() & !collided {
            return Report::Nothing;
        }
        Report::Channel {
            channel,
            collided,
            notice,
        }
    }

    /// The packet that octets spell in any form, with as much user data in a CALL as this end takes. The errors of
    /// `decode` of `x25_packet`.
    pub fn form<'a>(&self, octets: &'a [u8]) -> Result<Form<'a>, PacketError>
        ensures { IsReadBy self.now octets.now (Some result) }
    {
        decode(longest_user(self.long_data), octets)
    }

    /// Takes octets that the link handed up, and leaves the packet that is owed for them to be put. It answers what is
    /// reported to the users, `Report::Nothing` exactly where that is nothing; a stretch has its name after the call.
    ///
    /// Without `form` they are read in the form that a station writes alone. With it they were read in any form that
    /// X.25 has, and are taken for a packet of that form (`read` of `x25_packet`).
    ///
    /// No count is full. Octets that spell no packet go to the channel that the first two name. They are dropped where
    /// they name no configured channel, and, but for RESTART and its confirmation, while this end's restart isn't
    /// confirmed.
    ///
    /// It takes no memory: the octets of a message that is told are those of `message` then. Where none is told, those
    /// are as they were.
    #[tactic(auto, using(crate::proofs::HearLemmas::reported_beside))]
    pub fn hear<'a>(
        &mut self,
        form: &Option<Result<Form<'a>, PacketError>>,
        octets: &'a [u8],
        message: &mut Octets,
    ) -> Report<'a>
        requires form { IsReadBy self.old octets.now form.now }
        requires left { IsNotFull self.old }
        ensures { Hears self.old self.new result message.old message.new
            (λ c l. layer_hears c (is_some form.now) l octets.now) }
    {
        self.counts_left = true;
        self.sheet.clear();
        let Some(channel) = channel(octets) else {
            return Report::Nothing;
        };
        taking_keeps_octets();
        let read = read(form, longest_user(self.long_data), octets);
        match &read {
            Ok(Packet::Restart { cause, diagnostic }) => self.hear_restart(*cause, *diagnostic),
            Ok(Packet::RestartConf) => self.hear_restart_conf(),
            _ => self.hear_on(channel, &read, message),
        }
    }
}
