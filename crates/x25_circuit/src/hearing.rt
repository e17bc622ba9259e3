//! Packets that come. ITU-T X.25 (10/96), sections 4.3.7 and 4.4.1, and Annex C.
ghost use Rattle.std.specs.Prelude.{◌≡◌, ℕ, ◌-◌, ◌^◌, ◌<◌, length, Some, None, true, false, IfOk};
ghost use Rattle.x25_packet.specs.Packet.{plain, user_data};
ghost use Rattle.x25_packet.specs.Spelling.{HasChannel, IsInRange};
ghost use Rattle.x25_circuit.specs.Circuit.{CircuitSettings};
ghost use Rattle.x25_circuit.specs.Circuit.{Circuit as Channel};
ghost use Rattle.x25_circuit.specs.Hearing.{unless, number_ground, hears_status, confirms, row_open};
ghost use Rattle.x25_circuit.specs.Hearing.{row_data, status, hears};
ghost use Rattle.x25_circuit.specs.code.FitsCircuit.{FitsCircuit, made_of, clears_of, resets_of};
ghost use Rattle.x25_circuit.specs.code.Replies.{RepliesBy, RepliesWith, packet_owed, plain_read};

use crate::circuit::Circuit;
use crate::codes::{INVALID_PR, INVALID_PS, NO_INTERRUPT};
use crate::notice::{Notice, Reply};
use crate::octets::Octets;
use crate::owed::Owed;
use crate::state::State;
use x25_packet::{Marks, Packet, PacketError, Seq, call_views};

impl Circuit {
    /// RR, or RNR where this end isn't ready, with P(R).
    pub(crate) fn status(&self) -> Owed
        ensures value { (c : CircuitSettings) (x : Channel) → FitsCircuit c self.now x
            → packet_owed 1 result ≡ status x.talk.own_ready (length x.talk.taken) }
        ensures range { IsInRange 128 (packet_owed 1 result) }
    {
        let pr = self.transfer.receiver.wanted();
        if self.transfer.own_ready {
            Owed::Rr { pr }
        } else {
            Owed::Rnr { pr }
        }
    }

    // RR or RNR.
    #[inline(always)]
    fn hear_status<'a>(&mut self, pr: Seq, is_ready: bool) -> Reply<'a>
        requires { made_of self.old ≡ true }
        ensures { RepliesBy self.old self.new result
            (λ c x. unless c x (number_ground x.talk pr.number) (hears_status x x.talk is_ready pr.number)) }
    {
        if !self.transfer.ack(pr) {
            return self.reset_for(INVALID_PR);
        }
        self.transfer.peer_ready = is_ready;
        Reply::nothing()
    }

    // INTERRUPT CONFIRMATION.
    fn hear_interrupt_conf<'a>(&mut self) -> Reply<'a>
        requires { made_of self.old ≡ true }
        ensures { RepliesBy self.old self.new result (λ c x. confirms c x x.talk self.old.transfer.interrupt_out) }
    {
        if !self.transfer.interrupt_out {
            return self.reset_for(NO_INTERRUPT);
        }
        self.transfer.interrupt_out = false;
        Reply::tells(Notice::InterruptDone)
    }

    // DATA.
    fn hear_data<'a>(
        &mut self,
        marks: Marks,
        m: bool,
        ps: Seq,
        pr: Seq,
        user: &[u8],
        message: &mut Octets,
    ) -> Reply<'a>
        requires made { made_of self.old ≡ true }
        ensures { RepliesWith self.old self.new result message.old message.new
            (λ c x. row_open c x x.talk (user_data 1 marks m ps.number pr.number user.now)) }
    {
        let size = self.flow.terms(!self.calls).size;
        if !self.transfer.ack(pr) {
            return self.reset_for(INVALID_PR);
        }
        if ps != self.transfer.receiver.wanted() {
            return self.reset_for(INVALID_PS);
        }
        if let Some(diagnostic) = self.transfer.partial.ground(size, user.len(), marks.q) {
            return self.reset_for(diagnostic);
        }
        self.transfer.receiver.accept(ps);
        if self.transfer.partial.join(marks, m, user, message) {
            return Reply {
                packet: Some(self.status()),
                collided: false,
                notice: Some(Notice::Delivered { marks }),
            };
        }
        Reply::owes(self.status())
    }

    // A packet of data transfer.
    #[tactic(auto, using(crate::proofs::TableLemmas::said_beside))]
    fn hear_transfer<'a>(&mut self, packet: &Packet<'a>, message: &mut Octets) -> Reply<'a>
        ensures { RepliesWith self.old self.new result message.old message.new
            (λ c x. row_data c x self.old.state (plain packet.now)) }
    {
        match self.state {
            State::Open => {}
            State::Resetting | State::Clearing => return Reply::nothing(),
            _ => return self.unexpected(),
        }
        match packet {
            Packet::Data {
                marks,
                m,
                ps,
                pr,
                user,
                ..
            } => self.hear_data(*marks, *m, *ps, *pr, user, message),
            Packet::Rr { pr, .. } => self.hear_status(*pr, true),
            Packet::Rnr { pr, .. } => self.hear_status(*pr, false),
            Packet::Interrupt { user, .. } => Reply::both(
                Owed::InterruptConf,
                Notice::Interrupted { user },
            ),
            Packet::InterruptConf { .. } => self.hear_interrupt_conf(),
            _ => Reply::nothing(),
        }
    }

    /// Takes what came for this channel, a packet or the error of octets that spell none, 20 to 26, and answers the
    /// packet to send and what is reported to the user, by the table of the circuit. The channel that the packet names
    /// isn't looked at.
    ///
    /// It takes no memory: the octets of a message that is told are those of `message` then. Where none is told, those
    /// are as they were.
    #[tactic(auto, using(crate::proofs::TableLemmas::said_beside))]
    pub fn hear<'a>(
        &mut self,
        read: &Result<Packet<'a>, PacketError>,
        message: &mut Octets,
    ) -> Reply<'a>
        requires kind { IfOk read.now (λ packet. HasChannel (plain packet)) }
        requires clears { clears_of self.old < 2 ^ 64 - 1 }
        requires resets { resets_of self.old < 2 ^ 64 - 1 }
        ensures { RepliesWith self.old self.new result message.old message.new
            (λ c x. hears c x (plain_read read.now)) }
    {
        let packet = match read {
            Ok(packet) => packet,
            Err(error) => return self.undecoded(*error),
        };
        match packet {
            Packet::Call { a, body, .. } => self.hear_call(*a, body),
            Packet::Accept { a, body, .. } => {
                self.hear_accept(call_views(*a, body).facilities.as_slice())
            }
            Packet::Clear {
                cause,
                diagnostic,
                ..
            } => self.hear_clear(*cause, *diagnostic),
            Packet::ClearConf { .. } => self.hear_clear_conf(),
            Packet::Reset {
                cause,
                diagnostic,
                ..
            } => self.hear_reset(*cause, *diagnostic),
            Packet::ResetConf { .. } => self.hear_reset_conf(),
            Packet::Data { .. }
            | Packet::Rr { .. }
            | Packet::Rnr { .. }
            | Packet::Interrupt { .. }
            | Packet::InterruptConf { .. } => self.hear_transfer(packet, message),
            Packet::Restart { .. } | Packet::RestartConf => unreachable!(),
        }
    }
}
