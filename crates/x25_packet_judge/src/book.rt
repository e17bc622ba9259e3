//! The packet layers of both ends and all their channels.
ghost use Rattle.std.specs.Prelude.{◌≡◌, IfOk, None, Some, true, false};
ghost use Rattle.x25_frame.specs.Frame.{plain as plain_frame};
ghost use Rattle.x25_packet.specs.{Packet.{plain}, Grammar.{form_in}};
ghost use Rattle.x25_packet_judge.specs.Book as definition;

use crate::channel::Channel;
use crate::channels::Channels;
use crate::item::item_of;
use crate::layers::{Layer, Layers, advance, hear};
use crate::packet_rule::PacketRule;
use std::alloc::{AllocError, Global};
use x25_bits::Role;
use x25_decode::Reading;
use x25_frame::Frame;
use x25_packet::{Kind, Packet, PacketError, channel, decode, longest_user, read};
use x25_possible::{Defaults, Packet as Item};

/// Which packets of both ends are followed, and what is known of the ends of the channels.
#[derive(Drop)]
pub struct Book {
    pub(crate) dte: Layer,
    pub(crate) dce: Layer,
    /// A channel on which nothing but RESTART and its confirmation was sent, by which these are judged.
    pub(crate) restarts: Channel,
    pub(crate) channels: Channels,
    /// The link was set up, and no packet was missed since then.
    pub is_whole: bool,
    pub(crate) defaults: Defaults,
}

/// What is noted of a packet: the end's RESTART, CLEAR or RESET goes again before its answer; or a channel isn't judged
/// from there on, of which 0 stands for all.
#[derive(Clone, Copy)]
pub enum Noted {
    Again,
    Unjudged(u16),
}

/// What is told of a packet: the rule that it breaks, what is noted of it, and whether it was judged.
#[derive(Clone, Copy)]
pub struct Verdict {
    pub rule: Option<PacketRule>,
    pub noted: Option<Noted>,
    pub is_judged: bool,
}

fn told(rule: PacketRule) -> Verdict
    ensures { result ≡ record { rule = Some rule; noted = None; is_judged = true } }
{
    Verdict {
        rule: Some(rule),
        noted: None,
        is_judged: true,
    }
}

/// Of a packet that wasn't judged.
pub(crate) fn passed(noted: Option<Noted>) -> Verdict
    ensures { result ≡ record { rule = None; noted = noted; is_judged = false } }
{
    Verdict {
        rule: None,
        noted,
        is_judged: false,
    }
}

/// Whether the format is that of packets modulo 8; those modulo 128 aren't read.
fn is_modulo_8(octets: &[u8]) -> bool
    ensures { result ≡ definition.is_modulo_8 octets.now }
{
    match octets {
        [first, ..] => *first / 16 % 4 == 1,
        [] => false,
    }
}

impl Book {
    /// Nothing was sent, on a network with these defaults. Err: no memory.
    pub fn new(alloc: Global, defaults: Defaults) -> Result<Book, AllocError>
        ensures { IfOk result (λ book. book ≡ definition.empty defaults) }
    {
        let channels = Channels::new(alloc)?;
        Ok(Book {
            dte: Layer::new(),
            dce: Layer::new(),
            restarts: Channel::any(),
            channels,
            is_whole: false,
            defaults,
        })
    }

    /// The end that sends, and the other one.
    fn layers(&self, from: Role) -> Layers
        ensures { result ≡ definition.layers_of from self.now }
    {
        match from {
            Role::Dte => Layers {
                own: self.dte,
                other: self.dce,
            },
            Role::Dce => Layers {
                own: self.dce,
                other: self.dte,
            },
        }
    }

    fn keep(&mut self, from: Role, layers: Layers)
        ensures { self.new ≡ definition.keeps from layers self.old }
    {
        match from {
            Role::Dte => {
                self.dte = layers.own;
                self.dce = layers.other;
            }
            Role::Dce => {
                self.dce = layers.own;
                self.dte = layers.other;
            }
        }
    }

    /// A packet of a channel, before which RESTART may have to be answered.
    fn judges(&mut self, from: Role, channel: u16, item: &Item) -> Verdict
        ensures book { self.new ≡ (definition.judges from channel item.now self.old).book }
        ensures verdict { result ≡ (definition.judges from channel item.now self.old).verdict }
    {
        let is_early = self.restarts.passes_over(from);
        let verdict = self.channels.judges(channel, from, item);
        if is_early {
            told(PacketRule::RestartAwaited)
        } else {
            verdict
        }
    }

    /// RESTART or its confirmation, of all channels. No RESTART breaks a rule.
    fn restarts(&mut self, from: Role, item: Item, is_judged: bool) -> Verdict
        ensures book { self.new ≡ (definition.restarts from item is_judged self.old).book }
        ensures verdict { result ≡ (definition.restarts from item is_judged self.old).verdict }
    {
        let verdict = self.restarts.takes(from, &item);
        self.channels.sends(from, item);
        Verdict {
            rule: verdict.rule,
            noted: verdict.noted,
            is_judged: is_judged || verdict.is_judged,
        }
    }

    /// A packet; what is told of it is answered. Where nothing was sent since the set-up, the packet layer may go on
    /// from before it.
    #[tactic(auto, unfolding(crate::specs::Book::takes, crate::specs::Item::item_of))]
    fn takes(&mut self, from: Role, channel: u16, packet: &Packet) -> Verdict
        ensures book { self.new ≡ (definition.takes from channel (plain packet.now) self.old).book }
        ensures verdict { result ≡ (definition.takes from channel (plain packet.now) self.old).verdict }
    {
        let mut layers = self.layers(from);
        let is_first = layers.own.is_quiet;
        layers.own.is_quiet = false;
        self.keep(from, layers);
        match packet {
            Packet::Restart { .. } => self.restarts(from, Item::Restart, true),
            Packet::RestartConf => self.restarts(from, Item::RestartConf, false),
            _ => {
                if is_first {
                    self.restarts.lose();
                }
                self.judges(from, channel, &item_of(self.defaults, packet))
            }
        }
    }

    /// Packets of an end were missed, of any channels.
    fn forget(&mut self)
        ensures { self.new ≡ definition.forgets self.old }
    {
        self.restarts.lose();
        self.channels.lose();
        self.is_whole = false;
    }

    /// Frames of either end weren't seen, any number of them.
    pub fn passes_gap(&mut self)
        ensures { self.new ≡ definition.passes_gap self.old }
    {
        self.dte = Layer::unseen();
        self.dce = Layer::unseen();
        self.forget();
    }

    /// Octets that spell no packet: nothing may be said of any channel where they name none.
    fn misses_on(&mut self, channel: u16) -> Verdict
        ensures book { self.new ≡ (definition.misses_on channel self.old).book }
        ensures verdict { result ≡ (definition.misses_on channel self.old).verdict }
    {
        if channel == 0 {
            self.forget();
            return passed(Some(Noted::Unjudged(0)));
        }
        self.channels.misses(channel)
    }

    /// What no station takes: DIAGNOSTIC, another packet, or octets that are none in any form.
    fn leaves(&mut self, channel: u16, most: usize, octets: &[u8]) -> Verdict
        ensures book { self.new ≡ (definition.untaken channel octets.now (form_in most octets.now) self.old).book }
        ensures verdict { result
            ≡ (definition.untaken channel octets.now (form_in most octets.now) self.old).verdict }
    {
        match decode(most, octets) {
            Ok(packet) if matches!(packet.kind, Kind::Diagnostic { .. }) => passed(None),
            Err(_) if is_modulo_8(octets) => {
                self.misses_on(channel);
                told(PacketRule::NoPacket)
            }
            _ => self.misses_on(channel),
        }
    }

    /// A packet in any form, which is judged as the one that a station takes it for.
    fn reads_any(&mut self, from: Role, channel: u16, most: usize, octets: &[u8]) -> Verdict
        ensures book { self.new ≡ (definition.reads_any from channel most octets.now self.old).book }
        ensures verdict { result ≡ (definition.reads_any from channel most octets.now self.old).verdict }
    {
        match read(&Some(decode(most, octets)), most, octets) {
            Ok(taken) => self.takes(from, channel, &taken),
            Err(_) => self.leaves(channel, most, octets),
        }
    }

    /// The information of an I frame, and the packet that it reads as; what is told of it is answered. One in another
    /// form is judged as the packet that a station takes it for.
    #[tactic(auto, unfolding(crate::specs::Book::reads))]
    fn reads(
        &mut self,
        from: Role,
        reading: Reading,
        channel: u16,
        octets: &[u8],
        packet: &Result<Packet, PacketError>,
    ) -> Verdict
        requires { reading.wide ≡ false → definition.IsPacketOf reading.long octets.now packet.now }
        ensures book { self.new ≡ (definition.reads from reading channel octets.now self.old).book }
        ensures verdict { result ≡ (definition.reads from reading channel octets.now self.old).verdict }
    {
        match packet {
            Ok(packet) if !reading.wide => self.takes(from, channel, packet),
            _ => self.reads_any(from, channel, longest_user(reading.long), octets),
        }
    }

    /// An N(R), which may show that packets of the other end weren't seen.
    #[tactic(auto, unfolding(crate::specs::Book::hears))]
    fn hears(&mut self, from: Role, number: u8)
        ensures { self.new ≡ definition.hears from number self.old }
    {
        let is_found = match from {
            Role::Dte => hear(&mut self.dte, &mut self.dce, number),
            Role::Dce => hear(&mut self.dce, &mut self.dte, number),
        };
        if is_found {
            self.forget();
        }
    }

    /// The link is set up for an end.
    #[tactic(auto, unfolding(crate::specs::Book::begins))]
    fn begins(&mut self, from: Role, layers: Layers)
        ensures { self.new ≡ definition.begins from layers self.old }
    {
        self.restarts = Channel::begun();
        self.channels.begin(Channel::ready());
        self.is_whole = true;
        self.keep(from, layers);
    }

    /// SABM, which may come again.
    #[tactic(auto, unfolding(crate::specs::Book::asks))]
    fn asks(&mut self, from: Role)
        ensures { self.new ≡ definition.asks from (definition.layers_of from self.old) self.old }
    {
        let layers = self.layers(from);
        if layers.is_asked_again() {
            self.keep(from, layers.asks());
        } else {
            self.begins(from, layers.asks());
        }
    }

    /// UA, which may come again, and which breaks a rule of the link layer where `is_broken`. Where it `is_open`, it
    /// may answer a SABM before the last one, and what the other end sent between these comes behind it.
    #[tactic(auto, unfolding(crate::specs::Book::accepts, crate::specs::Book::accepts_if))]
    fn accepts_if(&mut self, from: Role, is_broken: bool, is_open: bool)
        ensures { self.new
            ≡ definition.accepts_if from is_broken is_open (definition.layers_of from self.old) self.old }
    {
        let layers = self.layers(from);
        if is_broken && layers.own.asked == 0 {
            return;
        }
        // What wasn't seen may stand between these too.
        let is_open = is_open || (layers.other.is_fresh && !layers.other.is_quiet);
        if layers.is_late() && !is_open {
            self.keep(from, layers.accepts());
        } else if is_open || layers.own.is_under_way() {
            self.forget();
            self.keep(from, layers.accepts());
        } else {
            self.begins(from, layers.accepts());
        }
    }

    /// An I frame, which breaks a rule of the link layer where `is_broken`.
    #[tactic(auto, unfolding(crate::specs::Book::sends_info, crate::specs::Book::moves))]
    #[inline(always)]
    fn info(
        &mut self,
        from: Role,
        reading: Reading,
        numbers: (u8, u8),
        octets: &[u8],
        packet: &Result<Packet, PacketError>,
        is_broken: bool,
    ) -> Verdict
        requires { reading.wide ≡ false → definition.IsPacketOf reading.long octets.now packet.now }
        ensures book { self.new
            ≡ (definition.sends_info from reading numbers.0 numbers.1 octets.now is_broken self.old).book }
        ensures verdict { result
            ≡ (definition.sends_info from reading numbers.0 numbers.1 octets.now is_broken self.old).verdict }
    {
        if is_broken {
            self.keep(from, self.layers(from).lost());
            return passed(None);
        }
        self.hears(from, numbers.1);
        let may_judge = match from {
            Role::Dte => advance(&mut self.dte, &self.dce, numbers.0),
            Role::Dce => advance(&mut self.dce, &self.dte, numbers.0),
        };
        let Some(channel) = channel(octets) else {
            return passed(None);
        };
        if may_judge {
            self.reads(from, reading, channel, octets, packet)
        } else if self.layers(from).are_dropped() {
            self.misses_on(channel)
        } else {
            passed(None)
        }
    }

    /// The end sends a frame, which breaks a rule of the link layer where `is_broken`; what is told of its packet is
    /// answered. `packet` is what the information of an I frame reads as, in the form that a station writes. UA
    /// `is_open` where I frames of the other end may come behind it, in front of a SABM that waits.
    #[tactic(auto, unfolding(crate::specs::Book::sees))]
    #[inline(always)]
    pub fn sees(
        &mut self,
        from: Role,
        reading: Reading,
        frame: &Frame,
        packet: &Result<Packet, PacketError>,
        is_broken: bool,
        is_open: bool,
    ) -> Verdict
        requires { definition.IsRead reading (plain_frame frame.now) packet.now }
        ensures book { self.new
            ≡ (definition.sees from reading (plain_frame frame.now) is_broken is_open self.old).book }
        ensures verdict { result
            ≡ (definition.sees from reading (plain_frame frame.now) is_broken is_open self.old).verdict }
    {
        match frame {
            Frame::I { ns, nr, info, .. } => self.info(
                from,
                reading,
                (ns.get(), nr.get()),
                info,
                packet,
                is_broken,
            ),
            Frame::Rr { nr, .. } | Frame::Rnr { nr, .. } | Frame::Rej { nr, .. } => {
                self.hears(from, nr.get());
                passed(None)
            }
            Frame::Sabm { .. } => {
                self.asks(from);
                passed(None)
            }
            Frame::Ua { .. } => {
                self.accepts_if(from, is_broken, is_open);
                passed(None)
            }
            Frame::Dm { .. } => {
                self.keep(from, self.layers(from).answers());
                passed(None)
            }
            Frame::Disc { .. } => {
                self.keep(from, self.layers(from).asks_more());
                passed(None)
            }
            Frame::Frmr { .. } => passed(None),
        }
    }

    /// The end sends octets that are no frame.
    pub fn misses(&mut self, from: Role)
        ensures { self.new ≡ definition.misses from self.old }
    {
        let next = self.layers(from).misses();
        self.keep(from, next);
    }
}
