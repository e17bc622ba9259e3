//! The logical channels, and what is known of both ends of each.
ghost use Rattle.std.specs.Prelude.{◌≡◌, ◌≤◌, ◌<◌, ◌%◌, IfOk, Option, Some, length, map, true, unwrap_or, vec_capacity};
ghost use Rattle.std.specs.Option.{option_map};
ghost use Rattle.x25_packet_judge.specs.Channel as definition;
ghost use Rattle.x25_packet_judge.specs.declared.channel.Event.TheVariants.{Loss, Sends};
ghost use Rattle.x25_packet_judge.specs.Channels.{AreLost, Channels, all_alike, all_happens, channel_of, padded, put};
ghost use Rattle.std.specs.Option.Follows.{option_follows_value};
ghost use Rattle.std.specs.Borrow.{sem};
ghost use Rattle.x25_packet_judge.specs.contracts.channel.Channel.{the_row};

use crate::book::Verdict;
use crate::channel::{Channel, Event};
use std::alloc::{AllocError, Global};
use std::marker::Model;
use x25_bits::Role;
use x25_possible::Packet;

/// How many numbers a logical channel may have.
const CHANNELS: usize = 4_096;

/// The channels 0 to 4,095: no call but `new` takes memory.
#[derive(Drop)]
pub(crate) struct Channels {
    /// Those that were seen since all began anew, and each below one of them.
    seen: Vec<Option<Channel>>,
    /// What each is that wasn't seen since then.
    usual: Channel,
    /// Packets of all were missed, and none was sent since then: where more are missed, nothing changes.
    are_lost: bool,
}

impl Model for Channels {
    ghost Value = { Channels };

    ghost view = { λ c. record { seen = c.seen.items; usual = c.usual } };

    ghost invariant = { λ c. (length c.seen.items ≤ 4096) × (vec_capacity c.seen ≡ 4096)
        × (c.are_lost ≡ true → AreLost (record { seen = c.seen.items; usual = c.usual })) };
}

/// Makes places up to one.
fn pad(seen: &mut Vec<Option<Channel>>, index: usize)
    requires index { index < 4096 }
    requires few { length seen.old.items ≤ 4096 }
    requires room { vec_capacity seen.old ≡ 4096 }
    ensures items { seen.new.items ≡ padded index seen.old.items }
    ensures room { vec_capacity seen.new ≡ 4096 }
{
    let missing = (index + 1).saturating_sub(seen.len());
    for _ in 0..missing {
        seen.push_reserved(None);
    }
}

/// The channel of a place, which is as the others were not seen where it has none.
fn channel_at<'a>(place: &'a mut Option<Channel>, usual: &Channel) -> &'a mut Channel
    ensures* lends { sem 𝓛 (option_follows_value the_row place.entry result) }
    ensures value { result.now ≡ unwrap_or place.old usual.now }
{
    match place {
        Some(channel) => channel,
        None => place.insert(usual.copy()),
    }
}

fn happens(place: &mut Option<Channel>, event: Event)
    ensures { place.new ≡ option_map (definition.happens event) place.old }
{
    if let Some(channel) = place {
        channel.happens(event);
    }
}

fn each_happens(seen: &mut Vec<Option<Channel>>, event: Event)
    ensures items { seen.new.items ≡ map (option_map (definition.happens event)) seen.old.items }
    ensures room { vec_capacity seen.new ≡ vec_capacity seen.old }
{
    for place in seen.iter_mut() {
        happens(place, event);
    }
}

impl Channels {
    /// Nothing is known. Err: no memory.
    pub(crate) fn new(alloc: Global) -> Result<Channels, AllocError>
        ensures { IfOk result (λ channels. channels ≡ all_alike definition.any_channel) }
    {
        Ok(Channels {
            seen: Vec::with_capacity(alloc, CHANNELS)?,
            usual: Channel::any(),
            are_lost: false,
        })
    }

    /// A packet of a channel.
    #[tactic(auto, using(crate::proofs::ChannelsLemmas::place_is))]
    pub(crate) fn judges(&mut self, number: u16, from: Role, packet: &Packet) -> Verdict
        ensures channels { self.new
            ≡ put number (definition.judges number from packet.now (channel_of number self.old)).channel self.old }
        ensures verdict { result ≡ (definition.judges number from packet.now (channel_of number self.old)).verdict }
    {
        let index = usize::from(number) % CHANNELS;
        self.are_lost = false;
        pad(&mut self.seen, index);
        channel_at(&mut self.seen[index], &self.usual).judges(number, from, packet)
    }

    /// A packet of a channel that isn't read.
    #[tactic(auto, using(crate::proofs::ChannelsLemmas::place_is))]
    pub(crate) fn misses(&mut self, number: u16) -> Verdict
        ensures channels { self.new
            ≡ put number (definition.misses number (channel_of number self.old)).channel self.old }
        ensures verdict { result ≡ (definition.misses number (channel_of number self.old)).verdict }
    {
        let index = usize::from(number) % CHANNELS;
        self.are_lost = false;
        pad(&mut self.seen, index);
        channel_at(&mut self.seen[index], &self.usual).misses(number)
    }

    /// An end sends a packet on all channels.
    pub(crate) fn sends(&mut self, from: Role, packet: Packet)
        ensures { self.new ≡ all_happens (Sends from packet) self.old }
    {
        self.are_lost = false;
        each_happens(&mut self.seen, Event::Sends(from, packet));
        self.usual.happens(Event::Sends(from, packet));
    }

    /// Packets of both ends weren't seen, on any channel.
    #[tactic(auto, using(crate::proofs::ChannelsLemmas::seen_again, crate::proofs::ChannelsLemmas::channel_again))]
    pub(crate) fn lose(&mut self)
        ensures { self.new ≡ all_happens Loss self.old }
    {
        if self.are_lost {
            return;
        }
        each_happens(&mut self.seen, Event::Loss);
        self.usual.lose();
        self.are_lost = true;
    }

    /// All are as this one.
    pub(crate) fn begin(&mut self, usual: Channel)
        ensures { self.new ≡ all_alike usual }
    {
        self.are_lost = false;
        self.seen.clear();
        self.usual = usual;
    }
}
