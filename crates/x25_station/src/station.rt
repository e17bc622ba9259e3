ghost use Rattle.x25_station.specs.code.FitsParts.{AreMeant};

use crate::config::{Cfg, Manner};
use crate::error::StationError;
use crate::status::{Channel, Status};
use std::alloc::Global;
use x25_bits::Role;
use x25_frame::N1;
use x25_given::Writing;
use x25_layer::{Awaits, Layer, LayerError, Stretch};
use x25_link::{Link, LinkError};

/// A station of X.25, DTE or DCE: its link and its packet layer.
///
/// ITU-T X.25 (10/96), sections 2 to 4.
#[derive(Drop)]
pub struct Station {
    pub(crate) link: Link,
    pub(crate) layer: Layer,
    /// The rounds of pulls go on behind this channel: the last of which a packet was put before 8 waited, else 0.
    pub(crate) turn: u16,
    pub(crate) manner: Manner,
    pub(crate) writing: Writing,
    ghost meant: { AreMeant manner link layer turn },
}

impl Station {
    ghost use Rattle.std.specs.Prelude.{◌≡◌, ◌==◌, ℕ, ◌+◌, ◌<◌, ◌≤◌, Bool, true, List, length, IfOk, IfSome};
    ghost use Rattle.std.specs.Prelude.{IfNone, None};
    ghost use Rattle.x25_station.specs.code.FitsStation.{FitsStation, RefusesWith};
    ghost use Rattle.x25_station.specs.Config.{Settings, layer_settings, settings_from, config_refusal};
    ghost use Rattle.x25_station.specs.Station.{Station as State, new_station};
    ghost use Rattle.x25_station.specs.Station.Told.{awaits_answers, is_idle, is_at_rest, is_refused, room, stretch};
    ghost use Rattle.x25_station.specs.Command.{may_mark};
    ghost use Rattle.x25_station.specs.Step.{requests};
    ghost use Rattle.x25_layer.specs.Calls.{Asks};
    ghost use Rattle.x25_packet.specs.declared.marks.Marks.{Marks};
    ghost use Rattle.x25_circuit.specs.Calling.{Sends};
    ghost use Rattle.x25_layer.specs.code.FitsLayer.{plain_stretch, awaited_at, unacknowledged_at};
    ghost use Rattle.x25_layer.specs.Layer.Confirmed.{unconfirmed_at};
    ghost use Rattle.x25_link.specs.Station.{awaits_ua};
    ghost use Rattle.x25_link.specs.Link.{timer_runs};

    /// A station whose link is down.
    ///
    /// 14 BadConfig where a setting is out of its range, and else 70 alone.
    pub fn new(alloc: Global, role: Role, cfg: Cfg) -> Result<Station, StationError>
        ensures fits { IfOk result (λ v. FitsStation (settings_from role cfg) v new_station) }
        ensures refused { RefusesWith result (config_refusal cfg) }
    {
        if !cfg.channels.are_valid() {
            return Err(StationError::BadConfig);
        }
        let link = match Link::new(alloc, role, cfg.k, N1, cfg.n2, cfg.wide) {
            Ok(link) => link,
            Err(LinkError::BadConfig) => return Err(StationError::BadConfig),
            Err(_) => return Err(StationError::NoMemory),
        };
        let Ok(layer) = Layer::with(alloc, role, cfg.channels, cfg.long_data) else {
            return Err(StationError::NoMemory);
        };
        let Ok(writing) = Writing::new(alloc) else {
            return Err(StationError::NoMemory);
        };
        Ok(Station {
            link,
            layer,
            turn: 0,
            manner: Manner {
                say_sizes: cfg.say_sizes,
                wide: cfg.wide,
            },
            writing,
        })
    }

    /// Whether it takes packets in all their forms (`Cfg::wide`).
    pub fn is_wide(&self) -> bool
        ensures { (c : Settings) (s : State) → FitsStation c self.now s → result ≡ c.wide }
    {
        self.manner.wide
    }

    /// How many channels it has.
    pub fn channels(&self) -> u16
        ensures { (c : Settings) (s : State) → FitsStation c self.now s → result ≡ c.channels.count }
    {
        self.layer.channels()
    }

    /// The next channel after one on which something may be under way: on those between no answer is awaited, and no
    /// data packet isn't acknowledged.
    pub fn busy_after(&self, channel: u16) -> Option<u16>
        ensures higher { IfSome result (λ next. channel < next) }
        ensures between { (c : Settings) (s : State) → FitsStation c self.now s → IfSome result (λ next. (h : ℕ)
            → channel < h → h < next → awaited_at (layer_settings c) s.layer h ≡ Awaits.Nothing) }
        ensures none { (c : Settings) (s : State) → FitsStation c self.now s → IfNone result ((h : ℕ)
            → channel < h → awaited_at (layer_settings c) s.layer h ≡ Awaits.Nothing) }
        ensures acknowledged { (c : Settings) (s : State) → FitsStation c self.now s → IfSome result (λ next. (h : ℕ)
            → channel < h → h < next → unacknowledged_at (layer_settings c) s.layer h ≡ None) }
        ensures all_acknowledged { (c : Settings) (s : State) → FitsStation c self.now s → IfNone result ((h : ℕ)
            → channel < h → unacknowledged_at (layer_settings c) s.layer h ≡ None) }
    {
        self.layer.busy_after(channel)
    }

    /// Whether the link is up, no packet waits in it, all that was sent is acknowledged, and no message waits in a
    /// circuit.
    pub fn idle(&self) -> bool
        ensures { (c : Settings) (s : State) → FitsStation c self.now s → result ≡ is_idle c s }
    {
        self.link.idle() && self.layer.waits() == 0
    }

    /// Whether an answer is awaited: that a restart be confirmed, or on a channel.
    pub fn awaits_answers(&self) -> bool
        ensures { (c : Settings) (s : State) → FitsStation c self.now s → result ≡ awaits_answers c s }
    {
        self.layer.is_restarting() || self.layer.awaited() > 0
    }

    /// How its link stands, and whether a restart is under way. It looks at no channel.
    pub fn status(&self) -> Status
        ensures is_at_rest { (c : Settings) (s : State) → FitsStation c self.now s → result.is_at_rest ≡ is_at_rest s }
        ensures awaits_ua { (c : Settings) (s : State) → FitsStation c self.now s
            → result.awaits_ua ≡ awaits_ua s.link.phase }
        ensures is_restarting { (c : Settings) (s : State) → FitsStation c self.now s
            → result.is_restarting ≡ s.layer.restarting }
        ensures timer_runs { (c : Settings) (s : State) → FitsStation c self.now s
            → result.timer_runs ≡ timer_runs s.link.phase s.link }
    {
        let timer_runs = self.link.timer_runs();
        Status {
            is_at_rest: self.link.idle() & !timer_runs,
            awaits_ua: self.link.awaits_ua(),
            is_restarting: self.layer.is_restarting(),
            timer_runs,
        }
    }

    /// How a channel stands, configured or not.
    pub fn channel(&self, number: u16) -> Channel
        ensures awaits { (c : Settings) (s : State) → FitsStation c self.now s
            → result.awaits ≡ awaited_at (layer_settings c) s.layer number }
        ensures room { (c : Settings) (s : State) → FitsStation c self.now s → result.room ≡ room c s number }
        ensures takes { (c : Settings) (s : State) (marks : Marks) (user : List ℕ) → FitsStation c self.now s
            → may_mark c.wide marks ≡ true → length user ≤ c.channels.message
            → (result.room == 0) ≡ is_refused (requests c s (Asks number (Sends marks user))) }
        ensures few { result.room ≤ 8 }
        ensures unconfirmed { (c : Settings) (s : State) → FitsStation c self.now s
            → result.unconfirmed ≡ unconfirmed_at (layer_settings c) s.layer number }
        ensures unacknowledged { (c : Settings) (s : State) → FitsStation c self.now s
            → result.unacknowledged ≡ unacknowledged_at (layer_settings c) s.layer number }
        ensures stretch { (c : Settings) (s : State) → FitsStation c self.now s
            → plain_stretch result.stretch ≡ stretch c s number }
    {
        Channel {
            awaits: self.layer.awaits(number),
            room: self.room(number),
            unconfirmed: self.layer.unconfirmed(number),
            unacknowledged: self.layer.unacknowledged(number),
            stretch: self.stretch(number),
        }
    }

    fn room(&self, channel: u16) -> usize
        ensures value { (c : Settings) (s : State) → FitsStation c self.now s → result ≡ room c s channel }
        ensures few { result ≤ 8 }
    {
        if !self.link.is_up() {
            return 0;
        }
        self.layer.room(channel)
    }

    fn stretch(&self, channel: u16) -> Option<Stretch>
        ensures { (c : Settings) (s : State) → FitsStation c self.now s → plain_stretch result ≡ stretch c s channel }
    {
        if !self.layer.is_open(channel) {
            return None;
        }
        self.layer.name(channel)
    }
}
