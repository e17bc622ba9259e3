ghost use Rattle.std.specs.Prelude.{◌≡◌, ◌+◌, ◌*◌, ◌≤◌, vec_len, vec_capacity, Bool, None, Some, ℕ, List, ◌++◌};
ghost use Rattle.std.specs.Prelude.{drop, length, map, max};
ghost use Rattle.std.specs.Prelude.{option_copied, slice_get, OnOk, OnErr, IfOk, IfErr, IfSome};
ghost use Rattle.x25_station.specs.declared.config.Cfg.{Cfg};
ghost use Rattle.x25_station.specs.code.FitsStation.{FitsStation};
ghost use Rattle.x25_circuit.specs.Calling.{Sends};
ghost use Rattle.x25_layer.specs.Calls.{Asks};
ghost use Rattle.x25_station.specs.Command.{Requests};
ghost use Rattle.x25_station.specs.Config.{settings_from, config_refusal};
ghost use Rattle.x25_station.specs.Station as station;
ghost use Rattle.x25_world.specs.BitDamage.{bit_damage};
ghost use Rattle.x25_world.specs.code.ShownWorld.{line_from, line_of, station_of, TakesFewPlaces};
ghost use Rattle.x25_world.specs.code.FitsHealing.{Tells, telling};
ghost use Rattle.x25_world.specs.code.FitsWorld.{FitsWorld, Claims, ClaimsOfNew, and_then, IsRefusal};
ghost use Rattle.x25_world.specs.code.FitsWorld.{IsStepOfAct, HasActedAt, DamagesBits, RefusesConfig};
ghost use Rattle.x25_world.specs.laws.Claims.{IsUpOnce};
ghost use Rattle.x25_world.specs.World as definition;
ghost use Rattle.x25_world.specs.World.{AtEnd, entered, tapped, event_of, happens, after, refusal_of, start};
ghost use Rattle.x25_world.specs.World.{connected, established, Commands};

use crate::acting::{act_at_end, command, enter, reserve_entries};
use crate::bit_damage::octets_of_damage;
use crate::error::WorldError;
use crate::event::{Event, SABM_ARRIVES, UA_ARRIVES};
use crate::law::{hands_down_octets, runs_hold, two_stations_keep_order};
use crate::line::Line;
use crate::told::Entered;
use std::alloc::Global;
use std::marker::Model;
use x25_bits::{Bits, Direction, Role};
use x25_station::{Cfg, Cmd, Station, StationError, Step};

/// Two stations, and the line between them.
///
/// The line keeps order, and may lose or visibly damage any frame (profile).
#[derive(Drop)]
pub struct World {
    dte: Station,
    dce: Station,
    line: Line,
    // What a step of its own answers.
    out: Step,
}

impl Model for World {
    ghost use Rattle.x25_world.specs.code.ShownWorld.{ShownWorld, shown_with};

    ghost Value = { ShownWorld };

    ghost view = { λ w. shown_with w.dte w.dce w.line };
}

impl World {
    /// Two stations whose links are down, and an empty line.
    ///
    /// 14 where a setting is out of its range, and else 70 alone.
    pub fn start(alloc: Global, cfg: Cfg) -> Result<World, WorldError>
        ensures fits { IfOk result (λ v. FitsWorld cfg v start) }
        ensures refused { RefusesConfig result (config_refusal cfg) }
        ensures claims { IfOk result (ClaimsOfNew cfg start) }
    {
        runs_hold();
        World::down(alloc, cfg)
    }

    // The world of `start`. What is refused here and below is let go of by one call: as its scope ends a body does it
    // part by part, which the prover follows.
    fn down(alloc: Global, cfg: Cfg) -> Result<World, WorldError>
        ensures fits { IfOk result (λ v. FitsWorld cfg v start) }
        ensures refused { RefusesConfig result (config_refusal cfg) }
    {
        let dte = new_station(alloc, Role::Dte, cfg)?;
        match new_station(alloc, Role::Dce, cfg) {
            Ok(dce) => match new_step(alloc) {
                Ok(out) => Ok(World {
                    dte,
                    dce,
                    line: Line::new(alloc),
                    out,
                }),
                Err(error) => {
                    drop(dce);
                    drop(dte);
                    Err(error)
                }
            },
            Err(error) => {
                drop(dte);
                Err(error)
            }
        }
    }

    /// Two stations whose links are down, and the DTE has asked that the link be set up: its SABM is on the line. No
    /// transcript tells of it.
    ///
    /// 14 where a setting is out of its range, and else 70 alone.
    pub fn connecting(alloc: Global, cfg: Cfg) -> Result<World, WorldError>
        ensures fits { IfOk result (λ v. FitsWorld cfg v (connected cfg)) }
        ensures refused { RefusesConfig result (config_refusal cfg) }
        ensures claims { IfOk result (ClaimsOfNew cfg (connected cfg)) }
    {
        runs_hold();
        World::asking(alloc, cfg)
    }

    // The world of `connecting`.
    fn asking(alloc: Global, cfg: Cfg) -> Result<World, WorldError>
        ensures fits { IfOk result (λ v. FitsWorld cfg v (connected cfg)) }
        ensures refused { RefusesConfig result (config_refusal cfg) }
    {
        let mut world = World::down(alloc, cfg)?;
        match world.connect() {
            Ok(()) => Ok(world),
            Err(error) => {
                drop(world);
                Err(error)
            }
        }
    }

    // The DTE, whose link is down, asks that it be set up, which tells nothing.
    fn connect(&mut self) -> Result<(), WorldError>
        ensures fits { (cfg : Cfg) → FitsWorld cfg self.old start →
            OnOk result (FitsWorld cfg self.new (connected cfg)) }
        ensures refused { (cfg : Cfg) → FitsWorld cfg self.old start → IfErr result (λ e. e ≡ WorldError.NoMemory) }
    {
        command(
            Role::Dte,
            &mut self.dte,
            &mut self.line,
            &mut self.out,
            Cmd::Connect,
        )
    }

    /// Two stations whose link was just set up: the DTE has asked, SABM and UA were delivered, each end was told that
    /// its link is up, and both RESTARTs are on the line.
    ///
    /// 14 where a setting is out of its range, and else 70 alone.
    pub fn establish(alloc: Global, cfg: Cfg) -> Result<World, WorldError>
        ensures fits { IfOk result (λ v. FitsWorld cfg v (established cfg)) }
        ensures refused { RefusesConfig result (config_refusal cfg) }
        ensures claims { IfOk result (ClaimsOfNew cfg (established cfg)) }
        ensures up_once { IfOk result (λ v. IsUpOnce cfg (established cfg)) }
    {
        runs_hold();
        World::up(alloc, cfg)
    }

    // The world of `establish`.
    fn up(alloc: Global, cfg: Cfg) -> Result<World, WorldError>
        ensures fits { IfOk result (λ v. FitsWorld cfg v (established cfg)) }
        ensures refused { RefusesConfig result (config_refusal cfg) }
    {
        let mut world = World::asking(alloc, cfg)?;
        match world.set_up() {
            Ok(()) => Ok(world),
            Err(error) => {
                drop(world);
                Err(error)
            }
        }
    }

    // SABM and UA are delivered.
    fn set_up(&mut self) -> Result<(), WorldError>
        ensures fits { (cfg : Cfg) → FitsWorld cfg self.old (connected cfg) →
            OnOk result (FitsWorld cfg self.new (established cfg)) }
        ensures refused { (cfg : Cfg) → FitsWorld cfg self.old (connected cfg) →
            IfErr result (λ e. e ≡ WorldError.NoMemory) }
    {
        two_stations_keep_order();
        act_at_end(
            &mut self.dte,
            &mut self.dce,
            &mut self.line,
            &mut self.out,
            SABM_ARRIVES,
        )?;
        act_at_end(
            &mut self.dte,
            &mut self.dce,
            &mut self.line,
            &mut self.out,
            UA_ARRIVES,
        )
    }

    /// Lets the event happen. The entries that it tells come into the step, in place of what was there, whose memory
    /// serves again; its frames don't stay there, but stand on the line from its end, behind those that were there. A
    /// caller who keeps a transcript and a tap reads both.
    ///
    /// Refused with the one ground that applies, 50, 51, 52, 53 or 54, and else accepted; 70 for want of memory,
    /// which refuses no `Lose`. Then the world is as before, and the step is empty.
    #[inline(always)]
    pub fn step(&mut self, event: Event, out: &mut Step) -> Result<(), WorldError>
        ensures acted { (cfg : Cfg) (w : definition.World) → FitsWorld cfg self.old w →
            HasActedAt cfg self.new (entered (event_of event.entry).at out.new.entries.items) result
            w (event_of event.entry) }
        ensures step { IsStepOfAct result out.new (event_of event.entry).act }
        ensures put { (cfg : Cfg) (w : definition.World) → FitsWorld cfg self.old w →
            (let at = (event_of event.entry).at in
            OnOk result ((after w (happens cfg w (event_of event.entry))).tap ≡ w.tap ++ tapped at (drop (length
            (line_from self.old at)) (line_from self.new at)))) }
        ensures places { TakesFewPlaces self.old self.new }
        ensures claims { Claims self.old self.new (λ past. and_then past (event_of event.entry) result) }
    {
        runs_hold();
        hands_down_octets(event);
        self.happen(event, out)
    }

    // The step, without the laws of runs.
    #[inline(always)]
    fn happen(&mut self, event: Event, out: &mut Step) -> Result<(), WorldError>
        ensures acted { (cfg : Cfg) (w : definition.World) → FitsWorld cfg self.old w →
            HasActedAt cfg self.new (entered (event_of event.entry).at out.new.entries.items) result
            w (event_of event.entry) }
        ensures step { IsStepOfAct result out.new (event_of event.entry).act }
        ensures places { TakesFewPlaces self.old self.new }
    {
        act_at_end(&mut self.dte, &mut self.dce, &mut self.line, out, event)
    }

    // The event happens, and what it tells comes behind what is in the list.
    pub(crate) fn tell(&mut self, event: Event, told: &mut Vec<Entered>) -> Result<(), WorldError>
        ensures step { (cfg : Cfg) (w : definition.World) (before : List AtEnd) →
            Tells cfg (telling self.old told.old.items) w before →
            OnOk result (Tells cfg (telling self.new told.new.items) (after w (happens cfg w
            (event_of event.entry))) before) }
        ensures places { TakesFewPlaces self.old self.new }
        ensures memory { vec_capacity told.new ≤ max (vec_capacity told.old) (2 * vec_len told.old + 1) }
        ensures accepted { (cfg : Cfg) (w : definition.World) → FitsWorld cfg self.old w →
            OnOk result (refusal_of (happens cfg w (event_of event.entry)) ≡ None) }
        ensures refused { (cfg : Cfg) (w : definition.World) → FitsWorld cfg self.old w →
            IfErr result (IsRefusal cfg w (event_of event.entry)) }
        ensures stays { (cfg : Cfg) (w : definition.World) (before : List AtEnd) →
            Tells cfg (telling self.old told.old.items) w before →
            OnErr result (Tells cfg (telling self.new told.new.items) w before) }
    {
        let fresh = reserve_entries(told)?;
        act_at_end(
            &mut self.dte,
            &mut self.dce,
            &mut self.line,
            &mut self.out,
            event,
        )?;
        enter(event.at(), &mut self.out.entries, fresh, told);
        Ok(())
    }

    /// Other bits come in the place of those between the flags of the frame at this place, counted from 0, at the
    /// front (profile). It is the event `Damage` by the octets of the first content, of 4 to 4,103 octets, that is
    /// found between these flags, or by no octets where none is found, and tells nothing.
    ///
    /// Refused with 51 where the line has no frame at that place, then with 52 where the bits aren't harmless, and else
    /// accepted; 70 where memory is refused for a frame that is there. Then the world is as before.
    pub fn damage_bits(
        &mut self,
        direction: Direction,
        place: usize,
        bits: &Bits,
    ) -> Result<(), WorldError>
        ensures damages { DamagesBits self.old self.new result direction place bits.now }
        ensures claims { Claims self.old self.new (λ past. and_then past
            (bit_damage direction place bits.now) result) }
    {
        runs_hold();
        self.damage_by(direction, place, bits)
    }

    // The damage, without the laws of runs.
    fn damage_by(
        &mut self,
        direction: Direction,
        place: usize,
        bits: &Bits,
    ) -> Result<(), WorldError>
        ensures { DamagesBits self.old self.new result direction place bits.now }
    {
        if place >= self.on_line(direction) {
            return Err(WorldError::NoSuchFrame);
        }
        let octets = octets_of_damage(bits)?;
        let damage = Event::Damage(direction, place, octets.as_slice());
        act_at_end(
            &mut self.dte,
            &mut self.dce,
            &mut self.line,
            &mut self.out,
            damage,
        )
    }

    /// The station of this end.
    pub fn station(&self, role: Role) -> &Station
        ensures { result.now ≡ station_of self.now role }
    {
        match role {
            Role::Dte => &self.dte,
            Role::Dce => &self.dce,
        }
    }

    /// How many frames are on the line in this direction.
    pub fn on_line(&self, direction: Direction) -> usize
        ensures { result ≡ length (line_of self.now direction) }
    {
        self.line.len(direction.end())
    }

    /// The octets of the frame at this place on the line in this direction, 0 at the front, as they lie there.
    pub fn frame(&self, direction: Direction, place: usize) -> Option<&[u8]>
        ensures { option_copied result ≡ slice_get (line_of self.now direction) place }
    {
        self.line.get(direction.end(), place)
    }
}

// A step in which nothing happened yet.
fn new_step(alloc: Global) -> Result<Step, WorldError>
    ensures { IfErr result (λ e. e ≡ WorldError.NoMemory) }
{
    match Step::new(alloc) {
        Ok(out) => Ok(out),
        Err(_) => Err(WorldError::NoMemory),
    }
}

// A station whose link is down.
fn new_station(alloc: Global, role: Role, cfg: Cfg) -> Result<Station, WorldError>
    ensures fits { IfOk result (λ v. FitsStation (settings_from role cfg) v station.new_station) }
    ensures refused { RefusesConfig result (config_refusal cfg) }
{
    match Station::new(alloc, role, cfg) {
        Ok(station) => Ok(station),
        Err(StationError::BadConfig) => Err(WorldError::BadConfig),
        Err(_) => Err(WorldError::NoMemory),
    }
}
