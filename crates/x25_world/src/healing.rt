//! Healing: once the line is good for a moment, what the links were handed down arrives.
ghost use Rattle.std.specs.Prelude.{◌≡◌, ◌≢◌, ◌↔◌, ◌+◌, ◌*◌, ◌<◌, ◌≤◌, ◌&&◌, List, length, option_map, is_none, None};
ghost use Rattle.std.specs.Prelude.{IfOk, IfErr, OnOk, IsTrue};
ghost use Rattle.x25_bits.specs.Role.{end_of};
ghost use Rattle.x25_station.specs.declared.config.Cfg.{Cfg};
ghost use Rattle.x25_world.specs.World as definition;
ghost use Rattle.x25_world.specs.World.{AtEnd, event_of};
ghost use Rattle.x25_world.specs.code.FitsWorld.{FitsWorld};
ghost use Rattle.x25_world.specs.code.FitsHealing.{most_times, Tells, telling, GoesBy, GoesPartly, HoldsHealed};
ghost use Rattle.x25_world.specs.laws.SessionClaims.{Throughout, SessionsKeepOrder};
ghost use Rattle.x25_world.specs.rows.WorldRows.{MoreArrives};
ghost use Rattle.x25_world.specs.Healing.{RestShows, HealsWhereNonePut, HealsWithPuts, DrainsWhereNonePut};
ghost use Rattle.x25_world.specs.Healing.{ArrivesByHealing, HealingBringsAll, are_at_rest, RestShowsAll};
ghost use Rattle.x25_world.specs.Healing.{HealingRestShowsAll, next_end, arrivals, deliveries, if_accepted, both_tried};
ghost use Rattle.x25_world.specs.Healing.{pull_round, pull_rounds, healing, received_in};

use crate::error::WorldError;
use crate::event::Event;
use crate::law::{laws_below, messages_wait_for_users, runs_hold, stations_meet_in_sessions};
use crate::told::Entered;
use crate::world::World;
use x25_bits::{Direction, Role};
use x25_line::{drains_end, one_busy_heals, puts_heal, rest_shows};
use x25_station::Cmd;

/// How many deliveries follow one another at most, and how many rounds of deliveries and pulls.
const MOST_TIMES: u32 = 4_294_967_295;

/// What healing brought.
#[derive(Clone, Copy, Debug, PartialEq, Eq)]
pub struct Healed {
    /// How many frames arrived.
    pub arrived: u64,
    /// Whether both links are at rest: all that they were handed down has arrived.
    pub at_rest: bool,
}

/// Two stations over such a line, after each list of events, over set-up and re-set-up at any moment.
///
/// - `rest`: an end whose link is up and whose timer T1 doesn't run is at rest, whatever is on the line, and all that
///   its link was handed down in its session has been handed up at the other end. Where no message waits in a circuit
///   of it, all that was sent on a stretch that is open at both ends has arrived.
/// - `heals`: from a moment in which nothing is on the line, no link is being set up and not both ends are busy, timer
///   T1 runs out at each end where it runs, and then all that is on the line comes, in any order of the two directions,
///   while the layers put nothing. Each link is at rest then, or isn't up; and if both were up, with tries left where
///   T1 ran, both are at rest, and all that they were handed down has been handed up.
/// - `heals_with_puts`: from a moment in which nothing is on the line, both links are up, neither is busy, and tries
///   are left where timer T1 runs, it runs out at each end where it runs. Then what is on the line comes, and users ask
///   of the layers what they like, in any order, while the layers put what they put; where octets come neither link is
///   busy and no count of that station is at its most, and neither is busy at the end. Once nothing is on the line both
///   links are at rest, in the same sessions as before, and all that they were handed down in these, what was put since
///   included, has been handed up. `worked` is such a moment: a message was lost, and one more is sent once T1 has run
///   out.
/// - `drains`: the world bounds how many deliveries follow one another, while the layers put nothing.
///
/// Premises: k is 1 to 7, N2 1 to 255, channels 1 to 4,095, and the users hand down octets.
pub fn stations_heal()
    ensures rest { Throughout RestShows }
    ensures heals { Throughout HealsWhereNonePut }
    ensures heals_with_puts { Throughout HealsWithPuts }
    ensures worked { MoreArrives }
    ensures drains { Throughout DrainsWhereNonePut }
{
    laws_below();
    stations_meet_in_sessions();
    rest_shows();
    one_busy_heals();
    puts_heal();
    drains_end();
}

/// Two stations over such a line, after each list of events, by the schedule of `World::heal` with any bound but 0.
///
/// - `shows`: where both links are at rest behind it, all that they were handed down in their sessions has been handed
///   up, and each stretch that is open at an end is open at the other one too, where either all of its messages and
///   interrupts arrived, or the user isn't ready.
/// - `arrives`: they are at rest, and what they were handed down since is among that, where, once all that was on the
///   line has come, both links are up, neither is busy, and tries are left where timer T1 runs; where neither is busy
///   as octets come behind the firings, and no count of that station is at its most; and where the rounds leave nothing
///   on the line.
///
/// Premises: k is 1 to 7, N2 1 to 255, channels 1 to 4,095, and the users hand down octets.
pub fn healing_brings_all()
    ensures shows { Throughout HealingRestShowsAll }
    ensures arrives { Throughout HealingBringsAll }
{
    stations_heal();
    messages_wait_for_users();
}

impl World {
    /// The line is good for a moment: what is on it arrives, then timer T1 runs out at each end where it runs. What
    /// is on the line arrives, and then each end pulls what waits in its circuits, again and again, as long as that
    /// puts frames on the line: at most 4,294,967,295 times, and each time at most as many frames arrive. What it tells
    /// comes into the list, in place of what was there.
    ///
    /// It answers whether both links are at rest then. If so, all that they were handed down has arrived, and a message
    /// that waits in a circuit waits for a user who isn't ready.
    ///
    /// Refused with 70 alone. What happened before stands, and is told.
    pub fn heal(&mut self, told: &mut Vec<Entered>) -> Result<Healed, WorldError>
        ensures goes { (cfg : Cfg) (w : definition.World) → FitsWorld cfg self.old w →
            OnOk result (GoesBy cfg (healing cfg most_times w) w (telling self.new told.new.items) w.transcript) }
        ensures counted { (cfg : Cfg) (w : definition.World) → FitsWorld cfg self.old w →
            IfOk result (λ healed. healed.arrived ≡ received_in (healing cfg most_times w)) }
        ensures drained { IfOk result (λ healed. healed.arrived + 1 < most_times
            → next_end self.new.to_dce self.new.to_dte ≡ None) }
        ensures at_rest { (cfg : Cfg) (w : definition.World) → FitsWorld cfg self.new w →
            IfOk result (λ healed. healed.at_rest ≡ are_at_rest w) }
        ensures stopped { (cfg : Cfg) (w : definition.World) → FitsWorld cfg self.old w →
            IfErr result (GoesPartly cfg (healing cfg most_times w) w (telling self.new told.new.items) w.transcript) }

        // After each run that leads to the world before, this is proved of the one that is left.
        ensures sessions { HoldsHealed (λ c w u. SessionsKeepOrder c u) self.old self.new result }
        ensures rest { HoldsHealed (λ c w u. RestShows c u) self.old self.new result }
        ensures shows { HoldsHealed (λ c w u. RestShowsAll c u) self.old self.new result }
        ensures arrives { HoldsHealed (λ c w u. ArrivesByHealing c most_times w u) self.old self.new result }
    {
        runs_hold();
        stations_heal();
        healing_brings_all();
        told.clear();
        match self.go_on(told) {
            Ok(arrived) => Ok(Healed {
                arrived,
                at_rest: self.are_at_rest(),
            }),
            Err(error) => Err(error),
        }
    }

    // Whether both links are at rest.
    fn are_at_rest(&self) -> bool
        ensures { (cfg : Cfg) (w : definition.World) → FitsWorld cfg self.now w → result ≡ are_at_rest w }
    {
        self.station(Role::Dte).status().is_at_rest && self.station(Role::Dce).status().is_at_rest
    }

    // The schedule of `heal`, without the laws of runs.
    fn go_on(&mut self, told: &mut Vec<Entered>) -> Result<u64, WorldError>
        ensures goes { (cfg : Cfg) (w : definition.World) (before : List AtEnd) →
            Tells cfg (telling self.old told.old.items) w before →
            OnOk result (GoesBy cfg (healing cfg most_times w) w (telling self.new told.new.items) before) }
        ensures counted { (cfg : Cfg) (w : definition.World) (before : List AtEnd) →
            Tells cfg (telling self.old told.old.items) w before →
            IfOk result (λ count. count ≡ received_in (healing cfg most_times w)) }
        ensures drained { IfOk result (λ count. count + 1 < most_times
            → next_end self.new.to_dce self.new.to_dte ≡ None) }
        ensures stopped { (cfg : Cfg) (w : definition.World) (before : List AtEnd) →
            Tells cfg (telling self.old told.old.items) w before →
            IfErr result (GoesPartly cfg (healing cfg most_times w) w (telling self.new told.new.items) before) }
    {
        let before = self.deliver_all(told)?;
        self.attempt_both(Event::T1(Role::Dte), Event::T1(Role::Dce), told)?;
        let behind = self.pull_all(told)?;
        Ok(u64::from(before) + behind)
    }

    // What is on the line arrives, and then each end pulls what waits in its circuits, as long as that puts frames on
    // the line. It answers how many frames arrived.
    fn pull_all(&mut self, told: &mut Vec<Entered>) -> Result<u64, WorldError>
        ensures goes { (cfg : Cfg) (w : definition.World) (before : List AtEnd) →
            Tells cfg (telling self.old told.old.items) w before →
            OnOk result (GoesBy cfg (pull_rounds cfg most_times most_times w) w
            (telling self.new told.new.items) before) }
        ensures counted { (cfg : Cfg) (w : definition.World) (before : List AtEnd) →
            Tells cfg (telling self.old told.old.items) w before →
            IfOk result (λ count. count ≡ received_in (pull_rounds cfg most_times most_times w)) }
        ensures drained { IfOk result (λ count. count + 1 < most_times
            → next_end self.new.to_dce self.new.to_dte ≡ None) }
        ensures stopped { (cfg : Cfg) (w : definition.World) (before : List AtEnd) →
            Tells cfg (telling self.old told.old.items) w before →
            IfErr result (GoesPartly cfg (pull_rounds cfg most_times most_times w) w
            (telling self.new told.new.items) before) }
        ensures bounded { IfOk result (λ count. count ≤ most_times * most_times) }
    {
        let mut count = 0u64;
        for _ in 0..MOST_TIMES {
            let more = self.pull_round(told)?;
            count += u64::from(more);
            if self.is_line_empty() {
                return Ok(count);
            }
        }
        Ok(count)
    }

    // What is on the line arrives, and then each end pulls what waits in its circuits. It answers how many frames
    // arrived.
    fn pull_round(&mut self, told: &mut Vec<Entered>) -> Result<u32, WorldError>
        ensures goes { (cfg : Cfg) (w : definition.World) (before : List AtEnd) →
            Tells cfg (telling self.old told.old.items) w before →
            OnOk result (GoesBy cfg (pull_round cfg most_times w) w (telling self.new told.new.items) before) }
        ensures counted { (cfg : Cfg) (w : definition.World) (before : List AtEnd) →
            Tells cfg (telling self.old told.old.items) w before →
            IfOk result (λ count. count ≡ received_in (pull_round cfg most_times w)) }
        ensures none { IfOk result (λ count. count ≡ 0 → next_end self.old.to_dce self.old.to_dte ≡ None) }
        ensures stopped { (cfg : Cfg) (w : definition.World) (before : List AtEnd) →
            Tells cfg (telling self.old told.old.items) w before →
            IfErr result (GoesPartly cfg (pull_round cfg most_times w) w (telling self.new told.new.items) before) }
    {
        let count = self.deliver_all(told)?;
        self.attempt_both(
            Event::Command(Role::Dte, Cmd::Pull),
            Event::Command(Role::Dce, Cmd::Pull),
            told,
        )?;
        Ok(count)
    }

    // What is on the line arrives, to the DCE first. It answers how many frames.
    fn deliver_all(&mut self, told: &mut Vec<Entered>) -> Result<u32, WorldError>
        ensures goes { (cfg : Cfg) (w : definition.World) (before : List AtEnd) →
            Tells cfg (telling self.old told.old.items) w before →
            OnOk result (GoesBy cfg (deliveries cfg most_times w) w (telling self.new told.new.items) before) }
        ensures counted { (cfg : Cfg) (w : definition.World) (before : List AtEnd) →
            Tells cfg (telling self.old told.old.items) w before →
            IfOk result (λ count. count ≡ length (arrivals cfg most_times w)) }
        ensures none { IfOk result (λ count. count ≡ 0 → next_end self.old.to_dce self.old.to_dte ≡ None) }
        ensures stopped { (cfg : Cfg) (w : definition.World) (before : List AtEnd) →
            Tells cfg (telling self.old told.old.items) w before →
            IfErr result (GoesPartly cfg (deliveries cfg most_times w) w (telling self.new told.new.items) before) }
    {
        for count in 0..MOST_TIMES {
            let Some(direction) = self.next_direction() else {
                return Ok(count);
            };
            self.tell(Event::Deliver(direction), told)?;
        }
        Ok(MOST_TIMES)
    }

    // Where the next frame arrives: at the DCE where one is on the line to it, else at the DTE.
    fn next_direction(&self) -> Option<Direction>
        ensures { option_map end_of result ≡ next_end self.now.to_dce self.now.to_dte }
    {
        if self.on_line(Direction::ToDce) > 0 {
            Some(Direction::ToDce)
        } else if self.on_line(Direction::ToDte) > 0 {
            Some(Direction::ToDte)
        } else {
            None
        }
    }

    // Whether nothing is on the line.
    fn is_line_empty(&self) -> bool
        ensures { result ≡ is_none (next_end self.now.to_dce self.now.to_dte) }
    {
        self.next_direction().is_none()
    }

    // An event happens, where it isn't refused.
    fn attempt(&mut self, event: Event, told: &mut Vec<Entered>) -> Result<(), WorldError>
        ensures goes { (cfg : Cfg) (w : definition.World) (before : List AtEnd) →
            Tells cfg (telling self.old told.old.items) w before →
            OnOk result (GoesBy cfg (if_accepted cfg (event_of event.entry) w) w
            (telling self.new told.new.items) before) }
        ensures stopped { (cfg : Cfg) (w : definition.World) (before : List AtEnd) →
            Tells cfg (telling self.old told.old.items) w before →
            IfErr result (GoesPartly cfg (if_accepted cfg (event_of event.entry) w) w
            (telling self.new told.new.items) before) }
    {
        if let Err(error) = self.tell(event, told) {
            return unless_memory(error);
        }
        Ok(())
    }

    // Two events happen, each where it isn't refused.
    fn attempt_both(
        &mut self,
        first: Event,
        second: Event,
        told: &mut Vec<Entered>,
    ) -> Result<(), WorldError>
        ensures goes { (cfg : Cfg) (w : definition.World) (before : List AtEnd) →
            Tells cfg (telling self.old told.old.items) w before →
            OnOk result (GoesBy cfg (both_tried cfg (event_of first.entry) (event_of second.entry) w) w
            (telling self.new told.new.items) before) }
        ensures stopped { (cfg : Cfg) (w : definition.World) (before : List AtEnd) →
            Tells cfg (telling self.old told.old.items) w before →
            IfErr result (GoesPartly cfg (both_tried cfg (event_of first.entry) (event_of second.entry) w) w
            (telling self.new told.new.items) before) }
    {
        self.attempt(first, told)?;
        self.attempt(second, told)
    }
}

// Whether memory was refused.
fn is_memory(error: WorldError) -> bool
    ensures { IsTrue result ↔ (error ≡ WorldError.NoMemory) }
{
    matches!(error, WorldError::NoMemory)
}

// Nothing, where an event was refused; want of memory is told.
fn unless_memory(error: WorldError) -> Result<(), WorldError>
    ensures other { OnOk result (error ≢ WorldError.NoMemory) }
    ensures memory { IfErr result (λ e. e ≡ WorldError.NoMemory) }
{
    if is_memory(error) {
        return Err(WorldError::NoMemory);
    }
    Ok(())
}
