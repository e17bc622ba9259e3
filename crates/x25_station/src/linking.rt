//! Calls that the link alone answers, and at LinkDown the packet layer.
ghost use Rattle.std.specs.Prelude.{◌≡◌, ◌+◌, ◌<◌, ◌≤◌, ◌++◌, [], length, true, false, None};
ghost use Rattle.x25_link.specs.code.FitsLink.{Does as LinkDoes};
ghost use Rattle.x25_layer.specs.Layer.{Layer as LayerState, LayerSettings};
ghost use Rattle.x25_layer.specs.code.FitsLayer.{FitsLayer};
ghost use Rattle.x25_station.specs.Entry.{end_if, entries_down, entries_ended};
ghost use Rattle.x25_station.specs.code.Clock.{TellsTimer};
ghost use Rattle.x25_station.specs.code.FitsStation.{FitsStation, Does, IsEmpty, RefusesOnly};
ghost use Rattle.x25_station.specs.code.LinkCalls.{entries_called, calls_link, link_refusal, step_of_call};
ghost use Rattle.x25_station.specs.Config.{Settings};
ghost use Rattle.x25_station.specs.Station.{Station as State};
ghost use Rattle.x25_station.specs.Step.{fires, layer_down};

use crate::entries::Entries;
use crate::entry::Entry;
use crate::error::StationError;
use crate::law::steps_keep_bounds;
use crate::station::Station;
use crate::step::Step;
use x25_layer::Layer;
use x25_link::{Closing, Heard, Link, LinkError, Reason};

/// A call that the link alone answers.
#[derive(Clone, Copy)]
pub(crate) enum LinkCall {
    /// Begins to set the link up.
    Connect,
    /// Disconnects the link, for good.
    Disconnect,
    /// Timer T1 fires.
    Fire,
    /// Polls the other end, as T1 does at its firing.
    Probe,
    /// Sets the link up anew.
    Relink,
}

// What the link answers.
fn answer_of(link: &mut Link, call: LinkCall) -> Result<Heard<'static>, LinkError>
    ensures { LinkDoes link.old link.new result (link_refusal call) (step_of_call call) }
{
    match call {
        LinkCall::Connect => link.connect(),
        LinkCall::Disconnect => link.disconnect(),
        LinkCall::Fire => link.t1(),
        LinkCall::Probe => link.probe(),
        LinkCall::Relink => link.relink(),
    }
}

// Enters a command that has an entry, and at a firing the end of what a DISC awaits.
fn enter_call(call: LinkCall, awaited: bool, closing: Closing, entries: &mut Entries)
    requires { entries.old.items ≡ [] }
    ensures { entries.new.items ≡ entries_called call (end_if awaited closing) }
{
    match call {
        LinkCall::Connect => entries.push(Entry::ConnectAsked),
        LinkCall::Disconnect => entries.push(Entry::DisconnectAsked),
        LinkCall::Fire => enter_end(awaited, closing, entries),
        LinkCall::Probe => {}
        LinkCall::Relink => entries.push(Entry::RelinkAsked),
    }
}

/// Enters the end of what a DISC awaits, by whether it was awaited before a step of the link.
pub(crate) fn enter_end(awaited: bool, closing: Closing, entries: &mut Entries)
    requires { entries.old.items ≡ [] }
    ensures { entries.new.items ≡ entries_ended (end_if awaited closing) }
{
    if let (true, Closing::Ended(ending)) = (awaited, closing) {
        entries.push(Entry::Disconnected(ending));
    }
}

impl Station {
    /// A firing of timer T1 of the link.
    ///
    /// 11 where the timer doesn't run, and nothing else. The station is as before then.
    pub fn t1(&mut self, out: &mut Step) -> Result<(), StationError>
        ensures does { Does self.old self.new out.new result fires }
        ensures only { (c : Settings) (s : State) → FitsStation c self.old s → RefusesOnly result (fires c s) }
        ensures timer { TellsTimer self.old out.new.timer result true fires }
    {
        out.clear();
        let ran = self.link.timer_runs();
        let answer = self.call_link(LinkCall::Fire, out);
        out.timer = self.timer_behind(ran, answer.is_ok(), false, out);
        answer
    }

    /// Asks the link alone, into a step that is empty.
    pub(crate) fn call_link(&mut self, call: LinkCall, out: &mut Step) -> Result<(), StationError>
        requires { IsEmpty out.old }
        ensures does { Does self.old self.new out.new result (calls_link call) }
        ensures only { (c : Settings) (s : State) → FitsStation c self.old s
            → RefusesOnly result (calls_link call c s) }
    {
        steps_keep_bounds();
        let awaited = self.link.is_closing();
        match answer_of(&mut self.link, call) {
            Ok(heard) => {
                enter_call(call, awaited, self.link.closing(), &mut out.entries);
                self.link.swap_frames(&mut out.frames);
                note_down(&mut self.layer, heard.notes.down, &mut out.entries);
                Ok(())
            }
            Err(error) => Err(StationError::of_link(error)),
        }
    }
}

/// What the layer does where the link notes that it went down, or nothing. The entry goes behind the others.
pub(crate) fn note_down(layer: &mut Layer, down: Option<Reason>, entries: &mut Entries)
    requires { length entries.old.items < 3 }
    ensures few { length entries.new.items ≤ length entries.old.items + 1 }
    ensures same { down ≡ None → layer.new ≡ layer.old }
    ensures nothing { down ≡ None → entries.new ≡ entries.old }
    ensures layer { (c : LayerSettings) (l : LayerState) → FitsLayer c layer.old l
        → FitsLayer c layer.new (layer_down l down) }
    ensures entries { entries.new.items ≡ entries.old.items ++ entries_down down }
{
    if let Some(reason) = down {
        layer.down();
        entries.push(Entry::LinkDown(reason));
    }
}
