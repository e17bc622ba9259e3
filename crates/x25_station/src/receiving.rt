//! Octets that come: the step of the link, and what the packet layer does at it.
ghost use Rattle.std.specs.Prelude.{◌≡◌, ◌<◌, ◌≤◌, ◌++◌, [], length, true, false, option_copied, Ok, IfSome, is_some};
ghost use Rattle.std.specs.List.{sum_by};
ghost use Rattle.x25_link.specs.Station.{Side, awaits_end};
ghost use Rattle.x25_link.specs.code.FitsLink.{FitsWhole, up_of};
ghost use Rattle.x25_layer.specs.Layer.{Layer as LayerState};
ghost use Rattle.x25_layer.specs.code.FitsLayer.{FitsLayer};
ghost use Rattle.x25_layer.specs.Full.{IsNotFull};
ghost use Rattle.x25_layer.specs.Receiving.{IsReadBy};
ghost use Rattle.x25_layer.specs.laws.Rounds.{hears, comes_up};
ghost use Rattle.x25_station.specs.Entry.{bringing, entries_up, entries_noted};
ghost use Rattle.x25_station.specs.code.Clock.{SaysAcknowledged, TellsTimer};
ghost use Rattle.x25_station.specs.code.FitsStation.{FitsStation, Does, IsEmpty};
ghost use Rattle.x25_station.specs.code.Entries.{comes_beside};
ghost use Rattle.x25_station.specs.Receiving.{kept_of, CanPut, PutsBehind};
ghost use Rattle.x25_station.specs.Config.{Settings, link_settings, layer_settings};
ghost use Rattle.x25_station.specs.Station.{Station as State};
ghost use Rattle.x25_station.specs.Step.{Did, abandons, receives, layer_at, layer_answer, entries_heard};
ghost use Rattle.x25_station.specs.Step.{entries_of_answer, entries_of_packet};

use crate::beside::beside_of;
use crate::confirming::{confirmed, unconfirmed_on};
use crate::driving::{come_up_alone, drive};
use crate::entering::{bringing, enter_beside, enter_told};
use crate::entries::Entries;
use crate::entry::Entry;
use crate::law::steps_keep_bounds;
use crate::linking::{enter_end, note_down};
use crate::station::Station;
use crate::step::Step;
use x25_layer::Layer;
use x25_link::{Link, Notes, holds_few, notes_what_changes, sets_up_by_rows};
use x25_packet::{Form, PacketError, taking_keeps_octets};

// What the layer does at LinkUp.
#[cold]
#[inline(never)]
fn come_up(layer: &mut Layer, link: &mut Link, turn: &mut u16, entries: &mut Entries)
    requires put { CanPut link.old }
    requires entries { length entries.old.items < 3 }
    ensures puts { PutsBehind layer.old link.old turn.old layer.new link.new turn.new
        (λ view c l. (comes_up view c).step) }
    ensures entries { entries.new.items ≡ entries.old.items ++ entries_up true }
{
    entries.push(Entry::LinkUp);
    come_up_alone(layer, link, turn);
}

// What the layer does with a packet that the link hands up, and the channel on which it may have brought more.
fn hear(
    layer: &mut Layer,
    link: &mut Link,
    turn: &mut u16,
    form: &Option<Result<Form<'_>, PacketError>>,
    packet: &[u8],
    entries: &mut Entries,
) -> Option<u16>
    requires form { IsReadBy layer.old packet.now form.now }
    requires put { CanPut link.old }
    requires left { IsNotFull layer.old }
    requires none { entries.old.items ≡ [] }
    ensures puts { PutsBehind layer.old link.old turn.old layer.new link.new turn.new
        (λ view c l. (hears view c (is_some form.now) l packet.now).step) }
    ensures entries { (c : Settings) (l : LayerState) (t : Side) → FitsLayer (layer_settings c) layer.old l
        → FitsWhole link.old (kept_of (link_settings c) t) →
        entries.new.items ≡ entries_of_answer (layer_answer (layer_settings c) (is_some form.now) l packet.now) }
    ensures few { length entries.new.items ≤ 2 }
    ensures none { sum_by comes_beside entries.new.items ≡ 0 }
    ensures bringing { (c : Settings) (l : LayerState) (t : Side) → FitsLayer (layer_settings c) layer.old l
        → FitsWhole link.old (kept_of (link_settings c) t) →
        result ≡ bringing (layer_answer (layer_settings c) (is_some form.now) l packet.now).notices }
{
    taking_keeps_octets();
    let told = layer.hear(form, packet, &mut entries.lent.message);
    drive(layer, link, turn);
    let channel = bringing(&told);
    enter_told(layer, &mut entries.lent, told, &mut entries.list);
    channel
}

// The same where packets are read in all their forms: what this one confirms is told, or else what it brought beside.
fn hear_all(
    layer: &mut Layer,
    link: &mut Link,
    turn: &mut u16,
    packet: &[u8],
    entries: &mut Entries,
)
    requires put { CanPut link.old }
    requires left { IsNotFull layer.old }
    requires none { entries.old.items ≡ [] }
    ensures puts { PutsBehind layer.old link.old turn.old layer.new link.new turn.new
        (λ view c l. (hears view c true l packet.now).step) }
    ensures entries { (c : Settings) (l : LayerState) (t : Side) → FitsLayer (layer_settings c) layer.old l
        → FitsWhole link.old (kept_of (link_settings c) t) →
        entries.new.items ≡ entries_of_packet (layer_settings c) true l packet.now }
{
    let before = unconfirmed_on(layer, packet);
    let form = Some(layer.form(packet));
    let bringing = hear(layer, link, turn, &form, packet, entries);
    match confirmed(before, layer) {
        Some(entry) => entries.push(entry),
        None => enter_beside(beside_of(&form, packet), bringing, entries),
    }
}

// What the layer does at a step of the link that noted this and handed this up.
fn follow(
    layer: &mut Layer,
    link: &mut Link,
    turn: &mut u16,
    wide: bool,
    notes: Notes,
    packet: Option<&[u8]>,
    entries: &mut Entries,
)
    requires up { notes.up ≡ true → CanPut link.old }
    requires put { IfSome packet (λ _. CanPut link.old) }
    requires left { IfSome packet (λ _. IsNotFull layer.old) }
    requires none { entries.old.items ≡ [] }
    ensures puts { PutsBehind layer.old link.old turn.old layer.new link.new turn.new
        (λ view c l. layer_at view c wide l (option_copied packet.entry) notes.down notes.up) }
    ensures entries { (c : Settings) (l : LayerState) (t : Side) → FitsLayer (layer_settings c) layer.old l
        → FitsWhole link.old (kept_of (link_settings c) t) →
        entries.new.items ≡ entries_noted notes
        ++ entries_heard (layer_settings c) wide l (option_copied packet.entry) notes.down notes.up }
{
    note_down(layer, notes.down, entries);
    if notes.up {
        come_up(layer, link, turn, entries);
        return;
    }
    if notes.down.is_some() {
        return;
    }
    let Some(packet) = packet else {
        return;
    };
    if wide {
        hear_all(layer, link, turn, packet, entries);
        return;
    }
    hear(layer, link, turn, &None, packet, entries);
}

impl Station {
    /// Takes octets that came, frame check sequence included, whatever they are: the link's step, and then what the
    /// packet layer does at what that hands up or notes. Where the link is up and a count of the layer is at 2^64 - 1,
    /// the octets are dropped and the link goes down.
    pub fn receive(&mut self, octets: &[u8], out: &mut Step)
        ensures does { Does self.old self.new out.new (Ok tt) (λ c s. Did (receives c s octets.now)) }
        ensures timer { TellsTimer self.old out.new.timer (Ok tt) false (λ c s. Did (receives c s octets.now)) }
    {
        out.clear();
        let ran = self.link.timer_runs();
        if self.link.is_up() & self.layer.full() {
            let acknowledged = self.abandon(octets, out);
            out.timer = self.timer_behind(ran, false, acknowledged, out);
            return;
        }
        if self.link.is_closing() {
            let acknowledged = self.hear_closing(octets, out);
            out.timer = self.timer_behind(ran, false, acknowledged, out);
            return;
        }
        steps_keep_bounds();
        notes_what_changes();
        holds_few();
        let heard = self.link.hear(octets);
        follow(
            &mut self.layer,
            &mut self.link,
            &mut self.turn,
            self.manner.wide,
            heard.notes,
            heard.packet,
            &mut out.entries,
        );
        self.link.swap_frames(&mut out.frames);
        out.timer = self.timer_behind(ran, false, heard.acknowledged, out);
    }

    // The answer to a DISC is awaited: the link alone hears, and the end of that is told.
    #[cold]
    #[inline(never)]
    fn hear_closing(&mut self, octets: &[u8], out: &mut Step) -> bool
        requires closing { (c : Settings) (s : State) → FitsStation c self.old s
            → awaits_end s.link.phase s.link.closing ≡ true }
        requires empty { IsEmpty out.old }
        ensures does { Does self.old self.new out.new (Ok tt) (λ c s. Did (receives c s octets.now)) }
        ensures acknowledged { SaysAcknowledged self.old octets.now result }
    {
        steps_keep_bounds();
        sets_up_by_rows();
        let answer = self.link.hear(octets);
        self.link.swap_frames(&mut out.frames);
        enter_end(true, self.link.closing(), &mut out.entries);
        note_down(&mut self.layer, answer.notes.down, &mut out.entries);
        answer.acknowledged
    }

    // A count is at its most: the octets are dropped, and the link goes down.
    #[cold]
    #[inline(never)]
    fn abandon(&mut self, octets: &[u8], out: &mut Step) -> bool
        requires up { up_of self.old.link ≡ true }
        requires full { (c : Settings) (s : State) → FitsStation c self.old s → abandons c s ≡ true }
        requires empty { IsEmpty out.old }
        ensures does { Does self.old self.new out.new (Ok tt) (λ c s. Did (receives c s octets.now)) }
        ensures acknowledged { SaysAcknowledged self.old octets.now result }
    {
        steps_keep_bounds();
        let heard = self.link.abandon();
        self.link.swap_frames(&mut out.frames);
        note_down(&mut self.layer, heard.notes.down, &mut out.entries);
        heard.acknowledged
    }
}
