//! Entries of what the packet layer tells.
ghost use Rattle.std.specs.Prelude.{◌≡◌, ℕ, List, ◌<◌, ◌++◌, [], length, map};
ghost use Rattle.std.specs.List.{sum_by};
ghost use Rattle.x25_circuit.specs.code.Replies.{plain_notice};
ghost use Rattle.x25_layer.specs.Layer.{Layer as LayerState, LayerSettings};
ghost use Rattle.x25_layer.specs.code.FitsLayer.{FitsLayer};
ghost use Rattle.x25_layer.specs.Report.{plain_report};
ghost use Rattle.x25_station.specs.Entry.{bringing, entries_beside, station_told};
ghost use Rattle.x25_station.specs.code.PlainEntry.{plain_entry, plain_told};
ghost use Rattle.x25_station.specs.Receiving.{IsShort, AreTellable};
ghost use Rattle.x25_station.specs.Beside.{AreFew, plain_beside};
ghost use Rattle.x25_station.specs.code.Entries.{GrowsBy, HasPlaces, comes_beside};
ghost use Rattle.x25_station.specs.declared.lent.Lent.{Lent as Said};

use crate::beside::Beside;
use crate::entries::Entries;
use crate::entry::{Entry, Told};
use crate::lent::Lent;
use x25_circuit::Notice;
use x25_layer::{Layer, Report, Stretch};
use x25_packet::call_views;

// The name of no stretch: there is none on a channel that isn't configured.
pub(crate) const NO_NAME: Stretch = Stretch {
    restarts: 0,
    clears: 0,
    resets: 0,
};

// What a notice tells the user of a channel, where its user data are at most 128 octets.
fn told_of(lent: &mut Lent, notice: Notice<'_>) -> Told
    ensures { IsShort (plain_notice lent.old.message notice.entry)
        → plain_told lent.new result ≡ plain_notice lent.old.message notice.entry }
{
    match notice {
        Notice::Incoming { a, params, body } => {
            let views = call_views(a, body);
            lent.called.set_digits(&views.called);
            lent.calling.set_digits(&views.calling);
            lent.user.set(views.user);
            Told::Incoming { params }
        }
        Notice::Connected { params } => Told::Connected { params },
        Notice::Cleared { cause, diagnostic } => Told::Cleared { cause, diagnostic },
        Notice::ClearDone => Told::ClearDone,
        Notice::WasReset { cause, diagnostic } => Told::WasReset { cause, diagnostic },
        Notice::ResetDone => Told::ResetDone,
        Notice::Delivered { marks } => Told::Delivered { marks },
        Notice::Interrupted { user } => {
            lent.user.set(user);
            Told::Interrupted
        }
        Notice::InterruptDone => Told::InterruptDone,
        Notice::Fault { diagnostic } => Told::Fault { diagnostic },
    }
}

/// Enters what the layer reported, into a list that is empty: of a channel first that this end's own call was dropped,
/// where it was.
pub(crate) fn enter_told(layer: &Layer, lent: &mut Lent, told: Report<'_>, list: &mut Vec<Entry>)
    requires room { HasPlaces 2 list.old }
    requires none { list.old.items ≡ [] }
    ensures few { GrowsBy 2 list.old list.new }
    ensures beside { (said : Said) → sum_by comes_beside (map (plain_entry said) list.new.items) ≡ 0 }
    ensures entered { (c : LayerSettings) (l : LayerState) → FitsLayer c layer.now l
        → AreTellable c (plain_report lent.old.message told.entry) →
        map (plain_entry lent.new) list.new.items ≡ station_told l (plain_report lent.old.message told.entry) }
{
    match told {
        Report::Nothing => {}
        Report::Channel {
            channel,
            collided,
            notice,
        } => {
            let name = layer.name(channel).unwrap_or(NO_NAME);
            if collided {
                list.push_reserved(Entry::Told {
                    channel,
                    name,
                    told: Told::Collided,
                });
            }
            if let Some(notice) = notice {
                let told = told_of(lent, notice);
                list.push_reserved(Entry::Told {
                    channel,
                    name,
                    told,
                });
            }
        }
        Report::Restarted { cause, diagnostic } => {
            list.push_reserved(Entry::WasRestarted { cause, diagnostic });
        }
        Report::RestartDone => list.push_reserved(Entry::RestartDone),
        Report::Fault { diagnostic } => list.push_reserved(Entry::Fault { diagnostic }),
    }
}

/// The channel of what the layer reported, where that is of a packet that may bring more: of a call, of its acceptance
/// or of its end.
pub(crate) fn bringing(told: &Report<'_>) -> Option<u16>
    ensures { (message : List ℕ) → result ≡ bringing (plain_report message told.now) }
{
    match told {
        Report::Channel {
            channel,
            notice: Some(
                Notice::Incoming { .. }
                | Notice::Connected { .. }
                | Notice::Cleared { .. }
                | Notice::ClearDone,
            ),
            ..
        } => Some(*channel),
        _ => None,
    }
}

/// Enters what a packet brought beside what was told of it on this channel.
pub(crate) fn enter_beside(beside: Beside<'_>, channel: Option<u16>, entries: &mut Entries)
    requires none { sum_by comes_beside entries.old.items ≡ 0 }
    requires room { length entries.old.items < 3 }
    requires few { AreFew (plain_beside beside) }
    ensures entered { entries.new.items ≡ entries.old.items
        ++ entries_beside (plain_beside beside.entry) channel }
{
    match beside {
        Beside::Nothing => {}
        Beside::Fields(fields) => {
            let Some(channel) = channel else {
                return;
            };
            entries.lent.facilities.set(fields.facilities);
            entries.lent.beside.set(fields.user);
            entries.list.push_reserved(Entry::Beside { channel });
        }
        Beside::Diagnostic(diagnostic) => entries.push(Entry::Diagnosed { diagnostic }),
    }
}
