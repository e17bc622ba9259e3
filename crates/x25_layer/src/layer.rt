ghost use Rattle.std.specs.Prelude.{◌≡◌, ℕ, ◌-◌, ◌^◌, ◌<◌, ◌≤◌, ◌↔◌, length, if◌then◌else◌, true, false, Some, None};
ghost use Rattle.std.specs.Prelude.{IfOk};
ghost use Rattle.std.specs.Prelude.{IfErr, IfSome, IfNone, IsErrOf, slice_get};
ghost use Rattle.x25_layer.specs.code.Counts.{HaveCountsLeft};
ghost use Rattle.x25_layer.specs.code.Idle.{IdleBeside};

use crate::busy::Busy;
use crate::circuits::{begun_circuits, forget_all};
use crate::error::LayerError;
use crate::ranges::Ranges;
use crate::sheet::Sheet;
use crate::stretch::Stretch;
use std::alloc::Global;
use x25_bits::Role;
use x25_circuit::{Awaits, Circuit, Params};

// 1 where it is so.
fn one_if(is_so: bool) -> usize
    ensures value { result ≡ (if is_so then 1 else 0) }
    ensures few { result ≤ 1 }
{
    if is_so { 1 } else { 0 }
}

/// The packet layer of one end, DTE or DCE: its logical channels, numbered from 1.
///
/// It knows no link. Each call that has a packet to put leaves its octets, which are put by who calls: into a link that
/// keeps order, before the next call. ITU-T X.25 (10/96), sections 3 and 4.
#[derive(Drop)]
pub struct Layer {
    pub(crate) role: Role,
    /// Whether the user data of a CALL may be long.
    pub(crate) long_data: bool,
    pub(crate) ranges: Ranges,
    /// This end's RESTART isn't confirmed yet.
    pub(crate) restarting: bool,
    /// How many restarts were done since link set-up.
    pub(crate) restarts: u64,
    /// The first is on channel 1.
    pub(crate) circuits: Vec<Circuit>,
    ghost few: { length circuits.items ≤ 4095 },
    /// The circuits of all other channels are idle.
    pub(crate) busy: Busy,
    ghost places: { busy.count ≡ length circuits.items },
    ghost still: { IdleBeside busy.words.items circuits.items },
    /// It is known that no count is at 2^64 - 1.
    pub(crate) counts_left: bool,
    ghost restarts_left: { counts_left ≡ true → restarts < 2 ^ 64 - 1 },
    ghost circuits_left: { counts_left ≡ true → HaveCountsLeft circuits.items },
    /// The packet that the call before has to put.
    pub(crate) sheet: Sheet,
}

impl Layer {
    ghost use Rattle.x25_circuit.specs.code.FitsCircuit.{FitsCircuit};
    ghost use Rattle.x25_layer.specs.Layer.{LayerSettings, at_rest, rested};
    ghost use Rattle.x25_layer.specs.Ranges.{is_number, are_ranges};
    ghost use Rattle.x25_layer.specs.Layer.{Layer as State};
    ghost use Rattle.x25_layer.specs.code.FitsLayer.{FitsLayer, plain_stretch, name_at, params_at, is_open_at};
    ghost use Rattle.x25_layer.specs.code.FitsLayer.{awaited_at, unacknowledged_at};
    ghost use Rattle.x25_layer.specs.code.FitsLayer.{awaited_up_to};
    ghost use Rattle.x25_layer.specs.code.FitsLayer.{waits_up_to};
    ghost use Rattle.x25_layer.specs.Layer.Confirmed.{unconfirmed_at};
    ghost use Rattle.x25_layer.specs.Layer.MessageRoom.{room_at};

    /// The layer of an end whose link isn't up, with these channels. With `long_data` a call has at most 128 octets of
    /// user data (profile), else at most 16. Both are the same at both ends.
    ///
    /// 14 BadConfig where there aren't 1 to 4,095 channels, more are one-way than there are, or no message has an
    /// octet, and else 70 alone.
    pub fn with(
        alloc: Global,
        role: Role,
        channels: Ranges,
        long_data: bool,
    ) -> Result<Layer, LayerError>
        ensures fits { IfOk result (λ v. FitsLayer
            (record {
              channels = channels;
              circuit = record {
                role = role;
                long_data = long_data;
                longest = channels.message;
              };
            }) v at_rest) }
        ensures config { IsErrOf result LayerError.BadConfig ↔ (are_ranges channels ≡ false) }
        ensures memory { are_ranges channels ≡ true → IfErr result (λ e. e ≡ LayerError.NoMemory) }
    {
        if !channels.are_valid() {
            return Err(LayerError::BadConfig);
        }
        let count = usize::from(channels.count);
        let mut busy = Busy::with(alloc, channels.count)?;
        let circuits = begun_circuits(alloc, role, count, long_data, channels.message)?;
        busy.note_all(&circuits);
        let Ok(sheet) = Sheet::new(alloc) else {
            return Err(LayerError::NoMemory);
        };
        Ok(Layer {
            role,
            long_data,
            ranges: channels,
            restarting: false,
            restarts: 0,
            circuits,
            busy,
            counts_left: false,
            sheet,
        })
    }

    /// The name of the stretch of a channel, where it is configured.
    pub fn name(&self, channel: u16) -> Option<Stretch>
        ensures { (c : LayerSettings) (l : State) → FitsLayer c self.now l
            → plain_stretch result ≡ name_at c l channel }
    {
        let circuit = self.circuit(channel)?;
        let (clears, resets) = circuit.counts();
        Some(Stretch {
            restarts: self.restarts,
            clears,
            resets,
        })
    }

    /// Packet sizes and windows on a channel, where it is configured: those that are proposed, until the call is
    /// accepted, and then those in force; the defaults where there is no call.
    pub fn params(&self, channel: u16) -> Option<Params>
        ensures { (c : LayerSettings) (l : State) → FitsLayer c self.now l → result ≡ params_at c l channel }
    {
        let circuit = self.circuit(channel)?;
        Some(circuit.params())
    }

    /// Whether a channel is configured and in p4 with d1.
    pub fn is_open(&self, channel: u16) -> bool
        ensures { (c : LayerSettings) (l : State) → FitsLayer c self.now l → result ≡ is_open_at c l channel }
    {
        match self.circuit(channel) {
            Some(circuit) => circuit.is_open(),
            None => false,
        }
    }

    /// The answer that this end awaits on a channel; none where it isn't configured, while a restart is under way, and
    /// where the link isn't up.
    pub fn awaits(&self, channel: u16) -> Awaits
        ensures { (c : LayerSettings) (l : State) → FitsLayer c self.now l → result ≡ awaited_at c l channel }
    {
        match self.circuit(channel) {
            Some(circuit) => circuit.awaits(),
            None => Awaits::Nothing,
        }
    }

    /// P(S) of the first data packet of a channel that isn't acknowledged, while the other end is ready to receive;
    /// none where it isn't configured, and while a restart is under way.
    pub fn unacknowledged(&self, channel: u16) -> Option<u8>
        ensures { (c : LayerSettings) (l : State) → FitsLayer c self.now l → result ≡ unacknowledged_at c l channel }
    {
        if self.restarting {
            return None;
        }
        match self.circuit(channel) {
            Some(circuit) => circuit.unacknowledged(),
            None => None,
        }
    }

    /// The octets of the packet that the call before has to put into the link; none where it has none to put.
    pub fn to_put(&self) -> &[u8]
        ensures { result.now ≡ self.now.sheet }
    {
        self.sheet.as_slice()
    }

    /// How many channels there are.
    pub fn channels(&self) -> u16
        ensures { (c : LayerSettings) (l : State) → FitsLayer c self.now l → result ≡ c.channels.count }
    {
        self.circuits.len() as u16
    }

    /// The next channel after one on which something may be under way: on those between no answer is awaited, and no
    /// data packet isn't acknowledged.
    pub fn busy_after(&self, channel: u16) -> Option<u16>
        ensures higher { IfSome result (λ next. channel < next) }
        ensures between { (c : LayerSettings) (l : State) → FitsLayer c self.now l
            → IfSome result (λ next. (k : ℕ) → channel < k → k < next → awaited_at c l k ≡ Awaits.Nothing) }
        ensures none { (c : LayerSettings) (l : State) → FitsLayer c self.now l
            → IfNone result ((k : ℕ) → channel < k → awaited_at c l k ≡ Awaits.Nothing) }
        ensures acknowledged { (c : LayerSettings) (l : State) → FitsLayer c self.now l
            → IfSome result (λ next. (k : ℕ) → channel < k → k < next → unacknowledged_at c l k ≡ None) }
        ensures all_acknowledged { (c : LayerSettings) (l : State) → FitsLayer c self.now l
            → IfNone result ((k : ℕ) → channel < k → unacknowledged_at c l k ≡ None) }
    {
        self.busy.after(channel)
    }

    /// On how many channels an answer is awaited.
    pub fn awaited(&self) -> usize
        ensures { (c : LayerSettings) (l : State) → FitsLayer c self.now l
            → result ≡ awaited_up_to l.circuits c.channels.count }
    {
        let mut awaited = 0;
        let mut channel = 0;
        while let Some(next) = self.busy.after(channel) {
            awaited += one_if(self.circuits[usize::from(next) - 1].awaits().is_any());
            channel = next;
        }
        awaited
    }

    /// Whether a restart is under way: this end awaits that its RESTART be confirmed.
    pub fn is_restarting(&self) -> bool
        ensures { (c : LayerSettings) (l : State) → FitsLayer c self.now l → result ≡ l.restarting }
    {
        self.restarting
    }

    /// How many messages wait in all circuits.
    pub fn waits(&self) -> usize
        ensures { (c : LayerSettings) (l : State) → FitsLayer c self.now l
            → result ≡ waits_up_to l.circuits c.channels.count }
    {
        let mut waits = 0;
        let mut channel = 0;
        while let Some(next) = self.busy.after(channel) {
            waits += self.circuits[usize::from(next) - 1].waits();
            channel = next;
        }
        waits
    }

    /// How many messages more a channel takes: 8 less those that wait, where it is open, and 0 where it isn't or a
    /// restart is under way.
    pub fn room(&self, channel: u16) -> usize
        ensures value { (c : LayerSettings) (l : State) → FitsLayer c self.now l → result ≡ room_at c l channel }
        ensures few { result ≤ 8 }
    {
        if self.restarting {
            return 0;
        }
        match self.circuit(channel) {
            Some(circuit) => circuit.room(),
            None => 0,
        }
    }

    /// How many messages of a channel haven't the confirmation yet that was asked of them: they wait, or their last
    /// packet isn't acknowledged. 0 where it isn't configured. ITU-T X.25 (10/96), section 4.4.1.4.
    pub fn unconfirmed(&self, channel: u16) -> usize
        ensures { (c : LayerSettings) (l : State) → FitsLayer c self.now l → result ≡ unconfirmed_at c l channel }
    {
        match self.circuit(channel) {
            Some(circuit) => circuit.unconfirmed(),
            None => 0,
        }
    }

    /// Drops everything, at LinkDown: no restart is under way, and all channels are in p1. The counts are as they were,
    /// until `up` sets them to 0.
    pub fn down(&mut self)
        ensures layer { (c : LayerSettings) (l : State) → FitsLayer c self.old l → FitsLayer c self.new (rested l) }
    {
        self.restarting = false;
        self.counts_left = false;
        forget_all(&mut self.circuits);
        self.busy.note_all(&self.circuits);
    }

    /// The circuit of a channel.
    pub(crate) fn circuit(&self, channel: u16) -> Option<&Circuit>
        ensures fits { (c : LayerSettings) (l : State) → FitsLayer c self.now l
            → IfSome result (λ circuit. FitsCircuit c.circuit circuit.now (l.circuits channel)) }
        ensures is { IfSome result (λ circuit. slice_get self.now.circuits.items (channel - 1) ≡ Some circuit.now) }
        ensures some { IfSome result (λ circuit. is_number (length self.now.circuits.items) channel ≡ true) }
        ensures none { IfNone result (is_number (length self.now.circuits.items) channel ≡ false) }
    {
        if channel == 0 {
            return None;
        }
        self.circuits.get(channel as usize - 1)
    }
}
