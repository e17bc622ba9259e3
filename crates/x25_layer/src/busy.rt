//! The channels in which something is under way, so that no step asks the circuits of the others.
ghost use Rattle.std.specs.Prelude.{◌≡◌, ℕ, ◌+◌, ◌/◌, ◌%◌, ◌^◌, ◌<◌, ◌≤◌, length, slice_index, true, false, IfOk};
ghost use Rattle.std.specs.Prelude.{IfErr, IfSome, IfNone, if◌then◌else◌};
ghost use Rattle.std.specs.Int.{bit_at};
ghost use Rattle.x25_layer.specs.Ranges.{is_number};
ghost use Rattle.x25_layer.specs.code.Idle.{IsOutside, IsIdle, IdleBeside};

use crate::error::LayerError;
use std::alloc::Global;
use x25_circuit::Circuit;

// The bit of a place in a word, or none.
fn bit(place: u16, is_set: bool) -> u64
    requires { place < 64 }
    ensures { result ≡ (if is_set then 2 ^ place else 0) }
{
    u64::from(is_set) << u32::from(place)
}

/// Some of the channels of a layer, among which are all whose circuits aren't idle.
#[derive(Drop)]
pub(crate) struct Busy {
    /// A bit for each channel, and one for 0.
    words: Vec<u64>,
    /// A bit for each word that ever had one.
    used: u64,
    /// How many channels have a place.
    count: u16,
    ghost few: { count ≤ 4095 },
    ghost places: { length words.items ≡ count / 64 + 1 },
    ghost within: { (k : ℕ) → count < k → IsOutside words.items k },
    ghost unused: { (i : ℕ) → bit_at used i ≡ 0 → slice_index words.items i ≡ 0 },
}

impl Busy {
    /// None of so many channels.
    pub(crate) fn with(alloc: Global, count: u16) -> Result<Busy, LayerError>
        requires { count ≤ 4095 }
        ensures places { IfOk result (λ v. v.count ≡ count) }
        ensures err { IfErr result (λ e. e ≡ LayerError.NoMemory) }
    {
        match vec![in alloc; 0u64; usize::from(count / 64) + 1] {
            Ok(words) => Ok(Busy {
                words,
                used: 0,
                count,
            }),
            Err(_) => Err(LayerError::NoMemory),
        }
    }

    /// The next one after a channel.
    pub(crate) fn after(&self, channel: u16) -> Option<u16>
        ensures listed { IfSome result (λ next. IsOutside self.now.words.items next → ⊥) }
        ensures higher { IfSome result (λ next. channel < next) }
        ensures within { IfSome result (λ next. next ≤ self.now.count) }
        ensures between { IfSome result (λ next. (k : ℕ) → channel < k → k < next
            → IsOutside self.now.words.items k) }
        ensures none { IfNone result ((k : ℕ) → channel < k → IsOutside self.now.words.items k) }
    {
        if channel >= self.count {
            return None;
        }
        let next = channel + 1;
        let mut at = usize::from(next / 64);
        let mut left = self.words[at] & (u64::MAX << u32::from(next % 64));
        while left == 0 {
            let further = self.used >> at as u32 >> 1;
            if further == 0 {
                return None;
            }
            at += 1 + further.trailing_zeros() as usize;
            if at >= self.words.len() {
                return None;
            }
            left = self.words[at];
        }
        Some((64 * at + left.trailing_zeros() as usize) as u16)
    }

    /// With this channel, where it is busy.
    pub(crate) fn note(&mut self, channel: u16, is_busy: bool)
        requires { is_number self.old.count channel ≡ true }
        ensures others { (k : ℕ) → IsOutside self.new.words.items k → IsOutside self.old.words.items k }
        ensures this { IsOutside self.new.words.items channel → is_busy ≡ false }
        ensures places { self.new.count ≡ self.old.count }
    {
        self.words[usize::from(channel / 64)] |= bit(channel % 64, is_busy);
        self.used |= bit(channel / 64, is_busy);
    }

    /// Without this channel, which is one of them, where its circuit is idle.
    pub(crate) fn leave_idle(&mut self, channel: u16, circuit: &Circuit)
        requires within { channel ≤ self.old.count }
        requires listed { IsOutside self.old.words.items channel → ⊥ }
        ensures others { (k : ℕ) → (k ≡ channel → ⊥) → IsOutside self.new.words.items k
            → IsOutside self.old.words.items k }
        ensures this { IsOutside self.new.words.items channel → IsIdle circuit.now }
        ensures places { self.new.count ≡ self.old.count }
    {
        self.words[usize::from(channel / 64)] &= !bit(channel % 64, circuit.is_idle());
    }

    /// With all of these whose circuits aren't idle; the first is on channel 1.
    pub(crate) fn note_all(&mut self, circuits: &[Circuit])
        requires few { length circuits.now ≤ 4095 }
        requires places { self.old.count ≡ length circuits.now }
        ensures idle { IdleBeside self.new.words.items circuits.now }
        ensures places { self.new.count ≡ self.old.count }
    {
        let mut channel = 0;
        for circuit in circuits {
            channel += 1;
            self.note(channel, !circuit.is_idle());
        }
    }
}
