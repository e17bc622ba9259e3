//! Restart. ITU-T X.25 (10/96), section 3.3.
ghost use Rattle.std.specs.Prelude.{◌≡◌, suc, ◌-◌, ◌^◌, ◌<◌, ◌≤◌, [], length, false};
ghost use Rattle.x25_packet.specs.Packet.{restart, restart_conf};
ghost use Rattle.x25_packet.specs.Spelling.{spelling_of};
ghost use Rattle.x25_circuit.specs.Circuit.{begun};
ghost use Rattle.x25_circuit.specs.Hearing.{cause_at};
ghost use Rattle.x25_layer.specs.Layer.{LayerSettings, restart_cause, is_ready, restarting_from, layer_answers};
ghost use Rattle.x25_layer.specs.Layer.{goes_up};
ghost use Rattle.x25_layer.specs.Layer.{Layer as State};
ghost use Rattle.x25_layer.specs.code.FitsLayer.{FitsLayer};
ghost use Rattle.x25_layer.specs.code.Answering.{spelled, Hears, Answers};
ghost use Rattle.x25_layer.specs.Calls.{Restarts};
ghost use Rattle.x25_layer.specs.Report.{is_of_channel};

use crate::circuits::{begin_all, forget_all};
use crate::error::LayerError;
use crate::layer::Layer;
use crate::link_state::LinkState;
use crate::report::Report;
use x25_bits::Role;
use x25_circuit::{CircuitError, may_restart_for};
use x25_packet::Packet;

/// The diagnostic of a RESTART CONFIRMATION of no restart.
const NO_RESTART: u8 = 17;

// The cause of the RESTART at LinkUp (profile): 7 is network operational.
fn restart_cause(role: Role) -> u8
    ensures { result ≡ restart_cause role }
{
    match role {
        Role::Dte => 0,
        Role::Dce => 7,
    }
}

// The cause of the RESTART that answers a RESTART CONFIRMATION of no restart: 1 is local procedure error, in place of
// which a DTE sends 128 (profile).
fn fault_cause(role: Role) -> u8
    ensures { result ≡ cause_at role 1 }
{
    match role {
        Role::Dte => 128,
        Role::Dce => 1,
    }
}

impl Layer {
    /// Begins afresh, at LinkUp, with a RESTART that is to be put.
    pub fn up(&mut self)
        ensures layer { (c : LayerSettings) (l : State) → FitsLayer c self.old l
            → FitsLayer c self.new (goes_up c).next }
        ensures put { (c : LayerSettings) (l : State) → FitsLayer c self.old l
            → self.new.sheet ≡ spelled (goes_up c).owed }
        ensures short { length self.new.sheet ≤ 260 }
    {
        self.restarting = true;
        self.restarts = 0;
        self.counts_left = false;
        begin_all(&mut self.circuits);
        self.busy.note_all(&self.circuits);
        self.sheet.spell(&Packet::Restart {
            cause: restart_cause(self.role),
            diagnostic: 0,
        });
    }

    /// Restarts all channels of this end: each goes to p1, and RESTART with this cause and diagnostic is to be put.
    ///
    /// 9 NotUp, then 40 Restarting, then 10 QueueFull where 256 packets wait, then 34 BadParameter where the cause is
    /// none that the user of this end may give, and nothing else. The layer is as before then.
    pub fn restart(&mut self, link: LinkState, cause: u8, diagnostic: u8) -> Result<(), LayerError>
        ensures { Answers self.old self.new result link (Restarts cause diagnostic) }
    {
        if let Some(error) = self.unready(link) {
            return Err(error);
        }
        if link.is_full {
            return Err(LayerError::QueueFull);
        }
        if !may_restart_for(self.role, cause) {
            return Err(LayerError::Circuit(CircuitError::BadParameter));
        }
        self.send_restart(cause, diagnostic);
        Ok(())
    }

    // Restarts all channels of this end by a RESTART.
    fn send_restart(&mut self, cause: u8, diagnostic: u8)
        ensures layer { (c : LayerSettings) (l : State) → FitsLayer c self.old l
            → FitsLayer c self.new (restarting_from l.restarts l.circuits) }
        ensures put { self.new.sheet ≡ spelling_of (restart cause diagnostic) }
    {
        self.restarting = true;
        self.counts_left = false;
        forget_all(&mut self.circuits);
        self.busy.note_all(&self.circuits);
        self.sheet.spell(&Packet::Restart { cause, diagnostic });
    }

    // One restart more is done: all circuits begin afresh.
    fn restart_is_done(&mut self)
        requires { self.old.restarts < 2 ^ 64 - 1 }
        ensures layer { (c : LayerSettings) (l : State) → FitsLayer c self.old l
            → FitsLayer c self.new (is_ready (suc l.restarts) (λ k. begun)) }
        ensures put { self.new.sheet ≡ self.old.sheet }
    {
        self.restarting = false;
        self.restarts += 1;
        self.counts_left = false;
        begin_all(&mut self.circuits);
        self.busy.note_all(&self.circuits);
    }

    /// RESTART. It confirms this end's RESTART, or else it is confirmed (section 3.3.2 and 3.3.3).
    pub(crate) fn hear_restart<'a>(&mut self, cause: u8, diagnostic: u8) -> Report<'a>
        requires restarts { self.old.restarts < 2 ^ 64 - 1 }
        requires none { self.old.sheet ≡ [] }
        ensures hears { Hears self.old self.new result [] [] (λ c l. layer_answers c l (restart cause diagnostic)) }
        ensures told { is_of_channel result ≡ false }
    {
        if self.restarting {
            self.restart_is_done();
            return Report::Restarted { cause, diagnostic };
        }
        self.restart_is_done();
        self.sheet.spell(&Packet::RestartConf);
        Report::Restarted { cause, diagnostic }
    }

    /// RESTART CONFIRMATION. Where this end restarts nothing, it is an error of procedure, answered by RESTART
    /// (profile).
    pub(crate) fn hear_restart_conf<'a>(&mut self) -> Report<'a>
        requires restarts { self.old.restarts < 2 ^ 64 - 1 }
        requires none { self.old.sheet ≡ [] }
        ensures hears { Hears self.old self.new result [] [] (λ c l. layer_answers c l restart_conf) }
        ensures told { is_of_channel result ≡ false }
    {
        if self.restarting {
            self.restart_is_done();
            return Report::RestartDone;
        }
        self.send_restart(fault_cause(self.role), NO_RESTART);
        Report::Fault {
            diagnostic: NO_RESTART,
        }
    }
}
