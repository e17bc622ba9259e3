//! The data packets that wait, one at a time, of channels in rising order.
ghost use Rattle.std.specs.Prelude.{◌≡◌, false};
ghost use Rattle.x25_packet.specs.Spelling.{IsChannel};
ghost use Rattle.x25_layer.specs.code.Answering.{PullsNext};
ghost use Rattle.x25_layer.specs.code.Pulling.{PullsOne};

use crate::layer::Layer;
use crate::sheet::Sheet;
use x25_circuit::{Circuit, what_waits_is_pulled};

// The next data packet of a circuit is to be put, where it may send one: whether it may.
#[inline(always)]
fn pull_one(circuit: &mut Circuit, channel: u16, sheet: &mut Sheet) -> bool
    requires { IsChannel channel }
    ensures pulls { PullsOne channel circuit.old circuit.new sheet.new result }
    ensures still { result ≡ false → sheet.new ≡ sheet.old }
{
    if circuit.waits() == 0 {
        return false;
    }
    pull_waiting(circuit, channel, sheet)
}

// The same where a message waits in the circuit.
#[inline(never)]
fn pull_waiting(circuit: &mut Circuit, channel: u16, sheet: &mut Sheet) -> bool
    requires { IsChannel channel }
    ensures pulls { PullsOne channel circuit.old circuit.new sheet.new result }
    ensures still { result ≡ false → sheet.new ≡ sheet.old }
{
    let Some(data) = circuit.pull() else {
        return false;
    };
    let packet = data.packet().with_channel(channel);
    sheet.spell(&packet);
    true
}

impl Layer {
    /// The next data packet that may be sent, of the channels behind this one in rising order, is to be put. It answers
    /// the channel; where none has one, nothing happens.
    #[inline(always)]
    pub fn pull(&mut self, behind: u16) -> Option<u16>
        ensures { PullsNext self.old self.new behind result }
    {
        what_waits_is_pulled();
        let mut channel = behind;
        while let Some(next) = self.busy.after(channel) {
            let circuit = &mut self.circuits[usize::from(next) - 1];
            let is_put = pull_one(circuit, next, &mut self.sheet);
            self.busy.leave_idle(next, circuit);
            if is_put {
                return Some(next);
            }
            channel = next;
        }
        None
    }
}
