//! CALL and CALL ACCEPTED. ITU-T X.25 (10/96), sections 4.1.2 to 4.1.6.
ghost use Rattle.std.specs.Prelude.{◌≡◌, true};
ghost use Rattle.x25_packet.specs.Views.{called_of, calling_of, field_of, user_of};
ghost use Rattle.x25_circuit.specs.Params.{said_in};
ghost use Rattle.x25_circuit.specs.code.FitsCircuit.{made_of};
ghost use Rattle.x25_circuit.specs.code.Replies.{RepliesBy};
ghost use Rattle.x25_circuit.specs.Hearing.{connects, request_in, row_call, row_accept};

use crate::circuit::Circuit;
use crate::codes::{INVALID_FACILITY, INVALID_PARAMETER};
use crate::notice::{Notice, Reply};
use crate::params::FlowControl;
use crate::state::State;
use x25_bits::Role;
use x25_packet::call_views;

impl Circuit {
    pub(crate) fn hear_call<'a>(&mut self, a: bool, body: &'a [u8]) -> Reply<'a>
        ensures { RepliesBy self.old self.new result
            (λ c x. row_call c x self.old.state (request_in (called_of a body.now) (calling_of a body.now)
            (field_of a body.now) (user_of a body.now))) }
    {
        let collided = match (self.state, self.role) {
            (State::Free, _) => false,
            // A call of each end: the DTE waits for the answer to what it proposed, and the DCE gives its own call up.
            (State::Calling, Role::Dte) => {
                self.enter(State::Collision, self.flow, true);
                return Reply::nothing();
            }
            (State::Calling, Role::Dce) => true,
            (State::Clearing, _) => return Reply::nothing(),
            _ => return self.unexpected(),
        };
        let flow = FlowControl::usual().said(call_views(a, body).facilities.as_slice());
        self.enter(State::Arriving, flow, false);
        Reply {
            packet: None,
            collided,
            notice: Some(Notice::Incoming {
                a,
                params: flow.params,
                body,
            }),
        }
    }

    pub(crate) fn hear_accept<'a>(&mut self, facilities: &[u8]) -> Reply<'a>
        ensures { RepliesBy self.old self.new result (λ c x. row_accept c x self.old.state facilities.now) }
    {
        match self.state {
            State::Calling | State::Collision => self.connect(facilities),
            State::Clearing => Reply::nothing(),
            _ => self.unexpected(),
        }
    }
}

impl Circuit {
    // The other end accepted the call.
    fn connect<'a>(&mut self, facilities: &[u8]) -> Reply<'a>
        requires { made_of self.old ≡ true }
        ensures { RepliesBy self.old self.new result (λ c x. connects c x (said_in x.params facilities.now)) }
    {
        let answer = self.flow.said(facilities).params;
        let Some(flow) = self.flow.answered(answer) else {
            return self.clear_for(INVALID_FACILITY, INVALID_PARAMETER);
        };
        self.enter(State::Open, flow, true);
        Reply::tells(Notice::Connected {
            params: flow.params,
        })
    }
}
