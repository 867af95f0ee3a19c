//! Phases, answers and rules.
ghost use Rattle.std.specs.Prelude.{◌≡◌};
ghost use Rattle.transport_phases.specs.Phases.{phase_of, answer_of, is_on, state_in, is_begin_req, is_begin_resp};

use crate::State;

/// The way on which an `nb_transport` call goes (IEEE 1666-2011, 11.1.2).
#[derive(Clone, Copy)]
pub enum Path {
    /// From the initiator to the target.
    Forward,
    /// From the target to the initiator.
    Backward,
}

/// A phase of the base protocol (IEEE 1666-2011, 15.2.4).
#[derive(Clone, Copy)]
pub enum Phase {
    /// `BEGIN_REQ`, 1.
    BeginReq,
    /// `END_REQ`, 2.
    EndReq,
    /// `BEGIN_RESP`, 3.
    BeginResp,
    /// `END_RESP`, 4.
    EndResp,
}

/// What an `nb_transport` call answers (IEEE 1666-2011, 11.1.2.7).
#[derive(Clone, Copy)]
pub enum Answer {
    /// `ACCEPTED`, 0: nothing was changed.
    Accepted,
    /// `UPDATED`, 1: the phase that is handed back is the next one.
    Updated,
    /// `COMPLETED`, 2: the transaction is over.
    Completed,
}

/// A rule of the base protocol that a call or a return can break.
#[derive(Clone, Copy, PartialEq, Eq, Debug)]
pub enum Rule {
    /// The phase is none of the four, or not one of that path.
    P1,
    /// A call of the same kind is open for this transaction.
    P2,
    /// `BEGIN_REQ` while another transaction requests.
    P3,
    /// `BEGIN_RESP`, by call or by return, while another transaction responds.
    P4,
    /// The transaction is in no state in which the phase may come.
    P5,
    /// The response status is `INCOMPLETE` where there has to be a response.
    P6,
    /// The answer may not come after this call.
    P7,
    /// The phase that came back with `UPDATED` may not come after this call.
    P8,
    /// `b_transport` while the transaction is not idle, or `nb_transport` while a `b_transport` of it is open.
    P9,
    /// The other end has no handler for the call.
    P10,
}

pub(crate) fn phase_of(code: i32) -> Option<Phase>
    ensures { result ≡ phase_of code }
{
    match code {
        1 => Some(Phase::BeginReq),
        2 => Some(Phase::EndReq),
        3 => Some(Phase::BeginResp),
        4 => Some(Phase::EndResp),
        _ => None,
    }
}

pub(crate) fn answer_of(code: i32) -> Option<Answer>
    ensures { result ≡ answer_of code }
{
    match code {
        0 => Some(Answer::Accepted),
        1 => Some(Answer::Updated),
        2 => Some(Answer::Completed),
        _ => None,
    }
}

impl Phase {
    pub(crate) fn is_begin_req(self) -> bool
        ensures { result ≡ is_begin_req self }
    {
        matches!(self, Phase::BeginReq)
    }

    pub(crate) fn is_begin_resp(self) -> bool
        ensures { result ≡ is_begin_resp self }
    {
        matches!(self, Phase::BeginResp)
    }

    pub(crate) fn is_on(self, path: Path) -> bool
        ensures { result ≡ is_on path self }
    {
        match (path, self) {
            (Path::Forward, Phase::BeginReq | Phase::EndResp) => true,
            (Path::Backward, Phase::EndReq | Phase::BeginResp) => true,
            _ => false,
        }
    }

    pub(crate) fn state_in_call(self) -> State
        ensures { result ≡ state_in self }
    {
        match self {
            Phase::BeginReq => State::Req,
            Phase::EndReq => State::Acc,
            Phase::BeginResp => State::Resp,
            Phase::EndResp => State::Closing,
        }
    }
}
