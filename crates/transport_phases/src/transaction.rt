//! What a hop keeps of one transaction, and how a call or a return of it is judged.
ghost use Rattle.std.specs.Prelude.{◌≡◌};
ghost use Rattle.transport_phases.specs.Phases.{allows, may_answer, may_update, is_open_nb, is_open_b, is_nothing, fresh, is_fresh, is_idle, is_requesting, is_responding, state_called as called_in, state_accepted, state_updated, called, returned, update_rules, verdict, first_broken, call_rules, return_rules, b_call_rules, b_return_rules};

use crate::{Answer, Path, Phase, Rule};

/// Where a transaction stands in the base protocol on a hop.
#[derive(Clone, Copy, Default)]
pub enum State {
    /// It has not begun, or is over.
    #[default]
    Idle,
    /// The request has begun.
    Req,
    /// The request has ended.
    Acc,
    /// The response has begun.
    Resp,
    /// The end of the response is being told.
    Closing,
}

/// Which transport call of a transaction is open on a hop.
#[derive(Clone, Copy, Default)]
pub enum Open {
    /// None.
    #[default]
    Nothing,
    /// An `nb_transport`.
    NonBlocking,
    /// A `b_transport`.
    Blocking,
}

/// What a hop keeps of a transaction.
#[derive(Clone, Copy, Default)]
pub struct Kept {
    /// Where it stands.
    pub state: State,
    /// Which call of it is open.
    pub call: Open,
}

impl State {
    fn is_idle(self) -> bool
        ensures { result ≡ is_idle self }
    {
        matches!(self, State::Idle)
    }

    fn allows(self, phase: Phase) -> bool
        ensures { result ≡ allows self phase }
    {
        match (self, phase) {
            (State::Idle, Phase::BeginReq) => true,
            (State::Req, Phase::EndReq | Phase::BeginResp) => true,
            (State::Acc, Phase::BeginResp) => true,
            (State::Resp, Phase::EndResp) => true,
            _ => false,
        }
    }

    // The answer may come after the call in which the transaction is in this state.
    fn may_answer(self, answer: Answer) -> bool
        ensures { result ≡ may_answer self answer }
    {
        match (self, answer) {
            (State::Idle, _) => false,
            (State::Req | State::Resp, _) => true,
            (State::Acc, Answer::Accepted) => true,
            (State::Acc, _) => false,
            (State::Closing, Answer::Updated) => false,
            (State::Closing, _) => true,
        }
    }

    fn may_update(self, phase: Phase) -> bool
        ensures { result ≡ may_update self phase }
    {
        match (self, phase) {
            (State::Req, Phase::EndReq | Phase::BeginResp) => true,
            (State::Resp, Phase::EndResp) => true,
            _ => false,
        }
    }
}

impl State {
    // The state after ACCEPTED.
    fn accepted(self) -> State
        ensures { result ≡ state_accepted self }
    {
        match self {
            State::Closing => State::Idle,
            state => state,
        }
    }

    // The state after UPDATED with the phase.
    fn updated(self, phase: Option<Phase>) -> State
        ensures { result ≡ state_updated self phase }
    {
        match phase {
            None | Some(Phase::BeginReq) => self,
            Some(Phase::EndReq) => State::Acc,
            Some(Phase::BeginResp) => State::Resp,
            Some(Phase::EndResp) => State::Idle,
        }
    }
}

impl Open {
    fn is_nb(self) -> bool
        ensures { result ≡ is_open_nb self }
    {
        matches!(self, Open::NonBlocking)
    }

    fn is_b(self) -> bool
        ensures { result ≡ is_open_b self }
    {
        matches!(self, Open::Blocking)
    }

    fn is_nothing(self) -> bool
        ensures { result ≡ is_nothing self }
    {
        matches!(self, Open::Nothing)
    }
}

fn state_called(state: State, phase: Option<Phase>) -> State
    ensures { result ≡ called_in state phase }
{
    match phase {
        None => state,
        Some(phase) => phase.state_in_call(),
    }
}

impl Kept {
    // A transaction that is idle and has no call open.
    pub(crate) fn fresh() -> Kept
        ensures { result ≡ fresh }
    {
        Kept {
            state: State::Idle,
            call: Open::Nothing,
        }
    }

    pub(crate) fn is_fresh(self) -> bool
        ensures { result ≡ is_fresh self }
    {
        self.state.is_idle() && self.call.is_nothing()
    }

    pub(crate) fn is_requesting(self) -> bool
        ensures { result ≡ is_requesting self }
    {
        matches!(self.state, State::Req)
    }

    pub(crate) fn is_responding(self) -> bool
        ensures { result ≡ is_responding self }
    {
        matches!(self.state, State::Resp)
    }

    // Judges an `nb_transport` call; `others_request` and `others_respond` say what other transactions do.
    pub(crate) fn judge_call(
        self,
        others_request: bool,
        others_respond: bool,
        path: Path,
        phase: Option<Phase>,
        complete: bool,
        handled: bool,
    ) -> Result<(), Rule>
        ensures { result ≡ verdict (first_broken (call_rules self others_request others_respond path phase complete handled)) }
    {
        let phase = match phase {
            Some(phase) => phase,
            None => return Err(Rule::P1),
        };
        if !phase.is_on(path) {
            return Err(Rule::P1);
        }
        if self.call.is_nb() {
            return Err(Rule::P2);
        }
        if phase.is_begin_req() && others_request {
            return Err(Rule::P3);
        }
        if phase.is_begin_resp() && others_respond {
            return Err(Rule::P4);
        }
        if !self.state.allows(phase) {
            return Err(Rule::P5);
        }
        if phase.is_begin_resp() && !complete {
            return Err(Rule::P6);
        }
        if self.call.is_b() {
            return Err(Rule::P9);
        }
        if !handled {
            return Err(Rule::P10);
        }
        Ok(())
    }

    // Judges the return of an `nb_transport` call.
    pub(crate) fn judge_return(
        self,
        others_respond: bool,
        answer: Option<Answer>,
        phase: Option<Phase>,
        complete: bool,
    ) -> Result<(), Rule>
        ensures { result ≡ verdict (first_broken (return_rules self.state others_respond answer phase complete)) }
    {
        let answer = match answer {
            Some(answer) => answer,
            None => return Err(Rule::P7),
        };
        if !self.state.may_answer(answer) {
            return Err(Rule::P7);
        }
        match answer {
            Answer::Accepted => Ok(()),
            Answer::Updated => self.judge_update(others_respond, phase, complete),
            Answer::Completed if complete => Ok(()),
            Answer::Completed => Err(Rule::P6),
        }
    }

    fn judge_update(
        self,
        others_respond: bool,
        phase: Option<Phase>,
        complete: bool,
    ) -> Result<(), Rule>
        ensures { result ≡ verdict (first_broken (update_rules self.state others_respond phase complete)) }
    {
        let phase = match phase {
            Some(phase) => phase,
            None => return Err(Rule::P8),
        };
        if !self.state.may_update(phase) {
            return Err(Rule::P8);
        }
        if phase.is_begin_resp() && others_respond {
            return Err(Rule::P4);
        }
        if phase.is_begin_resp() && !complete {
            return Err(Rule::P6);
        }
        Ok(())
    }

    // Judges a `b_transport` call.
    pub(crate) fn judge_b_call(self, handled: bool) -> Result<(), Rule>
        ensures { result ≡ verdict (first_broken (b_call_rules self handled)) }
    {
        if self.call.is_b() {
            return Err(Rule::P2);
        }
        if !self.state.is_idle() {
            return Err(Rule::P9);
        }
        if !handled {
            return Err(Rule::P10);
        }
        Ok(())
    }

    // What an `nb_transport` call with the phase makes of it.
    pub(crate) fn called(self, phase: Option<Phase>) -> Kept
        ensures { result ≡ called self phase }
    {
        Kept {
            state: state_called(self.state, phase),
            call: Open::NonBlocking,
        }
    }

    // The same state, with this call open.
    pub(crate) fn with_call(self, call: Open) -> Kept
        ensures { result ≡ record self { call = call } }
    {
        Kept {
            state: self.state,
            call,
        }
    }

    // What the return of an `nb_transport` call makes of it.
    pub(crate) fn returned(self, answer: Option<Answer>, phase: Option<Phase>) -> Kept
        ensures { result ≡ returned self answer phase }
    {
        let state = match answer {
            None => self.state,
            Some(Answer::Accepted) => self.state.accepted(),
            Some(Answer::Updated) => self.state.updated(phase),
            Some(Answer::Completed) => State::Idle,
        };
        Kept {
            state,
            call: Open::Nothing,
        }
    }
}
