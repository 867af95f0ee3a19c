ghost use Rattle.std.specs.Prelude.{◌≡◌, ◌≤◌, ◌+◌, Bool, true, false, List, [], ◌∷◌, ◌++◌, OnOk, OnErr, Ok};
ghost use Rattle.std.specs.FinMap as map;
ghost use Rattle.transport_phases.specs.Phases.{verdict, is_fresh, is_requesting, is_responding};
ghost use Rattle.transport_phases.specs.Rows.{kept_in, IsRegistered, places};
ghost use Rattle.transport_phases.specs.Seats.{SetsRow, NoOther, MayEnter};
ghost use Rattle.transport_phases.specs.History.{Entry, Call, Return, BCall, BReturn, Left, broken, StandsFor, other_requests, other_responds};

use crate::Open;
use crate::phases::{Path, Rule, answer_of, phase_of};
use crate::rows::{row_at, set_row};
use crate::seats::{has_other, seat_after};
use crate::transaction::Kept;
use room_map::RoomMap;
use std::alloc::{AllocError, Global};
use std::marker::Model;

/// One hop: an initiator socket with the target socket to which it leads. It keeps a row of each transaction that is
/// not idle or has a call open, and no other.
///
/// Each call takes time in the logarithm of the number of rows.
#[derive(Drop)]
pub struct Hop {
    rows: RoomMap<u32, Kept>,
    requester: Option<u32>,
    responder: Option<u32>,
}

impl Model for Hop {
    ghost use Rattle.std.specs.Ordering.{nat_cmp};
    ghost use Rattle.room_map.specs.Entries.{as_map};
    ghost use Rattle.transport_phases.specs.Rows.{Rows, rows_code};

    ghost Value = { Rows };

    ghost coded = { rows_code };

    ghost use Rattle.transport_phases.specs.Seats.{IsSound};

    ghost view = { λ hop. record { kept = as_map nat_cmp hop.rows.entries; spare = hop.rows.spare } };

    ghost invariant = { λ hop. IsSound (as_map nat_cmp hop.rows.entries) hop.requester hop.responder };
}

impl Hop {
    // What is kept of the transaction `t`.
    fn kept(&self, t: u32) -> Kept
        ensures { result ≡ kept_in self.now.kept t }
    {
        row_at(&self.rows, t)
    }

    // Whether a transaction other than `t` requests.
    fn others_request(&self, t: u32) -> bool
        ensures history { (h : List Entry) → StandsFor self.now h → result ≡ other_requests h t }
        ensures none { result ≡ false → NoOther is_requesting self.now t }
    {
        has_other(self.requester, t)
    }

    // Whether a transaction other than `t` responds.
    fn others_respond(&self, t: u32) -> bool
        ensures history { (h : List Entry) → StandsFor self.now h → result ≡ other_responds h t }
        ensures none { result ≡ false → NoOther is_responding self.now t }
    {
        has_other(self.responder, t)
    }

    // Keeps this of the transaction `t` from now on.
    fn keep(&mut self, t: u32, kept: Kept)
        requires room { is_fresh kept ≡ false → IsRegistered self.old t }
        requires request { MayEnter is_requesting self.old t kept }
        requires response { MayEnter is_responding self.old t kept }
        ensures set { SetsRow self.old.kept self.new.kept t kept }
        ensures places { places self.new ≡ places self.old }
    {
        set_row(&mut self.rows, t, kept);
        self.requester = seat_after(self.requester, t, kept.is_requesting());
        self.responder = seat_after(self.responder, t, kept.is_responding());
    }
}

impl Hop {
    /// A hop on which nothing has been called yet. It has no row and no room, and takes no memory.
    pub fn new(alloc: Global) -> Hop
        ensures rows { result ≡ record { kept = map.empty; spare = 0 } }
        ensures history { StandsFor result [] }
    {
        Hop {
            rows: RoomMap::new(alloc),
            requester: None,
            responder: None,
        }
    }

    /// Registers the transaction `t`, so that it can be called: it has a row already, or there is room for one.
    ///
    /// This is the only call that takes memory, and it takes none where `t` is registered. A row that falls away leaves
    /// its room to the next one.
    pub fn register(&mut self, t: u32) -> Result<(), AllocError>
        ensures placed { OnOk result (IsRegistered self.new t) }
        ensures again { IsRegistered self.old t → (result ≡ Ok tt) × (self.new ≡ self.old) }
        ensures longer { self.old.spare ≤ self.new.spare }
        ensures one_more { OnOk result (places self.new ≤ places self.old + 1) }
        ensures rows { self.new.kept ≡ self.old.kept }
        ensures err { OnErr result (self.new ≡ self.old) }
    {
        if self.rows.spare() > 0 || self.rows.contains(t) {
            return Ok(());
        }
        self.rows.reserve(1)
    }

    /// Judges an `nb_transport` call of the transaction `t` and takes it into the history.
    ///
    /// `complete` says that the response status is not INCOMPLETE, and `handled` that the other end has the handler.
    /// The error is the first rule that the call breaks; the hop is unchanged then.
    pub fn call(
        &mut self,
        path: Path,
        t: u32,
        phase: i32,
        complete: bool,
        handled: bool,
    ) -> Result<(), Rule>
        requires { IsRegistered self.old t }
        ensures answer { (h : List Entry) → StandsFor self.old h → result ≡ verdict (broken h (Call t path phase complete handled)) }
        ensures ok { OnOk result ((h : List Entry) → StandsFor self.old h → StandsFor self.new (h ++ Call t path phase complete handled ∷ [])) }
        ensures err { OnErr result (self.new ≡ self.old) }
        ensures places { places self.new ≡ places self.old }
    {
        let kept = self.kept(t);
        let asked = phase_of(phase);
        let request = self.others_request(t);
        let respond = self.others_respond(t);
        match kept.judge_call(request, respond, path, asked, complete, handled) {
            Ok(()) => {}
            Err(rule) => return Err(rule),
        }
        self.keep(t, kept.called(asked));
        Ok(())
    }

    /// Judges the return of the `nb_transport` call of the transaction `t` that is open, and takes it into the history.
    ///
    /// The error is the first rule that the return breaks; the hop is unchanged then.
    pub fn returned(&mut self, t: u32, status: i32, phase: i32, complete: bool) -> Result<(), Rule>
        ensures answer { (h : List Entry) → StandsFor self.old h → result ≡ verdict (broken h (Return t status phase complete)) }
        ensures ok { OnOk result ((h : List Entry) → StandsFor self.old h → StandsFor self.new (h ++ Return t status phase complete ∷ [])) }
        ensures err { OnErr result (self.new ≡ self.old) }
        ensures places { places self.new ≡ places self.old }
    {
        let kept = self.kept(t);
        let answered = answer_of(status);
        let handed = phase_of(phase);
        let respond = self.others_respond(t);
        match kept.judge_return(respond, answered, handed, complete) {
            Ok(()) => {}
            Err(rule) => return Err(rule),
        }
        self.keep(t, kept.returned(answered, handed));
        Ok(())
    }

    /// Judges a `b_transport` call of the transaction `t` and takes it into the history.
    ///
    /// The error is the first rule that the call breaks; the hop is unchanged then.
    pub fn b_call(&mut self, t: u32, handled: bool) -> Result<(), Rule>
        requires { IsRegistered self.old t }
        ensures answer { (h : List Entry) → StandsFor self.old h → result ≡ verdict (broken h (BCall t handled)) }
        ensures ok { OnOk result ((h : List Entry) → StandsFor self.old h → StandsFor self.new (h ++ BCall t handled ∷ [])) }
        ensures err { OnErr result (self.new ≡ self.old) }
        ensures places { places self.new ≡ places self.old }
    {
        let kept = self.kept(t);
        match kept.judge_b_call(handled) {
            Ok(()) => {}
            Err(rule) => return Err(rule),
        }
        self.keep(t, kept.with_call(Open::Blocking));
        Ok(())
    }

    /// Judges the return of the `b_transport` call of the transaction `t` that is open, and takes it into the history.
    ///
    /// The error is the rule that the return breaks; the hop is unchanged then.
    pub fn b_returned(&mut self, t: u32, complete: bool) -> Result<(), Rule>
        ensures answer { (h : List Entry) → StandsFor self.old h → result ≡ verdict (broken h (BReturn t complete)) }
        ensures ok { OnOk result ((h : List Entry) → StandsFor self.old h → StandsFor self.new (h ++ BReturn t complete ∷ [])) }
        ensures err { OnErr result (self.new ≡ self.old) }
        ensures places { places self.new ≡ places self.old }
    {
        if !complete {
            return Err(Rule::P6);
        }
        let kept = self.kept(t);
        self.keep(t, kept.with_call(Open::Nothing));
        Ok(())
    }

    /// Takes into the history that the open call of the transaction `t` was left without a return. The transaction is over.
    pub fn abandon(&mut self, t: u32)
        ensures history { (h : List Entry) → StandsFor self.old h → StandsFor self.new (h ++ Left t ∷ []) }
        ensures places { places self.new ≡ places self.old }
    {
        self.keep(t, Kept::fresh());
    }
}
