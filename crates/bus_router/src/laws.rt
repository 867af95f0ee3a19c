ghost use Rattle.std.specs.Prelude.{◌≡◌, ℕ, List};
ghost use Rattle.traffic_file.specs.PayloadPool.declared.payload.Payload.{Payload};
ghost use Rattle.traffic_file.specs.declared.Bus.{Bus};
ghost use Rattle.traffic_file.specs.Traffic.{CanRun};
ghost use Rattle.bus_router.specs.Times.{Table};
ghost use Rattle.bus_router.specs.Answers.{IsServiceOrder, AreAnswers};

/// The accesses of a home are served in one order, at most.
pub fn one_service_order()
    ensures { (bus : Bus) (table : Table) (home : ℕ) (one other : List ℕ) → IsServiceOrder bus table home one → IsServiceOrder bus table home other → one ≡ other }
{}

/// The accesses of traffic that can be run have one list of answers by a table of times, at most.
pub fn one_list_of_answers()
    ensures { (bus : Bus) (table : Table) (one other : List Payload) → CanRun bus → AreAnswers bus table one → AreAnswers bus table other → one ≡ other }
{}
