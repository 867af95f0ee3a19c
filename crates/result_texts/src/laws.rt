ghost use Rattle.std.specs.Prelude.{◌≡◌, ◌<◌, ℕ, List, length};
ghost use Rattle.bus_router.specs.PayloadPool.declared.payload.Payload.{Payload};
ghost use Rattle.bus_router.specs.TrafficFile.declared.Bus.{Bus};
ghost use Rattle.bus_router.specs.declared.rows.BusRow.{BusRow};
ghost use Rattle.result_texts.specs.Lines.{IsTextOf};

/// Times and the payloads of the accesses have one text, at most.
pub fn one_text()
    ensures { (bus : Bus) (rows : List BusRow) (payloads others : ℕ → Payload) (one other : List ℕ)
        → ((k : ℕ) → k < length bus.lines → payloads k ≡ others k) → IsTextOf bus rows payloads one → IsTextOf bus rows others other → one ≡ other }
{}
