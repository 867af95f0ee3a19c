ghost use Rattle.std.specs.Prelude.{◌≡◌, List, count_by};
ghost use Rattle.traffic_file.specs.DmiMap.declared.grants.Region.{Region};
ghost use Rattle.traffic_file.specs.DmiMap.Regions.{same};
ghost use Rattle.traffic_file.specs.declared.Bus.{Bus};
ghost use Rattle.bus_router.specs.Times.{Table};
ghost use Rattle.bus_router.specs.Leaving.{AreLeft};

/// One set of grants stands when all accesses are back: each region is as often in one list of them as in another.
pub fn one_set_of_grants()
    ensures { (bus : Bus) (table : Table) (one other : List Region) → AreLeft bus table one → AreLeft bus table other
        → (region : Region) → count_by (same region) one ≡ count_by (same region) other }
{}
