//! What each rule gives a place, as laws.
ghost use Rattle.sharing.specs.Laws.{PartsAddToRest, PartsGoAhead, RoundsRunningSums, ServesInOrder, SharesWithinOne};

/// By line order a place has the smaller of its need and what the needs before it leave of the pool.
pub fn serves_in_order()
    ensures { ServesInOrder }
{}

/// By proportion no share is 1 kWh or more away from its exact part of what is given, where there is a need at all.
pub fn shares_within_one()
    ensures { SharesWithinOne }
{}

/// By proportion a share is the part of what is given for the needs up to and with its place, rounded down, less that for the needs before it.
pub fn rounds_running_sums()
    ensures { RoundsRunningSums }
{}

/// By parts a place has at least the smaller of its need and its part of the pool, rounded down, whatever the rule below gives.
pub fn parts_go_ahead()
    ensures { PartsGoAhead }
{}

/// By parts a place has what goes ahead to it, and what the rule below gives it of what is left of the pool and the needs.
pub fn parts_add_to_rest()
    ensures { PartsAddToRest }
{}
