//! Which row of a schedule is in force, as a law.
ghost use Rattle.tariff.specs.Schedules.{IsInForceByRows};

/// The row in force is one of the rows that has begun with none after it that has, or none has begun.
pub fn in_force_by_rows()
    ensures { IsInForceByRows }
{}
