//! The zones of the day and the flows of energy, which together tell a register of a member.
ghost use Rattle.std.specs.Prelude.{◌≡◌};
ghost use Rattle.ledger.specs.Zones.{in_flow, in_zone, with_flow, with_zone};

/// A zone of the day, each with registers and prices of its own.
#[derive(Clone, Copy, PartialEq, Eq, Debug)]
pub enum Zone {
    /// By day.
    Day,
    /// By night.
    Night,
}

/// The flow that a register counts.
#[derive(Clone, Copy, PartialEq, Eq, Debug)]
pub enum Flow {
    /// What the member consumed.
    Consumed,
    /// What the member delivered.
    Delivered,
}

/// A value for each zone.
#[derive(Clone, Copy, PartialEq, Eq, Debug, Default)]
pub struct ByZone<T> {
    /// The value by day.
    pub day: T,
    /// The value by night.
    pub night: T,
}

impl<T: Copy> ByZone<T> {
    /// The value in a zone.
    pub fn in_zone(self, zone: Zone) -> T
        ensures { result ≡ in_zone self zone }
    {
        match zone {
            Zone::Day => self.day,
            Zone::Night => self.night,
        }
    }

    /// Sets the value in a zone.
    pub fn set(&mut self, zone: Zone, value: T)
        ensures { self.new ≡ with_zone zone value self.old }
    {
        match zone {
            Zone::Day => self.day = value,
            Zone::Night => self.night = value,
        }
    }
}

/// A value for each flow.
#[derive(Clone, Copy, PartialEq, Eq, Debug)]
pub struct ByFlow<T> {
    /// The value of what is consumed.
    pub consumed: T,
    /// The value of what is delivered.
    pub delivered: T,
}

impl<T: Copy> ByFlow<T> {
    /// The value of a flow.
    pub fn in_flow(self, flow: Flow) -> T
        ensures { result ≡ in_flow self flow }
    {
        match flow {
            Flow::Consumed => self.consumed,
            Flow::Delivered => self.delivered,
        }
    }

    /// Sets the value of a flow.
    pub fn set(&mut self, flow: Flow, value: T)
        ensures { self.new ≡ with_flow flow value self.old }
    {
        match flow {
            Flow::Consumed => self.consumed = value,
            Flow::Delivered => self.delivered = value,
        }
    }
}
