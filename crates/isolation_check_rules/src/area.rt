//! The areas in which globals lie.

ghost use Rattle.std.specs.Prelude.{◌≡◌};
ghost use Rattle.isolation_check_rules.specs.Addresses.{end_in, with_end};

/// Where a global lies: among the constants, or in the memory of code above the cut or below it.
#[derive(Clone, Copy)]
pub enum Area {
    Constants,
    Replay,
    System,
}

/// The address after the last object of each area.
#[derive(Clone, Copy)]
pub struct Ends {
    pub constants: u64,
    pub replay: u64,
    pub system: u64,
}

impl Ends {
    /// That of an area.
    pub fn get(self, area: Area) -> u64
        ensures { result ≡ end_in self area }
    {
        match area {
            Area::Constants => self.constants,
            Area::Replay => self.replay,
            Area::System => self.system,
        }
    }

    /// These, with another of an area.
    pub fn with(self, area: Area, end: u64) -> Ends
        ensures { result ≡ with_end self area end }
    {
        match area {
            Area::Constants => Ends {
                constants: end,
                ..self
            },
            Area::Replay => Ends {
                replay: end,
                ..self
            },
            Area::System => Ends {
                system: end,
                ..self
            },
        }
    }
}
