// The kinds of relations.
ghost use Rattle.std.specs.Prelude.{◌≡◌};
ghost use Rattle.flattening.specs.Flattening.{kind_number, holds_back};
ghost use Rattle.flattening.specs.Kinds.{kind_of_code};

#[derive(Clone, Copy)]
pub enum Kind {
    Condition,
    Response,
    Milestone,
    Include,
    Exclude,
}

impl Kind {
    // The number by which an image names it.
    pub fn number(self) -> u16
        ensures { result ≡ kind_number (kind_of_code self) }
    {
        match self {
            Kind::Condition => 0,
            Kind::Response => 1,
            Kind::Milestone => 2,
            Kind::Include => 3,
            Kind::Exclude => 4,
        }
    }

    // Whether an event's set has who holds it back, and not what it reaches.
    pub fn holds_back(self) -> bool
        ensures { result ≡ holds_back (kind_number (kind_of_code self)) }
    {
        matches!(self, Kind::Condition | Kind::Milestone)
    }
}
