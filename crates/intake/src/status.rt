// How a command ended. It is no Result, since by `?` a file that is refused would end the reading of the others.
ghost use Rattle.intake.specs.Outcome.{both};
ghost use Rattle.std.specs.Prelude.{◌≡◌};

#[derive(Clone, Copy)]
pub enum Status {
    // all was read
    Done,
    // something was refused or could not be opened, and was said
    Failed,
}

impl Status {
    // Done only if both are.
    pub fn and(self, other: Status) -> Status
        ensures { result ≡ both self other }
    {
        match self {
            Status::Done => other,
            Status::Failed => Status::Failed,
        }
    }
}
