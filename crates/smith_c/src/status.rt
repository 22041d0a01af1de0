//! What a call returns in C.

ghost use Rattle.std.specs.Prelude.{◌≡◌};
ghost use Rattle.smith_c.specs.Makes.{code_of};

use smith_input::Error;

/// How a call ended.
#[derive(Drop)]
pub enum Status {
    /// What was asked for is in the output; or the bytes are a component that is well formed, or valid.
    Answered,
    /// No component is made of the input, or there is not enough memory for what was asked for.
    Refused(Error),
    /// The output has no room for what was asked for.
    NoRoom,
    /// A feature's byte is neither 0 nor 1.
    BadFlag,
    /// The bytes are a component that is not well formed.
    IllFormed,
    /// The bytes are not a component of the grammar, or are one whose scopes are nested too deep to be read.
    Unread,
    /// The bytes are a component that is well formed, but no input produces it within the limits.
    NoScript,
    /// There is no smaller component of that number, none from that step on, or no item of that number.
    NoSmaller,
    /// No validator may accept the bytes.
    Invalid,
    /// The bytes are a well-formed component beyond a bound of a validator's own.
    Bound,
    /// A validator may accept the bytes or refuse them.
    Outside,
    /// The change leads to nothing, or none from that number on leads to something.
    NoChange,
    /// A core module in the component has more than function types and memories, so that it has no text.
    NoText,
}

impl Status {
    /// Its number in C: 0 if the output has it or the bytes are well formed or valid, 1 to 6 for the refusals in the
    /// order of `Error`, 7 if there is no room, 8 for a byte that is not a flag, 10 for a component that is not well
    /// formed, 11 for bytes that are not a component, 12 if there is no script, 13 if there is no smaller component, 14
    /// to 16 for bytes that are invalid, beyond a bound, or not judged, 17 if there is no change, and 18 if there is no
    /// text. The header has 9 for arguments that no call may have.
    pub fn code(&self) -> i32
        ensures { result ≡ code_of self.now }
    {
        match self {
            Status::Answered => 0,
            Status::Refused(Error::InconsistentLimits) => 1,
            Status::Refused(Error::MinimumNotMet) => 2,
            Status::Refused(Error::ModuleRefused) => 3,
            Status::Refused(Error::TooLong) => 4,
            Status::Refused(Error::OutOfMemory) => 5,
            Status::Refused(Error::PartsDisagree) => 6,
            Status::NoRoom => 7,
            Status::BadFlag => 8,
            Status::IllFormed => 10,
            Status::Unread => 11,
            Status::NoScript => 12,
            Status::NoSmaller => 13,
            Status::Invalid => 14,
            Status::Bound => 15,
            Status::Outside => 16,
            Status::NoChange => 17,
            Status::NoText => 18,
        }
    }
}

impl From<Error> for Status {
    ghost use Rattle.std.specs.Prelude.{◌≡◌};
    ghost use Rattle.smith_c.specs.declared.status.Status.TheVariants.{Refused};

    ghost from_gives = { λ error status. status ≡ Refused error };

    fn from(error: Error) -> Status {
        Status::Refused(error)
    }
}
