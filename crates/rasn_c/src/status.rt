//! The status that a function returns.
ghost use Rattle.std.specs.Prelude.{◌≡◌};
ghost use Rattle.rasn_c.specs.Status.{status_number};

/// The status that a function returns: `soq_status` of the header.
#[derive(Clone, Copy, Debug, PartialEq, Eq)]
pub enum Status {
    /// The octets are what the call asks for.
    Ok,
    /// The octets aren't what the call asks for.
    Refused,
    /// An allocation failed.
    OutOfMemory,
    /// The result has more octets than the buffer.
    BufferTooSmall,
    /// No type has the number.
    UnknownType,
    /// No rules have the number.
    UnknownRule,
    /// The octets aren't those of a schema.
    BadSchema,
    /// No value of the type has a part with this path.
    UnknownPath,
    /// The value doesn't have the part, which others of its type have.
    Absent,
}

impl Status {
    /// Returns the number of the status in C.
    pub fn number(self) -> u32
        ensures { result ≡ status_number self }
    {
        match self {
            Status::Ok => 0,
            Status::Refused => 1,
            Status::OutOfMemory => 2,
            Status::BufferTooSmall => 3,
            Status::UnknownType => 4,
            Status::UnknownRule => 5,
            Status::BadSchema => 6,
            Status::UnknownPath => 7,
            Status::Absent => 8,
        }
    }
}
