//! Why serving ends early.

ghost use Rattle.std.specs.Prelude.{◌≡◌};
ghost use Rattle.serve_command.specs.Steps.{status_by};

/// Why serving ends before all connections were served.
#[derive(Clone, Copy)]
pub enum ServingStop {
    /// The sink failed in a line.
    SinkFault,
    /// Memory ran out for a line.
    NoMemory,
    /// The ports failed where a connection was to be listened for, or to be accepted.
    PortsFault,
}

/// The status of a serving that was stopped, or not.
pub fn status_of(served: Result<(), ServingStop>) -> u8
    ensures { result ≡ status_by served }
{
    match served {
        Ok(()) => 0,
        Err(ServingStop::SinkFault) => 4,
        Err(ServingStop::NoMemory) => 6,
        Err(ServingStop::PortsFault) => 9,
    }
}
