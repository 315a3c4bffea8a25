//! Why a lane made no step.

/// Why a step of a lane told nothing.
#[derive(Clone, Copy)]
pub enum StepErr {
    /// The request or its reply was lost on the way. Whether the cloud took the request isn't known. The lane
    /// keeps its request.
    Lost,
    /// No server that keeps to the rules gives this reply to that request: its first byte, or 0 where it is
    /// empty. The lane is refused.
    Strange { kind: u8 },
    /// Memory ran out here, before the cloud was asked or at its reply. The lane keeps its request.
    NoMemory,
}
