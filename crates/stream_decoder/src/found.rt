//! What a stream shows.

use etm_types::Walked;

/// What a stream shows next.
#[derive(Clone, Copy, Debug)]
pub enum Found {
    /// What the walk of a P0 element shows.
    Walked(Walked),
    /// Trace was lost by an overflow.
    Gap,
    /// Tracing stopped.
    Stop,
}
