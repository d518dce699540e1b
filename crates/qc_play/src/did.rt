// What a step does.

/// What a step does with the call.
#[derive(Clone, Copy, Debug, PartialEq, Eq)]
pub enum Did {
    /// The call goes on.
    Goes,
    /// It goes on, and the next step is skipped.
    Skips,
    /// It fails.
    Fails,
}
