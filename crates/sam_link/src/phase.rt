//! Which side an end is, and how its newest connection stands.

/// A side of the link.
#[derive(Clone, Copy, Debug, PartialEq, Eq, Drop)]
pub enum Role {
    /// It opens connections.
    Terminal,
    /// It takes them.
    Host,
}

/// How the newest connection stands.
#[derive(Clone, Copy, Debug, PartialEq, Eq, Drop)]
pub enum Phase {
    /// There is none, or it broke.
    Down,
    /// The terminal has called, and no welcome has come.
    Asking,
    /// Both sides have said hello.
    Open,
}
