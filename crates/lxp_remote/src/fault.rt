// Why a remote source fails.
use thiserror::Error;

/// What is wrong with a reply. Where several stand, the first is named.
#[derive(Clone, Copy, Debug, PartialEq, Eq, Error)]
pub enum Broken {
    /// The bytes are no reply.
    #[error("the bytes are no reply")]
    NotAReply,
    /// The reply is to another request.
    #[error("the reply is to another request")]
    WrongReply,
    /// The list has more than 200 levels.
    #[error("the list has more than 200 levels")]
    TooDeep,
    /// The list has holes at its top, and no tree.
    #[error("the list has holes alone at its top")]
    HolesOnly,
    /// Two holes stand side by side.
    #[error("two holes stand side by side")]
    AdjacentHoles,
    /// The list weighs more than the hole that was asked.
    #[error("the list weighs more than its hole")]
    Weight,
    /// A hole that is known, or that stands earlier in the list, came with another weight.
    #[error("a hole came with another weight")]
    WeightChanged,
}

/// Why a remote source failed.
#[derive(Clone, Copy, Debug, PartialEq, Eq, Error)]
pub enum WireFault {
    /// The link failed.
    #[error("the link failed")]
    Link,
    /// The reply breaks a rule.
    #[error("the reply breaks a rule: {0}")]
    BadFragment(Broken),
    /// The peer's source failed.
    #[error("the peer's source failed")]
    PeerFailed,
    /// The peer doesn't know the hole.
    #[error("the peer doesn't know the hole")]
    PeerUnknown,
    /// The peer has no such source.
    #[error("the peer has no such source")]
    PeerNoSource,
}

/// Why a link gave no list.
#[derive(Clone, Copy, Debug, PartialEq, Eq, Error)]
pub enum RemoteFault {
    /// The link failed, or its reply shows the cause.
    #[error("{0}")]
    Wire(WireFault),
    /// Memory ran out.
    #[error("memory ran out")]
    OutOfMemory,
}

/// Sources after a link were not opened. The link comes back.
#[derive(Drop)]
pub struct RemoteRefused<L> {
    pub fault: RemoteFault,
    pub link: L,
}
