//! The messages of a peer that are for the desk.
use rights_types::{Ask, Deny, Query};

/// A message of a peer that is for the desk.
#[derive(Clone, Copy, Debug, PartialEq, Eq)]
pub enum DeskMessage {
    /// The peer queries entries of the desk's log.
    Query(Query),
    /// The peer asks for rights.
    Ask(Ask),
    /// The peer denies an ask of the desk.
    Deny(Deny),
}
