//! The keys of the forms that are objects, each in the order of their names.
//!
//! Readers of values and readers of tokens go by the same lists, and so do the definitions.

ghost use Rattle.std.specs.Prelude.{◌≡◌};
ghost use Rattle.topo_script.specs.Reads.{key_of};

use crate::path::Key;

/// A key that a form knows.
#[derive(Clone, Copy)]
pub(crate) enum FormKey {
    /// A key that must be there.
    Due(Key),
    /// A key that may be missing.
    Optional(Key),
}

impl FormKey {
    /// Which key it is, due or not.
    #[inline(always)]
    pub(crate) fn key(self) -> Key
        ensures { result ≡ key_of self }
    {
        match self {
            FormKey::Due(key) => key,
            FormKey::Optional(key) => key,
        }
    }
}

/// The keys of a script.
pub(crate) const SCRIPT_KEYS: [FormKey; 5] = [
    FormKey::Optional(Key::Limits),
    FormKey::Optional(Key::Prices),
    FormKey::Optional(Key::Start),
    FormKey::Due(Key::Version),
    FormKey::Due(Key::Workers),
];

/// The keys of an opening: those of a script without its lists.
pub(crate) const OPENING_KEYS: [FormKey; 4] = [
    FormKey::Optional(Key::Limits),
    FormKey::Optional(Key::Prices),
    FormKey::Optional(Key::Start),
    FormKey::Due(Key::Version),
];

/// The keys of limits.
pub(crate) const LIMITS_KEYS: [FormKey; 3] = [
    FormKey::Due(Key::Crossings),
    FormKey::Due(Key::Edges),
    FormKey::Due(Key::Vertices),
];

/// The keys of a report.
pub(crate) const REPORT_KEYS: [FormKey; 6] = [
    FormKey::Due(Key::History),
    FormKey::Due(Key::Limits),
    FormKey::Due(Key::Picture),
    FormKey::Due(Key::Prices),
    FormKey::Due(Key::Start),
    FormKey::Due(Key::Version),
];

/// The keys of an entry of a history.
pub(crate) const ENTRY_KEYS: [FormKey; 3] = [
    FormKey::Due(Key::Call),
    FormKey::Due(Key::Caller),
    FormKey::Due(Key::Reply),
];

/// The keys of a reply that tells of a growth.
pub(crate) const GROWN_KEYS: [FormKey; 2] = [FormKey::Due(Key::Edge), FormKey::Due(Key::Vertex)];

/// The keys of a reply that tells of an insertion.
pub(crate) const INSERTED_KEYS: [FormKey; 5] = [
    FormKey::Due(Key::Crossed),
    FormKey::Due(Key::Edge),
    FormKey::Due(Key::End),
    FormKey::Due(Key::Price),
    FormKey::Due(Key::Start),
];

/// The keys of a picture.
pub(crate) const ROWS_KEYS: [FormKey; 5] = [
    FormKey::Due(Key::Crossings),
    FormKey::Due(Key::Edges),
    FormKey::Due(Key::NextCrossing),
    FormKey::Due(Key::NextEdge),
    FormKey::Due(Key::Rotations),
];

/// The keys of an edge of a picture.
pub(crate) const EDGE_KEYS: [FormKey; 5] = [
    FormKey::Due(Key::A),
    FormKey::Due(Key::B),
    FormKey::Due(Key::Crossings),
    FormKey::Due(Key::Id),
    FormKey::Due(Key::Kind),
];

/// The keys of a crossing of a picture.
pub(crate) const CROSSING_KEYS: [FormKey; 4] = [
    FormKey::Due(Key::Crossed),
    FormKey::Due(Key::Id),
    FormKey::Due(Key::Newcomer),
    FormKey::Due(Key::Sign),
];

/// The keys of a graph.
pub(crate) const GRAPH_KEYS: [FormKey; 10] = [
    FormKey::Due(Key::Edges),
    FormKey::Optional(Key::Effort),
    FormKey::Optional(Key::Prices),
    FormKey::Optional(Key::Progress),
    FormKey::Optional(Key::Seconds),
    FormKey::Optional(Key::Seed),
    FormKey::Optional(Key::Start),
    FormKey::Optional(Key::Threads),
    FormKey::Due(Key::Version),
    FormKey::Due(Key::Vertices),
];

/// The keys of an answer with which a search begins.
pub(crate) const ANSWER_KEYS: [FormKey; 5] = [
    FormKey::Optional(Key::Cost),
    FormKey::Optional(Key::Crossings),
    FormKey::Due(Key::Lonely),
    FormKey::Due(Key::Parts),
    FormKey::Optional(Key::Tries),
];

/// The keys of a part of such an answer.
pub(crate) const PART_KEYS: [FormKey; 3] = [
    FormKey::Due(Key::Edges),
    FormKey::Due(Key::Picture),
    FormKey::Due(Key::Vertices),
];

/// The keys of an envelope.
pub(crate) const ENVELOPE_KEYS: [FormKey; 3] = [
    FormKey::Due(Key::Call),
    FormKey::Optional(Key::Caller),
    FormKey::Optional(Key::Id),
];
