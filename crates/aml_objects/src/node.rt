//! What names a declaration.
ghost use Rattle.std.specs.Prelude.{◌≡◌};

/// The id of a node of the namespace: the number of its declaration, and the key by which the node is found at once.
///
/// The number alone says which declaration it is, and it is never given again. The key is a hint: another key finds
/// the same node, in the time of a search by number.
#[derive(Clone, Copy, Debug)]
pub struct NodeId {
    pub key: usize,
    pub number: u64,
}

impl NodeId {
    /// The id of the declaration with a number, where the key isn't known.
    pub fn numbered(number: u64) -> NodeId
        ensures { result ≡ record { key = 0; number = number } }
    {
        NodeId { key: 0, number }
    }
}
