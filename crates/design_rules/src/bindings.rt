use code_rules::logic_values_api::Items;

/// A port with its channels.
#[derive(Drop)]
pub struct BoundPort {
    /// The port, by its number among the objects.
    pub object: u32,
    /// Its channels, by their numbers among the objects, in the order of its bindings.
    pub channels: Items<u32>,
}

/// What a hop joins.
#[derive(Clone, Copy, Debug, PartialEq, Eq)]
pub struct Joined {
    /// An initiator socket without `pass`, by its number among the objects.
    pub initiator: u32,
    /// The target socket that its path of bindings reaches, by its number among the objects.
    pub target: u32,
}

/// What the bindings of a design give.
#[derive(Drop)]
pub struct Bindings {
    /// Each port, in object order.
    pub ports: Items<BoundPort>,
    /// Each hop, in the object order of its initiators.
    pub hops: Items<Joined>,
}
