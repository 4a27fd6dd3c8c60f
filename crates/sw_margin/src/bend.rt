//! What is told of a network.

/// Whether a network stays free of deadlocks where something more may wait.
#[derive(Clone, Copy)]
pub struct Bend {
    /// Of which node, or of which flow.
    pub number: u16,
    /// Whether it has no cycle of dependencies with these further waits.
    pub stays_free: bool,
}

/// How many commands of a flow may be unanswered for a network to be free.
#[derive(Clone, Copy)]
pub struct FlowLimit {
    /// The flow.
    pub flow: u16,
    /// How many: the greatest number, 1 to 65,535; none where it may be any.
    pub most: Option<u16>,
}

/// How far the premises of a network bend. Nodes, flows and links are told by their numbers, reply flows counted on from the declared
/// ones.
#[derive(Drop)]
pub struct Margins {
    /// Of each node where nothing that comes may have to wait for a reply, in order: whether the network stays free if the node takes
    /// nothing while it wants to send.
    pub stalls: Vec<Bend>,
    /// Of each flow without a reply that goes one way, in order: whether the network stays free if the flow is answered, the replies
    /// going back over the links of its way.
    pub answers: Vec<Bend>,
    /// Of each flow that has a limit of its own, in order: how many of its commands may be unanswered for the network to be free.
    pub limits: Vec<FlowLimit>,
    /// For each link the flows that are lost without it, in order.
    pub losses: Vec<Vec<u16>>,
}
