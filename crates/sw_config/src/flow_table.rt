//! Flows by number and by name.
ghost use Rattle.std.specs.Prelude.{◌≡◌, ◌<◌, ◌++◌, ◌∷◌, [], Some, codes, false, length, position, slice_get, take, OnOk, OnErr, IfSome};
ghost use Rattle.std.specs.List.{list_any};
ghost use Rattle.std.specs.Str.{bytes_eq};
ghost use Rattle.sw_config.specs.Entries.{flow_names, replies_of};

use crate::flow::Flow;
use crate::limit_table::LimitTable;
use crate::names::NameTable;
use std::alloc::{AllocError, Global};
use std::marker::Model;

/// Flows in the order in which they came, no two of one name.
#[derive(Drop)]
pub(crate) struct FlowTable {
    flows: Vec<Flow>,
    names: NameTable,
}

impl Model for FlowTable {
    ghost use Rattle.std.specs.Prelude.{◌≡◌, List};
    ghost use Rattle.sw_config.specs.Entries.{FlowEntry, flow_names};

    ghost Value = { List FlowEntry };

    ghost view = { λ t. t.flows.items };

    ghost invariant = { λ t. t.names ≡ flow_names t.flows.items };
}

impl FlowTable {
    ghost use Rattle.sw_config.specs.LimitRows.{AreSmall, with_flow};

    pub(crate) fn new(alloc: Global) -> FlowTable
        ensures { result ≡ [] }
    {
        FlowTable {
            flows: Vec::new(alloc),
            names: NameTable::new(alloc),
        }
    }

    pub(crate) fn len(&self) -> usize
        ensures { result ≡ length self.now }
    {
        self.flows.len()
    }

    pub(crate) fn get(&self, number: usize) -> &Flow
        requires { number < length self.now }
        ensures { slice_get self.now number ≡ Some result.now }
    {
        &self.flows[number]
    }

    /// The number of the flow of that name.
    pub(crate) fn number_of(&self, name: &str) -> Option<usize>
        ensures number { result ≡ position (bytes_eq name.now) (flow_names self.now) }
        ensures within { IfSome result (λ i. i < length self.now) }
    {
        self.names.index_of(name)
    }

    /// Adds a flow of a new name at the end.
    pub(crate) fn add(&mut self, alloc: Global, flow: Flow) -> Result<(), AllocError>
        requires { list_any (bytes_eq flow.name) (flow_names self.old) ≡ false }
        ensures ok { OnOk result (self.new ≡ self.old ++ flow ∷ []) }
        ensures err { OnErr result (self.new ≡ self.old) }
    {
        let name = String::from_str(alloc, flow.name());
        self.names.add(name, flow, &mut self.flows)
    }

    /// Adds a flow of a new name at the end, and what it changes in the limits, where the node that it begins at has the limit `own`.
    pub(crate) fn add_limited(
        &mut self,
        alloc: Global,
        flow: Flow,
        own: Option<u16>,
        limits: &mut LimitTable,
    ) -> Result<(), AllocError>
        requires new_name { list_any (bytes_eq flow.name) (flow_names self.old) ≡ false }
        requires from { flow.from < length limits.old.answering }
        requires to { flow.to < length limits.old.answering }
        requires small { AreSmall 4095 limits.old }
        ensures ok { OnOk result (self.new ≡ self.old ++ flow ∷ []) }
        ensures limits { OnOk result (limits.new ≡ with_flow limits.old own flow) }
        ensures err { OnErr result (self.new ≡ self.old) }
        ensures limits_kept { OnErr result (limits.new ≡ limits.old) }
    {
        let count = self.len();
        self.add(alloc, flow)?;
        if let Err(refused) = limits.add(self.get(count), own) {
            self.truncate(count);
            return Err(refused);
        }
        Ok(())
    }

    /// Adds the flow of the replies to the flow, whose name is new, at the end, if it has replies.
    pub(crate) fn add_reply(&mut self, alloc: Global, flow: &Flow) -> Result<(), AllocError>
        requires { list_any (bytes_eq (flow.now.name ++ codes "+reply")) (flow_names self.old) ≡ false }
        ensures ok { OnOk result (self.new ≡ self.old ++ replies_of flow.now flow.now.reply) }
        ensures err { OnErr result (self.new ≡ self.old) }
    {
        let Some(reply) = flow.reply() else {
            return Ok(());
        };
        let mut address = Vec::from_slice(alloc, reply.path())?;
        address.push(reply.initiator())?;
        let name = [flow.name(), "+reply"].concat(alloc)?;
        let back = Flow::new(name, flow.to(), flow.from(), address, 1, None);
        self.add(alloc, back)
    }

    /// Lets the flows go.
    pub(crate) fn discard(self) {
        self.names.discard();
    }

    /// Keeps the first `count` flows.
    pub(crate) fn truncate(&mut self, count: usize)
        ensures { self.new ≡ take count self.old }
    {
        self.names.truncate(count);
        self.flows.truncate(count);
    }
}
