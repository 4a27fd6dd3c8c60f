//! A journal of two nodes that are joined by a link.
ghost use Rattle.std.specs.Prelude.{◌≡◌, All};
ghost use Rattle.sw_load.specs.Laws.{AreDeclared};
ghost use Rattle.test_runs.specs.Names.{IsSameRun};

use crate::moves::Move;
use crate::work::no_text;
use std::alloc::{AllocError, Global};
use std::io;
use sw_cell::CellId;
use sw_config::Network;
use sw_journal::{Cell, Journal, JournalFault};
use sw_load::Load;
use sw_net::Numbers;
use sw_topo::LinkEnd;

/// A journal of two nodes that are joined by a link, and their cells. It is let go by `discard` alone.
pub(crate) struct Pair<'n> {
    network: &'n Network,
    journal: Journal<'n>,
    cells: Vec<Cell>,
    ghost network_is: { journal.declared ≡ network.now },
    ghost cells_are: { All (λ c. c.name ≡ journal.name) cells.items },
}

/// Whether the link end is one of the cell's, and idle: then that is marked.
fn declare_idle(journal: &mut Journal<'_>, cell: &Cell, end: LinkEnd) -> bool
    requires { cell.now.name ≡ journal.old.name }
    ensures { IsSameRun journal.old journal.new }
{
    cell.numbers(end).is_some() && journal.declare_idle(end, cell)
}

impl<'n> Pair<'n> {
    /// The pair of a network of two nodes alone, with a journal of no steps.
    pub(crate) fn open(
        alloc: Global,
        network: &'n Network,
        load: &'n Load,
        limit: usize,
    ) -> Result<Pair<'n>, AllocError>
        requires { AreDeclared network.now load.now }
    {
        let (journal, cells) = Journal::new(alloc, network, load, limit)?;
        Ok(Pair {
            network,
            journal,
            cells,
        })
    }

    /// Lets it go.
    pub(crate) fn discard(self) {
        let Pair {
            network: _,
            journal,
            cells: _,
        } = self;
        journal.discard();
    }

    /// Makes the step at the cell of that node.
    pub(crate) fn make(
        &mut self,
        alloc: Global,
        node: u16,
        tried: Move<'_>,
    ) -> Result<(), JournalFault> {
        let place = node as usize;
        if place >= self.cells.len() {
            return Err(JournalFault::NotEnabled);
        }
        match tried.step(alloc) {
            Ok(step) => self.journal.commit(alloc, &mut self.cells[place], step),
            Err(_) => Err(JournalFault::Memory),
        }
    }

    /// The numbers of the node's link end.
    pub(crate) fn numbers(&self, node: u16) -> Option<Numbers> {
        match self.cells.get(node as usize) {
            Some(cell) => cell.numbers(LinkEnd::new(node)),
            None => None,
        }
    }

    /// Prints whether the node's link end is idle, which is marked then, and its mark.
    pub(crate) fn tell_idle(&mut self, rt: &HostRuntime, node: u16) -> io::Result<()> {
        let (place, end) = (node as usize, LinkEnd::new(node));
        if node >= self.network.channels() || place >= self.cells.len() {
            return Err(no_text());
        }
        let idle = declare_idle(&mut self.journal, &self.cells[place], end);
        let mark = self.journal.mark(end);
        println!(rt; "link end {node}: idle {idle}, mark {mark:?}")
    }

    /// Prints what the node has.
    pub(crate) fn tell(&self, rt: &HostRuntime, node: u16) -> io::Result<()> {
        if node >= self.network.nodes() {
            return Err(no_text());
        }
        match self.journal.state_of(rt.alloc(), CellId::Node(node)) {
            Ok(part) => println!(rt; "node {node} has Some({part:?})"),
            Err(refused) => Err(io::Error::from(refused)),
        }
    }
}
