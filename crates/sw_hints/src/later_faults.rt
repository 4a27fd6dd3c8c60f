//! Faults of a network file behind the first: those that are met once what is faulty has been taken out.
use std::alloc::{AllocError, Global};
use sw_file::declared_network;
use sw_text::{FileFault, Key, Section, TextFault, read_document};
use toml::{Table, Value};

/// The most faults of a file that are looked for.
const MOST_FAULTS: usize = 100;

/// What is taken out of a document, so that the faults behind it are met: nothing else names it.
#[derive(Clone, Copy)]
enum Faulty {
    /// The flow of that number.
    Flow(usize),
    /// Of the switch of the first number, the entry of its table of the second.
    Route(usize, usize),
    /// A key of that table, which the fault names.
    Key(Section),
}

impl Faulty {
    /// What of a table can be taken out.
    fn of_section(section: Section) -> Option<Faulty> {
        match section {
            Section::Flow(flow) | Section::Reply(flow) => Some(Faulty::Flow(flow)),
            Section::Route(switch, route) => Some(Faulty::Route(switch, route)),
            _ => None,
        }
    }

    /// What has the fault, if it can be taken out.
    fn of_fault(fault: &TextFault) -> Option<Faulty> {
        match fault {
            TextFault::UnknownKey(section, _) => {
                Some(Faulty::of_section(*section).unwrap_or(Faulty::Key(*section)))
            }
            TextFault::Key(_, section, _) => Faulty::of_section(*section),
            TextFault::DuplicateRoute(switch, route) => Some(Faulty::Route(*switch, *route)),
            TextFault::ReplyShape(flow) => Some(Faulty::Flow(*flow)),
            _ => None,
        }
    }
}

/// The value at this key of a table, if it is a list.
fn list_at(table: &mut Table, key: Key) -> Option<&mut Vec<Value>> {
    table.get_mut(key.text())?.as_array_mut()
}

/// The table of that number in a list, if there is one.
fn table_in(list: &mut Vec<Value>, number: usize) -> Option<&mut Table> {
    list.get_mut(number)?.as_table_mut()
}

/// Takes the entry of that number out of the list, if there are both.
fn take_entry(list: Option<&mut Vec<Value>>, number: usize) -> bool {
    match list {
        Some(list) if number < list.len() => {
            list.remove(number);
            true
        }
        _ => false,
    }
}

/// A document, and the entries that were taken out of it, each with its number among those that were there then.
#[derive(Drop)]
struct Rest {
    document: Table,
    taken: Vec<Faulty>,
}

impl Rest {
    /// The number in the text of what is now the flow of that number.
    fn flow_in_text(&self, flow: usize) -> usize {
        let mut number = flow;
        for taken in self.taken.iter().rev() {
            if let Faulty::Flow(before) = taken
                && *before <= number
            {
                number = number.saturating_add(1);
            }
        }
        number
    }

    /// The number in the text of what is now the entry of that number of the switch's table.
    fn route_in_text(&self, switch: usize, route: usize) -> usize {
        let mut number = route;
        for taken in self.taken.iter().rev() {
            if let Faulty::Route(at, before) = taken
                && *at == switch
                && *before <= number
            {
                number = number.saturating_add(1);
            }
        }
        number
    }

    fn section_in_text(&self, section: Section) -> Section {
        match section {
            Section::Flow(flow) => Section::Flow(self.flow_in_text(flow)),
            Section::Reply(flow) => Section::Reply(self.flow_in_text(flow)),
            Section::Route(switch, route) => {
                Section::Route(switch, self.route_in_text(switch, route))
            }
            section => section,
        }
    }

    /// The fault, told by the numbers that stand in the text.
    fn fault_in_text(&self, fault: TextFault) -> TextFault {
        match fault {
            TextFault::UnknownKey(section, name) => {
                TextFault::UnknownKey(self.section_in_text(section), name)
            }
            TextFault::Key(kind, section, key) => {
                TextFault::Key(kind, self.section_in_text(section), key)
            }
            TextFault::DuplicateRoute(switch, route) => {
                TextFault::DuplicateRoute(switch, self.route_in_text(switch, route))
            }
            TextFault::ReplyShape(flow) => TextFault::ReplyShape(self.flow_in_text(flow)),
            fault => fault,
        }
    }

    /// The table of a section that has no entries before it taken out.
    fn table_of(&mut self, section: Section) -> Option<&mut Table> {
        match section {
            Section::Document => Some(&mut self.document),
            Section::Node(node) => table_in(list_at(&mut self.document, Key::Node)?, node),
            Section::Switch(switch) => table_in(list_at(&mut self.document, Key::Switch)?, switch),
            Section::Link(link) => table_in(list_at(&mut self.document, Key::Link)?, link),
            Section::Target(node) => {
                let entry = table_in(list_at(&mut self.document, Key::Node)?, node)?;
                entry.get_mut(Key::Target.text())?.as_table_mut()
            }
            _ => None,
        }
    }

    /// The routing table of that switch.
    fn routes_of(&mut self, switch: usize) -> Option<&mut Vec<Value>> {
        list_at(self.table_of(Section::Switch(switch))?, Key::Route)
    }

    /// Takes out what is faulty, whose name is that of the key if it is one: whether it was there.
    fn take_out(&mut self, faulty: Faulty, fault: &TextFault) -> Result<bool, AllocError> {
        let was_there = match faulty {
            Faulty::Flow(flow) => take_entry(list_at(&mut self.document, Key::Flow), flow),
            Faulty::Route(switch, route) => take_entry(self.routes_of(switch), route),
            Faulty::Key(section) => match (self.table_of(section), fault) {
                (Some(table), TextFault::UnknownKey(_, name)) => {
                    table.remove(name.as_str()).is_some()
                }
                _ => false,
            },
        };
        self.taken.push(faulty)?;
        Ok(was_there)
    }
}

/// The first fault that the document has now, told by the numbers that stand in the text.
fn next_fault(alloc: Global, document: &Table) -> Result<Option<TextFault>, AllocError> {
    match declared_network(alloc, document) {
        Ok(network) => {
            network.discard();
            Ok(None)
        }
        Err(FileFault::Fault(fault)) => Ok(Some(fault)),
        Err(FileFault::Memory) => Err(AllocError),
    }
}

/// The faults of a network file with this text behind its first one, at most 100: each that is met once the flow, the entry of a routing table or
/// the unknown key that has the one before it is taken out. None behind a fault of anything else, since that is named elsewhere.
///
/// # Errors
///
/// There is no memory for the faults, or to read the text once more.
pub fn further_faults(
    alloc: Global,
    text: &[u8],
    first: &TextFault,
) -> Result<Vec<TextFault>, AllocError> {
    let mut faults = Vec::new(alloc);
    let document = match read_document(alloc, text) {
        Ok(document) => document,
        Err(FileFault::Fault(_)) => return Ok(faults),
        Err(FileFault::Memory) => return Err(AllocError),
    };
    let mut rest = Rest {
        document,
        taken: Vec::new(alloc),
    };
    let Some(faulty) = Faulty::of_fault(first) else {
        return Ok(faults);
    };
    let mut is_changed = rest.take_out(faulty, first)?;
    for _ in 0..MOST_FAULTS {
        if !is_changed {
            break;
        }
        let Some(fault) = next_fault(alloc, &rest.document)? else {
            break;
        };
        let faulty = Faulty::of_fault(&fault);
        let told = rest.fault_in_text(fault);
        is_changed = match faulty {
            Some(faulty) => rest.take_out(faulty, &told)?,
            None => false,
        };
        faults.push(told)?;
    }
    Ok(faults)
}
