//! The hint of an RMAP command that a flow can't bring to its target.
use crate::digits::Digits;
use crate::flow_hints::unknown_flow_hint;
use crate::teller::{Teller, Text};
use std::alloc::{AllocError, Global};
use sw_app_rmap::{Access, Request, RmapFault, fault_words};
use sw_config::{Flow, Network};
use sw_faults::{Hint, found_at};
use sw_load::pairs_of;
use sw_output::node_name;
use sw_rmap::TargetConfig;

/// What is wrong, in words.
fn wrong_words(fault: RmapFault) -> &'static str {
    match fault {
        RmapFault::UnknownFlow => "no declared flow has this name",
        RmapFault::BadAddress => "the address is not a number that a command can carry",
        RmapFault::BadLength => "the length is not a number that a command can carry",
        RmapFault::BadData => "the data are not bytes that a command can carry",
        RmapFault::BadTransaction => {
            "the transaction identifier is not a number that a command can carry"
        }
        RmapFault::NoTarget => "the flow ends at a node that is not an RMAP target",
        RmapFault::NotAnswered => {
            "the flow's unanswered commands are limited, but this command asks for no reply"
        }
        RmapFault::NoReply => "the command asks for a reply, but the flow has no 'reply'",
        RmapFault::OutsideWindow => "the target's window does not hold all that is read or written",
        RmapFault::WrongLeft => {
            "the address bytes left at the target are not what the command begins with"
        }
        RmapFault::TooLong => "the packet has more bytes after its address than a load allows",
    }
}

/// What to do about a word that is no number.
fn number_words(word: &str) -> &'static str {
    if word.starts_with("0X") {
        "a hexadecimal number begins with a lower-case 0x"
    } else {
        ""
    }
}

/// What to do about a word that is no bytes.
fn data_words(word: &str) -> &'static str {
    if word.starts_with("0x") {
        "leave out the 0x: each byte is two digits"
    } else if word.contains('*') {
        "a load may repeat a byte with '*', but this command may not: write each byte"
    } else {
        ""
    }
}

/// A target, and the name of its node.
#[derive(Clone, Copy)]
struct NamedTarget<'a> {
    name: &'a str,
    config: TargetConfig,
}

/// A command that is asked for, by a flow of a network.
#[derive(Clone, Copy)]
struct Asked<'a> {
    teller: Teller<'a>,
    digits: Digits,
    request: &'a Request<'a>,
}

impl<'a> Asked<'a> {
    /// The flow that is named, if it is declared.
    fn flow(self) -> Option<&'a Flow> {
        let number = self.teller.network.declared_flow_named(self.request.flow)?;
        self.teller.flow(number)
    }

    /// The target at the flow's end, if there is one.
    fn target(self) -> Option<NamedTarget<'a>> {
        let network = self.teller.network;
        let node = self.flow()?.to();
        if node >= network.nodes() {
            return None;
        }
        Some(NamedTarget {
            name: node_name(network, node),
            config: network.target(node)?,
        })
    }

    /// A word as it was given, cut where it is long.
    fn word(self, word: &str) -> Text {
        found_at(self.teller.alloc, word.as_bytes(), 0)
    }

    /// How many bytes are read or written: the length as it was given, or that of the data.
    fn size(self) -> Text {
        let alloc = self.teller.alloc;
        match self.request.access {
            Access::Read { length: "1" } => self.teller.text("1 byte"),
            Access::Read { length } => format!(in alloc; "{} bytes", self.word(length)?),
            Access::Write { data, .. } => match pairs_of(alloc, data.as_bytes())? {
                Some(bytes) if bytes.len() == 1 => self.teller.text("1 byte"),
                Some(bytes) => format!(in alloc; "{} bytes", bytes.len()),
                None => self.teller.text(""),
            },
        }
    }

    /// The address bytes that are left where the flow's packets arrive.
    fn left(self, flow: &Flow) -> Text {
        let bytes = flow.address();
        let deleted = bytes.len().saturating_sub(usize::from(flow.left()));
        let left = &bytes[deleted.min(bytes.len())..];
        let told = self.digits.bytes(self.teller.alloc, left)?;
        format!(in self.teller.alloc; "address bytes left:{told}")
    }

    /// Where the flow ends.
    fn end(self, flow: &Flow) -> Text {
        let (name, end) = (flow.name(), node_name(self.teller.network, flow.to()));
        format!(in self.teller.alloc; "flow {name} ends at {end}, which has no 'target'")
    }

    /// What was found.
    fn found(self, fault: RmapFault) -> Text {
        let (alloc, request) = (self.teller.alloc, self.request);
        match (fault, self.flow(), request.access) {
            (RmapFault::UnknownFlow, _, _) => self.word(request.flow),
            (RmapFault::BadAddress, _, _) => self.word(request.address),
            (RmapFault::BadLength, _, Access::Read { length }) => self.word(length),
            (RmapFault::BadData, _, Access::Write { data, .. }) => self.word(data),
            (RmapFault::BadTransaction, _, _) => self.word(request.transaction.unwrap_or("")),
            (RmapFault::NoTarget, Some(flow), _) => self.end(flow),
            (RmapFault::NotAnswered, _, _) => self.teller.text("--no-ack"),
            (RmapFault::OutsideWindow, _, _) => {
                let (size, first) = (self.size()?, self.word(request.address)?);
                format!(in alloc; "{size} from {first} on")
            }
            (RmapFault::WrongLeft, Some(flow), _) => self.left(flow),
            (RmapFault::TooLong, _, _) => format!(in alloc; "{} of data", self.size()?),
            _ => self.teller.text(""),
        }
    }

    /// The addresses of the target's window.
    fn window(self, target: NamedTarget<'_>) -> Text {
        let first = target.config.start;
        let behind = first.saturating_add(u64::from(target.config.size));
        let (last, name) = (behind.saturating_sub(1), target.name);
        format!(in self.teller.alloc;
            "addresses from 0x{first:X} to 0x{last:X}, the window of {name}"
        )
    }

    /// The target logical address, which a command begins with.
    fn logical(self, target: NamedTarget<'_>) -> Text {
        self.digits.byte(self.teller.alloc, target.config.logical)
    }

    /// What would be right.
    fn expected(self, fault: RmapFault) -> Text {
        let alloc = self.teller.alloc;
        match (fault, self.target()) {
            (RmapFault::OutsideWindow, Some(target)) => self.window(target),
            (RmapFault::WrongLeft, Some(target)) => format!(in alloc;
                "{}, the target logical address of {}",
                self.logical(target)?,
                target.name
            ),
            (fault, _) => self.teller.text(match fault {
                RmapFault::BadAddress => {
                    "a number from 0 to 1099511627775, decimal or hexadecimal with 0x"
                }
                RmapFault::BadLength => {
                    "a number from 0 to 16777215, decimal or hexadecimal with 0x"
                }
                RmapFault::BadData => "1 to 4096 bytes as pairs of hexadecimal digits",
                RmapFault::BadTransaction => {
                    "a number from 0 to 65535, decimal or hexadecimal with 0x"
                }
                RmapFault::NoTarget => "a flow to a node with a 'target'",
                RmapFault::TooLong => {
                    "at most 4096 bytes, including the command's header and both CRCs"
                }
                _ => "",
            }),
        }
    }

    /// Which flow brings the commands, where that of their replies is named.
    fn commands_flow(self) -> Text {
        match self.request.flow.strip_suffix("+reply") {
            Some(flow) => format!(in self.teller.alloc;
                "this is the flow of the replies: the commands go by {flow}"
            ),
            None => self.teller.text(""),
        }
    }

    /// What to do about a command that is to be answered, of a flow that has no 'reply'.
    fn reply_words(self) -> &'static str {
        match self.request.access {
            Access::Read { .. } => {
                "give the flow a 'reply', since each read is answered; or write with --no-ack"
            }
            Access::Write { .. } => "give the flow a 'reply', or write with --no-ack",
        }
    }

    /// What to do.
    fn help(self, fault: RmapFault) -> Text {
        let alloc = self.teller.alloc;
        match (fault, self.target(), self.request.access) {
            (RmapFault::WrongLeft, Some(target), _) => format!(in alloc;
                "end 'address' with {}, and write left = 1",
                self.logical(target)?
            ),
            (RmapFault::BadLength, _, Access::Read { length }) => {
                self.teller.text(number_words(length))
            }
            (RmapFault::BadData, _, Access::Write { data, .. }) => {
                self.teller.text(data_words(data))
            }
            (RmapFault::UnknownFlow, _, _) => self.commands_flow(),
            (fault, _, _) => self.teller.text(match fault {
                RmapFault::BadAddress => number_words(self.request.address),
                RmapFault::BadTransaction => {
                    number_words(self.request.transaction.unwrap_or(""))
                }
                RmapFault::NoTarget => "give the node a 'target', or name a flow that ends at one",
                RmapFault::NotAnswered => "leave out --no-ack",
                RmapFault::OutsideWindow => {
                    "use addresses within the window, or make the target's 'size' larger"
                }
                RmapFault::NoReply => self.reply_words(),
                RmapFault::TooLong => "write fewer bytes with each command",
                _ => "",
            }),
        }
    }

    fn hint(self, fault: RmapFault) -> Result<Hint, AllocError> {
        let alloc = self.teller.alloc;
        let (code, wrong) = (fault_words(fault), wrong_words(fault));
        let what = format!(in alloc; "fault {code}: {wrong}")?;
        Ok(Hint {
            found: self.found(fault)?,
            expected: self.expected(fault)?,
            help: self.help(fault)?,
            ..Hint::new(alloc, what)
        })
    }
}

/// The hint of an RMAP command that a flow of the network, whose file has this text, can't bring to
/// its target: what is wrong, which word says it, what would be right, and what to do.
///
/// # Errors
///
/// There is no memory for the hint, or for what finds the flow.
pub fn rmap_fault_hint(
    alloc: Global,
    network: &Network,
    text: &[u8],
    request: &Request<'_>,
    fault: RmapFault,
) -> Result<Hint, AllocError> {
    let teller = Teller { alloc, network };
    match fault {
        RmapFault::UnknownFlow if network.flow_named(request.flow).is_none() => {
            unknown_flow_hint(alloc, network, request.flow)
        }
        fault => Asked {
            teller,
            digits: Digits::in_text(text),
            request,
        }
        .hint(fault),
    }
}
