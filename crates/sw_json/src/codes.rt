//! The codes of faults.
ghost use Rattle.std.specs.Prelude.{◌≡◌};
ghost use Rattle.sw_json.specs.FaultValues.{fault_code};
ghost use Rattle.sw_json.specs.PlaceValues.{route_fault_code};

use sw_flow::RouteFault;
use sw_text::{KeyFault, TextFault};
use sw_topo::TopoFault;

/// The code of a fault of a text.
pub(crate) fn fault_code(fault: &TextFault) -> &'static str
    ensures { result.now ≡ fault_code fault.now }
{
    match fault {
        TextFault::Syntax => "F1",
        TextFault::UnknownKey(_, _) => "F2",
        TextFault::Key(KeyFault::MissingKey, _, _) => "F3",
        TextFault::Key(KeyFault::WrongType, _, _) => "F4",
        TextFault::Key(KeyFault::OutOfRange, _, _) => "F5",
        TextFault::Key(KeyFault::DuplicateName, _, _) => "F6",
        TextFault::Key(KeyFault::UnknownName, _, _) => "F7",
        TextFault::Topology(TopoFault::PortTaken(_)) => "F8 E1",
        TextFault::Topology(TopoFault::NodeLinks(_)) => "F8 E2",
        TextFault::Topology(TopoFault::PortUnlinked(_)) => "F8 E3",
        TextFault::Topology(TopoFault::TooMany(_)) => "F8 E4",
        TextFault::DuplicateRoute(_, _) => "F9",
        TextFault::ReplyShape(_) => "F10",
        TextFault::NotInFlow(_) => "F11",
    }
}

/// The code of a fault of a place.
pub fn route_fault_code(fault: RouteFault) -> &'static str
    ensures { result.now ≡ route_fault_code fault }
{
    match fault {
        RouteFault::AddressEnds => "M1",
        RouteFault::NoRoute => "M2",
        RouteFault::WrongNode => "M3",
        RouteFault::WrongLeft => "M4",
    }
}
