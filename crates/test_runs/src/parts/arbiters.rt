//! Worked values of the policies.
use crate::parts::sets::ports;
use sw_arb::{Arbiter, Arbitration, Policy};
use sw_topo::PortSet;

/// An arbiter of these ports. In each turn some of them ask, and it picks these, one after the other.
pub(crate) struct Round {
    arbitration: Arbitration,
    ports: &'static [u8],
    turns: &'static [(&'static [u8], &'static [u8])],
}

const THREE: &[u8] = &[1, 2, 3];

/// The ports from 1 to 31.
const CIRCLE: &[u8] = &[
    1, 2, 3, 4, 5, 6, 7, 8, 9, 10, 11, 12, 13, 14, 15, 16, 17, 18, 19, 20, 21, 22, 23, 24, 25, 26,
    27, 28, 29, 30, 31,
];

/// The lowest that asks, and one after the other.
pub(crate) const FIXED_AND_ROUND_ROBIN: &[Round] = &[
    Round {
        arbitration: Arbitration::Fixed,
        ports: THREE,
        turns: &[(THREE, &[1, 1, 1, 1])],
    },
    Round {
        arbitration: Arbitration::RoundRobin,
        ports: THREE,
        turns: &[(THREE, &[1, 2, 3, 1])],
    },
    Round {
        arbitration: Arbitration::RoundRobin,
        ports: CIRCLE,
        turns: &[(CIRCLE, CIRCLE)],
    },
];

/// The one whose last pick is longest ago.
pub(crate) const LEAST_RECENT: &[Round] = &[Round {
    arbitration: Arbitration::LeastRecent,
    ports: THREE,
    turns: &[(THREE, &[1, 2]), (&[1, 2], &[1]), (THREE, &[3, 2])],
}];

/// In each round a new arbiter picks those ports, one after the other, when these ask each time.
pub(crate) fn pick(rounds: &[Round]) -> bool {
    for round in rounds {
        let all = ports(round.ports);
        let mut arbiter = Policy::new(round.arbitration, all);
        for &(asking, wanted) in round.turns {
            let set = ports(asking).meet(all);
            if set.is_empty() {
                return false;
            }
            for port in wanted {
                if arbiter.pick(set).number() != *port {
                    return false;
                }
            }
        }
    }
    true
}
