//! The settings of a job: how many workers, the sizes of the nodes, and the policy of the pool.

ghost use Rattle.std.specs.Prelude.{◌≡◌, IfOk};
ghost use Rattle.sj_meaning.specs.Settings.{unset, worker_count, nodes_of, policy_set, SettingsAreInRange};

use sj_base::memory::OutOfMemory;
use sj_base::mode::Policy;
use sj_base::sequence::Sequence;
use std::alloc::Global;

/// The most workers.
pub const MOST_WORKERS: u64 = 64;

/// The most nodes.
pub const MOST_NODES: usize = 16;

/// The fewest bytes of a node.
pub const LEAST_NODE: u64 = 8;

/// The most bytes of a node, which are 2^40.
pub const GREATEST_NODE: u64 = 1_099_511_627_776;

/// The bytes of the one node of a job without `node` lines, which are 2^28.
pub const DEFAULT_NODE: u64 = 268_435_456;

/// What the lines in front of a job's statements set; what no line sets is left out.
#[derive(Debug, Drop)]
pub struct Settings {
    /// `workers N`: from 1 to 64.
    pub workers: Option<u8>,
    /// `node BYTES`, in the order of the lines: at most 16, of 8 to 2^40 bytes each.
    pub nodes: Sequence<u64>,
    /// `policy P`.
    pub policy: Option<Policy>,
}

impl Settings {
    /// Nothing is set. Takes no memory.
    pub fn none(alloc: Global) -> Settings
        ensures unset { result ≡ unset }
        ensures within { SettingsAreInRange result }
    {
        Settings {
            workers: None,
            nodes: Sequence::empty(alloc),
            policy: None,
        }
    }

    /// The number of workers: 1 where no line sets it. Constant time.
    pub fn worker_count(&self) -> u8
        ensures { result ≡ worker_count self.now }
    {
        self.workers.unwrap_or(1)
    }

    /// The sizes of the nodes in bytes: one of 2^28 where no line sets any. Linear in the nodes.
    pub fn node_sizes(&self, alloc: Global) -> Result<Vec<u64>, OutOfMemory>
        ensures { IfOk result (λ sizes. sizes.items ≡ nodes_of self.now) }
    {
        if self.nodes.is_empty() {
            return Ok(vec![in alloc; DEFAULT_NODE]?);
        }
        Ok(Vec::from_slice(alloc, self.nodes.items())?)
    }

    /// The policy: `eager` where no line sets it. Constant time.
    pub fn chosen_policy(&self) -> Policy
        ensures { result ≡ policy_set self.now }
    {
        self.policy.unwrap_or(Policy::Eager)
    }
}
