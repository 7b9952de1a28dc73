// How many nodes a type has as a tree, as far as the limit of section 1 lets matter, from what was counted (02, F-4): type entries have their
// counts, products keep theirs, and that of an unfolding follows from the counts of the entry and of what stands for its variable, and from how
// often that variable stands in it. No tree is gone through.
ghost use Rattle.std.specs.Prelude.{◌≡◌, ◌+◌, ◌*◌, ◌-◌, ◌≤◌, ◌<◌, min, length, get_or, leb};
ghost use Rattle.rules.specs.Limits.{max_nodes, max_types};
ghost use Rattle.rules.specs.Ty.{nodes};
ghost use Rattle.calls.specs.Figures.{ceiling};
ghost use Rattle.types.specs.Figures.{outer_at};
ghost use Rattle.types.specs.Counts.{Counted};
ghost use Rattle.types.specs.Basis.{KnownBy, tree_by};

use crate::basis::Basis;
use crate::codes::Code;
use crate::figures::Figures;
use crate::nodes;

// The limit on the nodes of a type, as wide as a count of them.
pub const MOST_NODES: u16 = rules::MAX_NODES as u16;

const WIDE_MOST: u32 = MOST_NODES as u32;

// A count that stops one above the limit.
pub fn capped(n: u32) -> u16
    ensures { result ≡ min ceiling n }
{
    if WIDE_MOST < n {
        return MOST_NODES + 1;
    }
    n as u16
}

impl Figures<'_> {
    // The nodes of entry `at` with its outermost free variable standing for entry `stands`.
    fn under_count(&self, counts: &[u16], at: u16, stands: u16) -> u16
        requires at_outer { (at < max_types) × (outer_at self.now.ws.now at ≤ ceiling) }
        requires at_in_bounds { (at < length counts.now) × (get_or counts.now at 0 ≤ ceiling) }
        requires stands_in_bounds { (stands < length counts.now) × (1 ≤ get_or counts.now stands 0) × (get_or counts.now stands 0 ≤ ceiling) }
        ensures { result ≡ min ceiling (get_or counts.now at 0 + outer_at self.now.ws.now at * (get_or counts.now stands 0 - 1)) }
    {
        let own = u32::from(counts[usize::from(at)]);
        let times = u32::from(self.outer_of(at));
        let each = u32::from(counts[usize::from(stands)]);
        capped(own + times * (each - 1))
    }
}

impl Basis<'_> {
    // How many nodes the type has.
    pub fn node_count(&self, counts: &[u16], c: Code) -> u16
        requires known { KnownBy self.now c }
        requires counted { Counted self.now.program.now self.now.types.now counts.now }
        ensures { result ≡ min ceiling (nodes (tree_by self.now c)) }
    {
        match c {
            Code::Unit => 1,
            Code::Entry(i) => counts[usize::from(i)],
            Code::Under(i, j) => Figures { ws: self.ws }.under_count(counts, i, j),
            Code::Product(n) => nodes::count_of(self.ws, n),
        }
    }

    // Has the type as few nodes as section 1 allows?
    pub fn within_limit(&self, counts: &[u16], c: Code) -> bool
        requires known { KnownBy self.now c }
        requires counted { Counted self.now.program.now self.now.types.now counts.now }
        ensures { result ≡ leb (nodes (tree_by self.now c)) max_nodes }
    {
        self.node_count(counts, c) <= MOST_NODES
    }
}
