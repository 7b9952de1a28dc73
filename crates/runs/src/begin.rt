// Where a run begins, forward or back: its values stand in the workspace as nodes, the unit first, then the ancillae, then the
// value; the first slots hold the nodes of the ancillae, and the slot behind them that of the value.
ghost use Rattle.std.specs.Prelude.{◌≡◌, length};
ghost use Rattle.scopes.specs.Slots.{state_count, slots_of};
ghost use Rattle.runs.specs.Begun.{Enough, Beginning, AncillaeIn, BegunIn, BegunWith};

use scopes::state::STATE;
use scopes::{slots, state};
use valuegraph::nodes;

// Section 2's limit of a run's height. Kept beside rules' own: that one is a count, by which arrays are sized, and a height is a number of 16 bits.
pub const MAX_HEIGHT: u16 = rules::MAX_HEIGHT as u16;

// How many ancillae there are, and the first free node.
#[derive(Clone, Copy)]
pub struct Start {
    pub count: usize,
    pub top: u32,
}

fn load_ancillae(ws: &mut [u8], st: &mut [u32; STATE], bytes: &[u8]) -> Start
    requires st_len { length st.old ≡ state_count }
    requires enough { Enough ws.old (slots_of st.old) bytes.now }
    ensures { AncillaeIn ws.old ws.new st.old st.new bytes.now result }
{
    nodes::unit(ws, 0);
    let top = nodes::load(ws, 1, bytes);
    // The first ancilla has the highest node, and the next one has the node below all of the first one's.
    // Kept: a loop by hand. Each turn goes down by as many nodes as the ancilla at hand has, which no range does.
    let mut node = top - 1;
    let mut count = 0;
    while 0 < node {
        slots::bind(st, count, node);
        node -= u32::from(nodes::length_of(ws, node));
        count += 1;
    }
    Start { count, top }
}

// The values of a run in nodes and slots.
fn load(ws: &mut [u8], st: &mut [u32; STATE], ancillae: &[u8], value: &[u8]) -> Start
    requires st_len { length st.old ≡ state_count }
    requires beginning { Beginning ws.old (slots_of st.old) ancillae.now value.now }
    ensures { BegunIn ws.old ws.new st.old st.new ancillae.now value.now result }
{
    let start = load_ancillae(ws, st, ancillae);
    let count = start.count;
    let top = nodes::load(ws, start.top, value);
    slots::bind(st, count, top - 1);
    Start { count, top }
}

// A run begins, in either direction: its values, and the machine with the fuel. How many ancillae there are.
pub fn begin(
    ws: &mut [u8],
    st: &mut [u32; STATE],
    ancillae: &[u8],
    value: &[u8],
    fuel: u16,
) -> usize
    requires st_len { length st.old ≡ state_count }
    requires beginning { Beginning ws.old (slots_of st.old) ancillae.now value.now }
    ensures { BegunWith ws.old ws.new st.old st.new ancillae.now value.now fuel result }
{
    let start = load(ws, st, ancillae, value);
    state::begin(st, start.top, u32::from(fuel));
    start.count
}
