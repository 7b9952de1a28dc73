// The types of pairs: no entry of the program need name them. A product that a type entry, an unfolding or an earlier pair has already is found by a
// hint and gets its code, so that equal products are told equal without going through them; else it is a new product node.
ghost use Rattle.std.specs.Prelude.{◌+◌, ◌<◌, length};
ghost use Rattle.rules.specs.Limits.{max_terms};
ghost use Rattle.types.specs.Codes.{Room, Sources, Known};
ghost use Rattle.types.specs.Counts.{Counted};
ghost use Rattle.types.specs.Growth.{Made};

use crate::basis::Basis;
use crate::codes::Code;
use crate::counting::MOST_NODES;
use crate::{hints, nodes};

// The code of a product, and the number of product nodes then.
#[derive(Clone, Copy)]
pub struct Pairing {
    pub code: Code,
    pub top: u32,
}

// The product of two types. Where it has more nodes than section 1 allows, there is none, and nothing is made. Its parts are settled first, so that a
// node has the codes by which it is looked for.
// Kept: the parts of a Basis come one by one, since the bytes are written here.
pub fn product(
    program: &[u8],
    types: &[u16],
    counts: &[u16],
    ws: &mut [u8],
    top: u32,
    left: Code,
    right: Code,
) -> Option<Pairing>
    requires sources { Sources program.now types.now ws.old top }
    requires known { Known (length types.now) top left × Known (length types.now) top right }
    requires counted { Counted program.now types.now counts.now }
    requires room { Room ws.old (top + 1) × (top < max_terms) }
    ensures { Made program.now types.now ws.old ws.new top left right result }
{
    let basis = Basis {
        program,
        types,
        ws,
        top,
    };
    let n = basis.node_count(counts, left);
    let m = basis.node_count(counts, right);
    let count = n + m + 1;
    if MOST_NODES < count {
        return None;
    }
    let first = basis.settled(left);
    let second = basis.settled(right);
    if let Some(code) = basis.hinted(first, second) {
        return Some(Pairing { code, top });
    }
    let code = Code::Product(top as u16);
    nodes::put_node(ws, top as u16, first, second, count);
    hints::put(ws, first, second, code);
    Some(Pairing { code, top: top + 1 })
}
