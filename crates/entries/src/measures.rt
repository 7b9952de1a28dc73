// The figures of one type entry, from those of the lower entries (document 01, section 1: closed types, nodes of a type written out as a
// tree), against calls/specs/Named. Counting stops one above the limit on nodes. Nodes are counted by one function, which keeps the count
// and raises the tally (document 02, F-4).
ghost use Rattle.std.specs.Prelude.{◌≡◌, true, suc, ◌+◌, ◌<◌, min, max, pred, length, set};
ghost use Rattle.rules.specs.Limits.{max_types};
ghost use Rattle.calls.specs.Entries.{type_at};
ghost use Rattle.calls.specs.Named.{types_of_type, below};
ghost use Rattle.calls.specs.Figures.{ceiling, nodes_of, free_of};
ghost use Rattle.program.specs.Parts.{TypeField};
ghost use Rattle.entries.specs.Tally.{TallyOf, Uncounted, CountMade};

use program::kinds::TypeKind;
use program::views;
use rules::MAX_NODES;

// One above the limit on nodes, as wide as a count and as a sum of counts.
const CEILING: u16 = MAX_NODES as u16 + 1;

const WIDE_CEILING: u32 = CEILING as u32;

// One node more than `a` and `b`, or one more than the limit.
fn joined(a: u16, b: u16) -> u16
    ensures { result ≡ min ceiling (suc (a + b)) }
{
    let n = u32::from(a) + u32::from(b) + 1;
    if n < WIDE_CEILING {
        return n as u16;
    }
    CEILING
}

// The nodes of the type at `at`, from those of the types that it names.
fn nodes_of(p: &[u8], at: usize, nodes: &[u16]) -> u16
    requires type_field { TypeField p.now at }
    requires at_value { below (length nodes.now) (types_of_type (type_at p.now at)) ≡ true }
    ensures { result ≡ nodes_of nodes.now (type_at p.now at) }
{
    match views::type_kind(p, at) {
        TypeKind::Unit => 1,
        TypeKind::Product | TypeKind::Sum => {
            let a = usize::from(views::first(p, at));
            let b = usize::from(views::second(p, at));
            joined(nodes[a], nodes[b])
        }
        TypeKind::Recursive => {
            let a = usize::from(views::first(p, at));
            joined(nodes[a], 0)
        }
        TypeKind::Variable => 1,
    }
}

// How many counts of nodes a check has made so far.
#[derive(Clone, Copy, PartialEq, Eq, Debug)]
pub struct Tally {
    pub counted: u16,
}

impl Tally {
    // One count more.
    fn raised(self) -> Self
        requires { self.counted < max_types }
        ensures { result.counted ≡ suc self.counted }
    {
        let counted = self.counted + 1;
        Self { counted }
    }
}

// Counts the nodes of type entry `i`, at `at`, and keeps the count. Nothing else counts or writes the table, and an entry with a kept count
// is not counted again.
pub fn count_nodes(p: &[u8], i: usize, at: usize, nodes: &mut [u16], tally: Tally) -> Tally
    requires type_field { TypeField p.now at }
    requires at_value { below (length nodes.old) (types_of_type (type_at p.now at)) ≡ true }
    requires tally_of { TallyOf nodes.old tally }
    requires uncounted { Uncounted nodes.old i }
    ensures { CountMade p.now at i nodes.old nodes.new tally result }
{
    let m = nodes_of(p, at, nodes);
    nodes[i] = m;
    tally.raised()
}

// How many recursive types must still enclose the type at `at`, from the same of the types that it names.
fn free_of(p: &[u8], at: usize, free: &[u16]) -> u16
    requires type_field { TypeField p.now at }
    requires at_value { below (length free.now) (types_of_type (type_at p.now at)) ≡ true }
    ensures { result ≡ free_of free.now (type_at p.now at) }
{
    match views::type_kind(p, at) {
        TypeKind::Unit => 0,
        TypeKind::Product | TypeKind::Sum => {
            let a = usize::from(views::first(p, at));
            let b = usize::from(views::second(p, at));
            free[a].max(free[b])
        }
        TypeKind::Recursive => {
            let a = usize::from(views::first(p, at));
            free[a].saturating_sub(1)
        }
        TypeKind::Variable => u16::from(views::variable(p, at)) + 1,
    }
}

// Notes that of type entry `i`, at `at`.
pub fn note_free(p: &[u8], i: usize, at: usize, free: &mut [u16])
    requires type_field { TypeField p.now at }
    requires at_value { below (length free.old) (types_of_type (type_at p.now at)) ≡ true }
    requires i_in_bounds { i < length free.old }
    ensures { free.new ≡ set free.old i (free_of free.old (type_at p.now at)) }
{
    let f = free_of(p, at, free);
    free[i] = f;
}
