// The value graph: values as nodes in lent bytes, appended and never changed. Only this module knows a node's layout (specs/Nodes).
ghost use Rattle.std.specs.Prelude.{◌≡◌, ◌+◌, ◌*◌, ◌<◌, ◌≤◌, true};
ghost use Rattle.rules.specs.Limits.{fits};
ghost use Rattle.rules.specs.Val.{unit, pair, same};
ghost use Rattle.valuegraph.specs.Nodes.{node_bytes, kind_number, kind_named, kind_at, print_at, length_at, head_at, left_at, right_at, part_at};
ghost use Rattle.valuegraph.specs.Nodes.{left_shorter, put_node, Room};
ghost use Rattle.valuegraph.specs.Nodes.{mixed, alike_at, of_kind, Single, value_at, Heap, NodeReady, Grown, Made, Celled};
ghost use Rattle.valuegraph.specs.Loads.{PlaceReady, over_last, LoadReady, LoadedFrom};
ghost use Rattle.valuegraph.specs.Stores.{StoreReady, StoreDone};

pub use crate::kinds::Kind;

// Kept: nodes are bytes and no structs, since the workspace that they stand in is lent over the C interface as bytes.
const NODE_BYTES: usize = 12;

// Where a node's fields begin in its bytes.
const KIND: usize = 0;

const PRINT: usize = 1;

const LENGTH: usize = 2;

const LEFT: usize = 4;

const RIGHT: usize = 8;

// Section 1's limit on values.
const MAX_VALUE_BYTES: u32 = rules::MAX_VALUE_BYTES as u32;

// Fingerprints (specs/Nodes).
const UNIT_PRINT: u8 = 17;

const KIND_FACTOR: u16 = 59;

const LEFT_FACTOR: u16 = 141;

const RIGHT_FACTOR: u16 = 101;

// Where a field of a node stands.
fn place_of(n: u32, field: usize) -> usize
    requires { field < node_bytes }
    ensures { result ≡ node_bytes * n + field }
{
    NODE_BYTES * (n as usize) + field
}

// The byte of a node's kind, whatever stands there.
#[tactic(auto, unfolding(crate::specs::Nodes::kind_at))]
pub fn kind_byte(ws: &[u8], n: u32) -> u8
    requires { Room ws.now (n + 1) }
    ensures { result ≡ kind_at ws.now n }
{
    let at = place_of(n, KIND);
    ws[at]
}

// A node's kind.
pub fn kind_of(ws: &[u8], n: u32) -> Kind
    requires { Room ws.now (n + 1) }
    ensures { result ≡ kind_named (kind_at ws.now n) }
{
    Kind::named(kind_byte(ws, n))
}

// The fingerprint of a node's value.
#[tactic(auto, unfolding(crate::specs::Nodes::print_at))]
fn print_of(ws: &[u8], n: u32) -> u8
    requires { Room ws.now (n + 1) }
    ensures { result ≡ print_at ws.now n }
{
    ws[place_of(n, PRINT)]
}

// Kind, fingerprint and length, as one number.
#[tactic(auto, unfolding(crate::specs::Nodes::head_at))]
fn head_of(ws: &[u8], n: u32) -> u32
    requires { Room ws.now (n + 1) }
    ensures { result ≡ head_at ws.now n }
{
    octets::read32(ws, place_of(n, KIND))
}

// The length in bytes of a node's value.
#[tactic(auto, unfolding(crate::specs::Nodes::length_at))]
pub fn length_of(ws: &[u8], n: u32) -> u16
    requires { Room ws.now (n + 1) }
    ensures { result ≡ length_at ws.now n }
{
    octets::read16(ws, place_of(n, LENGTH))
}

// The node that is the left part, or the only one. Kept: a name for each part, which a place as a parameter would not say better.
#[tactic(auto, unfolding(crate::specs::Nodes::left_at))]
pub fn left_of(ws: &[u8], n: u32) -> u32
    requires { Room ws.now (n + 1) }
    ensures { result ≡ left_at ws.now n }
{
    octets::read32(ws, place_of(n, LEFT))
}

// The node that is the right part of a pair.
#[tactic(auto, unfolding(crate::specs::Nodes::right_at))]
pub fn right_of(ws: &[u8], n: u32) -> u32
    requires { Room ws.now (n + 1) }
    ensures { result ≡ right_at ws.now n }
{
    octets::read32(ws, place_of(n, RIGHT))
}

// The left part of a pair, or the right one.
#[tactic(auto, unfolding(crate::specs::Nodes::part_at))]
fn part_of(ws: &[u8], n: u32, left: bool) -> u32
    requires { Room ws.now (n + 1) }
    ensures { result ≡ part_at ws.now n left }
{
    if left {
        return left_of(ws, n);
    }
    right_of(ws, n)
}

// Is the left part of a pair shorter than the right one?
#[tactic(auto, unfolding(crate::specs::Nodes::left_shorter))]
fn left_shorter(ws: &[u8], n: u32) -> bool
    requires room { Room ws.now (n + 1) }
    requires room_2 { Room ws.now (left_at ws.now n + 1) × Room ws.now (right_at ws.now n + 1) }
    ensures { result ≡ left_shorter ws.now n }
{
    let length = length_of(ws, left_of(ws, n));
    let other = length_of(ws, right_of(ws, n));
    length < other
}

// The fingerprint of a value of a kind, from its parts'.
#[tactic(auto, unfolding(crate::specs::Nodes::kind_factor, crate::specs::Nodes::left_factor, crate::specs::Nodes::right_factor, crate::specs::Nodes::mixed))]
fn mix(kind: Kind, left: u8, right: u8) -> u8
    ensures { result ≡ mixed (kind_number kind) left right }
{
    let k = u16::from(u8::from(kind));
    let l = u16::from(left);
    let r = u16::from(right);
    ((KIND_FACTOR * k + LEFT_FACTOR * l + RIGHT_FACTOR * r) % 256) as u8
}

// The left part comes first: it is read most often, and so written it is one store and not four, which a read soon after would wait for.
#[tactic(auto, unfolding(crate::specs::Nodes::put_node))]
fn put_node(ws: &mut [u8], n: u32, kind: Kind, print: u8, len: u16, left: u32, right: u32)
    requires { Room ws.old (n + 1) }
    ensures { ws.new ≡ put_node ws.old n (kind_number kind) print len left right }
{
    octets::write32(ws, place_of(n, LEFT), left);
    ws[place_of(n, KIND)] = u8::from(kind);
    ws[place_of(n, PRINT)] = print;
    octets::write16(ws, place_of(n, LENGTH), len);
    octets::write32(ws, place_of(n, RIGHT), right);
}

// A node of a kind, a fingerprint and a length, over two nodes. (Of a unit the parts mean nothing; of a single part it is named twice.)
fn append(ws: &mut [u8], top: u32, kind: Kind, print: u8, len: u16, left: u32, right: u32)
    requires node_ready { NodeReady ws.old top (kind_number kind) print len left right }
    requires right_value { fits (of_kind (kind_number kind) (value_at ws.old left) (value_at ws.old right)) ≡ true }
    ensures { Grown ws.old ws.new top (of_kind (kind_number kind) (value_at ws.old left) (value_at ws.old right)) }
{
    put_node(ws, top, kind, print, len, left, right);
}

// The same, if the value is within the limit.
fn append_short(
    ws: &mut [u8],
    top: u32,
    kind: Kind,
    print: u8,
    len: u32,
    left: u32,
    right: u32,
) -> bool
    requires { NodeReady ws.old top (kind_number kind) print len left right }
    ensures { Made ws.old ws.new top (of_kind (kind_number kind) (value_at ws.old left) (value_at ws.old right)) result }
{
    if MAX_VALUE_BYTES < len {
        return false;
    }
    append(ws, top, kind, print, len as u16, left, right);
    true
}

// The unit, at node `top`.
pub fn unit(ws: &mut [u8], top: u32)
    requires heap { Heap ws.old top }
    requires room { Room ws.old (top + 1) }
    ensures { Grown ws.old ws.new top unit }
{
    append(ws, top, Kind::Unit, UNIT_PRINT, 1, 0, 0);
}

// A cell at node `top`: a unit, whose parts mean nothing as a value and say what the caller says.
pub fn cell(ws: &mut [u8], top: u32, left: u32, right: u32)
    requires heap { Heap ws.old top }
    requires room { Room ws.old (top + 1) }
    ensures { Celled ws.old ws.new top left right }
{
    put_node(ws, top, Kind::Unit, UNIT_PRINT, 1, left, right);
}

// A value over one other (inl, inr, roll), at node `top`: false, and nothing made, where it is over the limit. Kept: a bool, since there is one
// way to fail and nothing to hand back, so a Result would say the same in more words.
pub fn single(ws: &mut [u8], top: u32, kind: Kind, part: u32) -> bool
    requires heap { Heap ws.old top }
    requires room { Room ws.old (top + 1) }
    requires part_lt_top { (part < top) × Single (kind_number kind) }
    ensures { Made ws.old ws.new top (of_kind (kind_number kind) (value_at ws.old part) (value_at ws.old part)) result }
{
    let n = u32::from(length_of(ws, part));
    let print = mix(kind, print_of(ws, part), 0);
    append_short(ws, top, kind, print, n + 1, part, part)
}

// The pair of two values, at node `top`: false, and nothing made, where it is over the limit.
pub fn pair(ws: &mut [u8], top: u32, left: u32, right: u32) -> bool
    requires heap { Heap ws.old top }
    requires room { Room ws.old (top + 1) }
    requires left_lt_top { (left < top) × (right < top) }
    ensures { Made ws.old ws.new top (pair (value_at ws.old left) (value_at ws.old right)) result }
{
    let n = u32::from(length_of(ws, left));
    let m = u32::from(length_of(ws, right));
    let print = mix(Kind::Pair, print_of(ws, left), print_of(ws, right));
    append_short(ws, top, Kind::Pair, print, n + m + 1, left, right)
}

// A quick test that nodes of equal values pass: do two nodes agree in kind, fingerprint and length?
#[tactic(auto, unfolding(crate::specs::Nodes::alike_at))]
pub fn alike(ws: &[u8], a: u32, b: u32) -> bool
    requires room { Room ws.now (a + 1) }
    requires room_2 { Room ws.now (b + 1) }
    ensures { result ≡ alike_at ws.now a b }
{
    let head = head_of(ws, a);
    let other = head_of(ws, b);
    head == other
}

// Do two nodes have the same value? (Values share nodes, so a node is first compared with itself.) Of two parts the shorter is compared
// by a call, so that calls are no deeper than the logarithm of the value's length.
pub fn same(ws: &[u8], top: u32, a: u32, b: u32) -> bool
    requires heap { Heap ws.now top }
    requires a_lt_top { (a < top) × (b < top) }
    ensures { result ≡ same (value_at ws.now a) (value_at ws.now b) }
{
    let mut x = a;
    let mut y = b;
    while x != y {
        if !alike(ws, x, y) {
            return false;
        }
        match kind_of(ws, x) {
            Kind::Unit => return true,
            Kind::Pair => {
                let left = left_shorter(ws, x);
                if !same(ws, top, part_of(ws, x, left), part_of(ws, y, left)) {
                    return false;
                }
                x = part_of(ws, x, !left);
                y = part_of(ws, y, !left);
            }
            Kind::Inl | Kind::Inr | Kind::Roll => {
                x = left_of(ws, x);
                y = left_of(ws, y);
            }
        }
    }
    true
}

// The node of a byte that begins a value, at `top`, over the nodes of the bytes behind it.
fn place(ws: &mut [u8], top: u32, kind: Kind)
    requires { PlaceReady ws.old top (kind_number kind) }
    ensures { Grown ws.old ws.new top (over_last ws.old top (kind_number kind)) }
{
    match kind {
        Kind::Unit => unit(ws, top),
        Kind::Pair => {
            let first = top - 1;
            let n = u32::from(length_of(ws, first));
            pair(ws, top, first, first - n);
        }
        Kind::Inl | Kind::Inr | Kind::Roll => {
            single(ws, top, kind, top - 1);
        }
    }
}

// The values that the bytes are, one after another, as nodes from `top` on, one for each byte. The last byte has the first node, so that
// the parts of a value are there before it. Answers the next free node.
pub fn load(ws: &mut [u8], top: u32, s: &[u8]) -> u32
    requires { LoadReady ws.old top s.now }
    ensures { LoadedFrom ws.old ws.new top s.now 0 result }
{
    let mut free = top;
    for byte in s.iter().rev() {
        place(ws, free, Kind::named(*byte));
        free += 1;
    }
    free
}

// The bytes of a node's value, into `out` from `at` on. Answers the position behind them. Calls are no deeper than those of `same`.
pub fn store(ws: &[u8], n: u32, out: &mut [u8], at: usize) -> usize
    requires { StoreReady ws.now n out.old at }
    ensures { StoreDone ws.now n out.old out.new at result }
{
    let end = at + usize::from(length_of(ws, n));
    let mut x = n;
    let mut place = at;
    loop {
        let kind = kind_of(ws, x);
        out[place] = u8::from(kind);
        let next = place + 1;
        match kind {
            Kind::Unit => return end,
            Kind::Pair => {
                let left = left_of(ws, x);
                let right = right_of(ws, x);
                let behind = next + usize::from(length_of(ws, left));
                if left_shorter(ws, x) {
                    store(ws, left, out, next);
                    x = right;
                    place = behind;
                } else {
                    store(ws, right, out, behind);
                    x = left;
                    place = next;
                }
            }
            Kind::Inl | Kind::Inr | Kind::Roll => {
                x = left_of(ws, x);
                place = next;
            }
        }
    }
}
