// Product nodes in lent bytes. Only this module knows a node's layout (specs/Codes).
// Kept: nodes are laid out by hand, since the caller lends bytes and nothing is allocated.
ghost use Rattle.std.specs.Prelude.{◌≡◌, ◌+◌, ◌*◌, ◌≤◌, length};
ghost use Rattle.types.specs.Codes.{code_at, left_at, right_at, count_at, Room};
ghost use Rattle.types.specs.Numbers.{numbers_of, code_of};
ghost use Rattle.types.specs.Growth.{put_code, put_node};

use crate::codes::Code;

pub const NODE_BYTES: usize = 14;

// The forms of codes.
const UNIT: u16 = 0;

const ENTRY: u16 = 1;

const UNDER: u16 = 2;

const PRODUCT: u16 = 3;

// A product node that no workspace has room for.
const NO_PRODUCT: u16 = 65535;

// A code as numbers: its form, then the entries or the node that it names. What a form does not name is 0.
#[derive(Clone, Copy)]
pub struct Numbers {
    pub form: u16,
    pub at: u16,
    pub stands: u16,
}

impl From<Code> for Numbers {
    ghost from_gives = { λ c n. n ≡ numbers_of c };

    fn from(c: Code) -> Self {
        match c {
            Code::Unit => Numbers {
                form: UNIT,
                at: 0,
                stands: 0,
            },
            Code::Entry(at) => Numbers {
                form: ENTRY,
                at,
                stands: 0,
            },
            Code::Under(at, stands) => Numbers {
                form: UNDER,
                at,
                stands,
            },
            Code::Product(at) => Numbers {
                form: PRODUCT,
                at,
                stands: 0,
            },
        }
    }
}

// Any numbers are a code's, since any bytes may stand where a hint is read: a form that there is not is read as a product that is not there.
impl From<Numbers> for Code {
    ghost from_gives = { λ n c. c ≡ code_of n.form n.at n.stands };

    fn from(n: Numbers) -> Self {
        match n.form {
            UNIT => Code::Unit,
            ENTRY => Code::Entry(n.at),
            UNDER => Code::Under(n.at, n.stands),
            PRODUCT => Code::Product(n.at),
            _ => Code::Product(NO_PRODUCT),
        }
    }
}

// The code at an offset.
pub fn code_at(ws: &[u8], at: usize) -> Code
    requires { at + 6 ≤ length ws.now }
    ensures { result ≡ code_at ws.now at }
{
    Code::from(Numbers {
        form: octets::read16(ws, at),
        at: octets::read16(ws, at + 2),
        stands: octets::read16(ws, at + 4),
    })
}

// Kept: a reader for each part, since one with the offset as a parameter would name the parts by numbers.
pub fn left_of(ws: &[u8], n: u16) -> Code
    requires { Room ws.now (n + 1) }
    ensures { result ≡ left_at ws.now n }
{
    code_at(ws, NODE_BYTES * usize::from(n))
}

pub fn right_of(ws: &[u8], n: u16) -> Code
    requires { Room ws.now (n + 1) }
    ensures { result ≡ right_at ws.now n }
{
    code_at(ws, NODE_BYTES * usize::from(n) + 6)
}

// How many nodes the product has as a tree.
pub fn count_of(ws: &[u8], n: u16) -> u16
    requires { Room ws.now (n + 1) }
    ensures { result ≡ count_at ws.now n }
{
    octets::read16(ws, NODE_BYTES * usize::from(n) + 12)
}

pub fn put_code(ws: &mut [u8], at: usize, c: Code)
    requires { at + 6 ≤ length ws.old }
    ensures { (ws.new ≡ put_code ws.old at c) × (code_at ws.new at ≡ c) }
{
    let numbers = Numbers::from(c);
    octets::write16(ws, at, numbers.form);
    octets::write16(ws, at + 2, numbers.at);
    octets::write16(ws, at + 4, numbers.stands);
}

pub fn put_node(ws: &mut [u8], n: u16, left: Code, right: Code, count: u16)
    requires { Room ws.old (n + 1) }
    ensures { ws.new ≡ put_node ws.old n left right count }
{
    let at = NODE_BYTES * usize::from(n);
    put_code(ws, at, left);
    put_code(ws, at + 6, right);
    octets::write16(ws, at + 12, count);
}
