// The signatures of a program's functions: a table of functions by parameter positions (document 01, section 1), 64 rows of eight
// parameter type numbers. The pass over the fields fills it while it reads the functions (fields::layout). specs/Signatures says what a
// row is.
ghost use Rattle.calls.specs.Entries.{function_at};
ghost use Rattle.program.specs.Parts.{FunctionField};
ghost use Rattle.program.specs.Signatures.{SignatureIs};

use crate::views;
use rules::MAX_PARAMETERS;

// The row of the function whose field is at `at`.
pub fn signature(p: &[u8], at: usize) -> [u16; MAX_PARAMETERS]
    requires { FunctionField p.now at }
    ensures { SignatureIs (function_at p.now at) result }
{
    let n = views::function_parameters(p, at);
    let mut row = [0u16; MAX_PARAMETERS];
    for k in 0..n {
        row[k] = views::listed(p, at, k);
    }
    row
}
