// How a run ends, forward or back: with a value that fills the output, or with a refusal, of which the output is unchanged.
ghost use Rattle.rules.specs.Run.{ok};
ghost use Rattle.calls.specs.Runs.{ran};
ghost use Rattle.valuegraph.specs.Nodes.{value_at};
ghost use Rattle.backward.specs.Outcomes.{refusal_of};
ghost use Rattle.runs.specs.Ended.{Shaped, Gives, Means};

use answers::{Done, Refusal, RunAnswer};
use backward::outcomes;

// The run has given a node, and has `left` of its fuel: 17 if the output is too short for the value.
pub fn give(ws: &[u8], node: u32, fuel: u16, left: u32, out: &mut [u8]) -> RunAnswer
    requires { Gives ws.now node fuel left }
    ensures { Means result out.old out.new (ran fuel (ok (value_at ws.now node) left)) }
{
    let len = valuegraph::nodes::length_of(ws, node);
    if out.len() < usize::from(len) {
        return Err(Refusal::Output);
    }
    valuegraph::nodes::store(ws, node, out, 0);
    let spent = u32::from(fuel) - left;
    let steps = spent as u16;
    Ok(Done { len, steps })
}

// The run was refused, with 12 to 16.
pub fn refuse(why: outcomes::Refusal, fuel: u16, out: &mut [u8]) -> RunAnswer
    requires { Shaped why }
    ensures { Means result out.old out.new (ran fuel (refusal_of why)) }
{
    match why {
        outcomes::Refusal::Fuel(t) => Err(Refusal::Fuel(t)),
        outcomes::Refusal::Height(t) => Err(Refusal::Height(t)),
        outcomes::Refusal::Long(t) => Err(Refusal::Long(t)),
        outcomes::Refusal::FirstMatch(t) => Err(Refusal::FirstMatch(t)),
        outcomes::Refusal::NoInput(t) => Err(Refusal::NoInput(t)),
        // never met: a checked program never meets a value of wrong shape
        outcomes::Refusal::Stuck => Err(Refusal::Output),
    }
}
