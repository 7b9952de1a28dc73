// May-yield (document 01, section 3): whether a term may yield a value, judged by the term's form alone. `code` is the decoded program; `ws` is
// the value graph; the lent numbers `st` hold the ancilla parameters' nodes, the first variables of the scope (specs/Yields). Terms name lower
// terms, so the recursion ends. An ancilla's value is compared in two ways: at a glance, by what nodes hold, which never calls equal values
// unequal, and exactly. A term is asked at a glance first: no value is walked where that says no, or yes without a comparison.
#![tactic(auto)]

ghost use Rattle.std.specs.Prelude.{◌≡◌, cond, ◌<◌, ◌≤◌};
ghost use Rattle.program.specs.Kinds.{pair_kind, case_kind};
ghost use Rattle.rules.specs.Val.{same};
ghost use Rattle.rules.specs.Term.{look};
ghost use Rattle.rules.specs.Yield.{may_be};
ghost use Rattle.valuegraph.specs.Nodes.{kind_number, value_at, Heap};
ghost use Rattle.scopes.specs.Slots.{unknown, machine_of};
ghost use Rattle.decoded.specs.Rows.{kind_in};
ghost use Rattle.yields.specs.Yields.{ancillae_in, AncillaeIn, Judges, Asks, MayYield, YieldsIn, Wraps, Binds};

use decoded::rows;
use decoded::rows::CODE;
use program::kinds::TermKind;
use scopes::state::STATE;
use scopes::{slots, state};
use valuegraph::nodes;
use valuegraph::nodes::Kind;

// Perhaps, at a glance. Of two questions both are answered by the lower answer, either by the higher.
#[derive(Clone, Copy, PartialEq, Eq, PartialOrd, Ord, Debug)]
enum Answer {
    No,
    Perhaps,
    Yes,
}

// An answer that is known.
fn surely(yes: bool) -> Answer
    ensures { result ≡ cond yes Answer.Yes Answer.No }
{
    if yes {
        return Answer::Yes;
    }
    Answer::No
}

// What is asked about terms: the decoded program, the value graph, and the scope with its ancilla values.
#[derive(Clone, Copy)]
struct Question<'a> {
    code: &'a [u16; CODE],
    ws: &'a [u8],
    st: &'a [u32; STATE],
    scope: u64,
}

impl Question<'_> {
    // Variable i: an ancilla parameter has its own value, every other variable may have any.
    fn yield_variable(&self, i: u16, node: u32, exact: bool) -> Answer
        requires heap { Heap self.now.ws.now (machine_of self.now.st.now).top }
        requires ancillae_in { AncillaeIn self.now.st.now self.now.scope }
        requires node_bound { (node < (machine_of self.now.st.now).top) × ((machine_of self.now.st.now).top ≤ unknown) }
        ensures { Judges exact result (may_be (look (ancillae_in self.now.ws.now self.now.st.now self.now.scope) i) (value_at self.now.ws.now node)) }
    {
        let v = usize::from(i);
        if v < state::ancillae_in(self.scope) {
            let known = slots::at(self.st, state::base_in(self.scope) + v);
            return self.agree(known, node, exact);
        }
        surely(true)
    }

    // Do two nodes have the same value, exactly or at a glance?
    fn agree(&self, known: u32, node: u32, exact: bool) -> Answer
        requires heap { Heap self.now.ws.now (machine_of self.now.st.now).top }
        requires known_bound { (known < (machine_of self.now.st.now).top) × (node < (machine_of self.now.st.now).top) }
        ensures { Judges exact result (same (value_at self.now.ws.now known) (value_at self.now.ws.now node)) }
    {
        if exact {
            return surely(nodes::same(self.ws, state::top(self.st), known, node));
        }
        if nodes::alike(self.ws, known, node) {
            return Answer::Perhaps;
        }
        Answer::No
    }

    // May term t yield the value at `node`? By its kind (section 1); a call and an unroll may yield any value.
    #[cycle(forms)]
    fn may_yield(&self, t: u16, node: u32, exact: bool) -> Answer
        requires { Asks self.now.code.now self.now.ws.now self.now.st.now self.now.scope t node }
        ensures { YieldsIn self.now.code.now self.now.ws.now self.now.st.now self.now.scope t node exact result }
    {
        match rows::term_kind(self.code, t) {
            TermKind::Variable => self.yield_variable(rows::first_of(self.code, t), node, exact),
            TermKind::Unit => surely(nodes::kind_of(self.ws, node) == Kind::Unit),
            TermKind::Inl => self.yield_part(t, node, exact, Kind::Inl),
            TermKind::Inr => self.yield_part(t, node, exact, Kind::Inr),
            TermKind::Pair => self.yield_pair(t, node, exact),
            TermKind::Let => self.yield_body(t, node, exact),
            TermKind::LetPair => self.yield_body(t, node, exact),
            TermKind::Case => self.yield_case(t, node, exact),
            TermKind::Roll => self.yield_part(t, node, exact, Kind::Roll),
            TermKind::Call => Answer::Yes,
            TermKind::Unroll => Answer::Yes,
        }
    }

    // inl, inr, roll: the value is of the kind that the term makes, and the term's part may yield the value's part.
    #[cycle(forms)]
    fn yield_part(&self, t: u16, node: u32, exact: bool, kind: Kind) -> Answer
        requires asks { Asks self.now.code.now self.now.ws.now self.now.st.now self.now.scope t node }
        requires wraps { Wraps (kind_in self.now.code.now t) (kind_number kind) }
        ensures { YieldsIn self.now.code.now self.now.ws.now self.now.st.now self.now.scope t node exact result }
    {
        let found = nodes::kind_of(self.ws, node);
        if found != kind {
            return Answer::No;
        }
        let part = rows::second_of(self.code, t);
        let below = nodes::left_of(self.ws, node);
        self.may_yield(part, below, exact)
    }

    // Each part of a pair may yield the value's part on its side.
    #[cycle(forms)]
    fn yield_pair(&self, t: u16, node: u32, exact: bool) -> Answer
        requires asks { Asks self.now.code.now self.now.ws.now self.now.st.now self.now.scope t node }
        requires t_value { kind_in self.now.code.now t ≡ pair_kind }
        ensures { YieldsIn self.now.code.now self.now.ws.now self.now.st.now self.now.scope t node exact result }
    {
        let found = nodes::kind_of(self.ws, node);
        if found != Kind::Pair {
            return Answer::No;
        }
        let left = rows::first_of(self.code, t);
        let below = nodes::left_of(self.ws, node);
        let first = self.may_yield(left, below, exact);
        if first == Answer::No {
            return Answer::No;
        }
        let right = rows::second_of(self.code, t);
        let beside = nodes::right_of(self.ws, node);
        let second = self.may_yield(right, beside, exact);
        first.min(second)
    }

    // let, let pair: the body may yield the value.
    #[cycle(forms)]
    fn yield_body(&self, t: u16, node: u32, exact: bool) -> Answer
        requires asks { Asks self.now.code.now self.now.ws.now self.now.st.now self.now.scope t node }
        requires binds { Binds (kind_in self.now.code.now t) }
        ensures { YieldsIn self.now.code.now self.now.ws.now self.now.st.now self.now.scope t node exact result }
    {
        let body = rows::second_of(self.code, t);
        self.may_yield(body, node, exact)
    }

    // Either branch of a case may yield the value.
    #[cycle(forms)]
    fn yield_case(&self, t: u16, node: u32, exact: bool) -> Answer
        requires asks { Asks self.now.code.now self.now.ws.now self.now.st.now self.now.scope t node }
        requires t_value { kind_in self.now.code.now t ≡ case_kind }
        ensures { YieldsIn self.now.code.now self.now.ws.now self.now.st.now self.now.scope t node exact result }
    {
        let left = rows::second_of(self.code, t);
        let first = self.may_yield(left, node, exact);
        if first == Answer::Yes {
            return Answer::Yes;
        }
        let right = rows::third_of(self.code, t);
        let second = self.may_yield(right, node, exact);
        first.max(second)
    }
}

// May term t yield the value at `node`? At a glance, and exactly where that says perhaps.
pub fn yields(
    code: &[u16; CODE],
    ws: &[u8],
    st: &[u32; STATE],
    scope: u64,
    t: u16,
    node: u32,
) -> bool
    requires { Asks code.now ws.now st.now scope t node }
    ensures { MayYield code.now ws.now st.now scope t node result }
{
    let asked = Question {
        code,
        ws,
        st,
        scope,
    };
    match asked.may_yield(t, node, false) {
        Answer::No => false,
        Answer::Yes => true,
        Answer::Perhaps => match asked.may_yield(t, node, true) {
            Answer::Yes => true,
            _ => false,
        },
    }
}
