// A line of text answered by a line (tests/second/README.md has the form): the call that it says is made, and its answer is put into
// words.
#![tactic(auto)]

// the calls, made in the lengths that a line names
mod making;
// the calls on a journal
mod keeping;
// the readers of a journal
mod reading;
// the line that answers what was read
mod replying;
// whether the buffers are long enough
mod room;

ghost use Rattle.std.specs.Prelude.{◌+◌, ◌*◌, ◌≤◌, ◌≡◌, length};
ghost use Rattle.calltext.specs.Calls.{read_line};
ghost use Rattle.calltext.specs.Left.{program_left, ancillae_left, value_left};
ghost use Rattle.batch.specs.Capped.{most_workspace, most_output, answer_room};
ghost use Rattle.batch.specs.Lent.{Replies, lent, LineMeans};

// Where the answer ends; none where a buffer is too short for the line, and nothing was done.
pub type LineAnswer = Option<usize>;

// The line that answers a line, in buffers that are long enough: where it ends.
fn answer_within(
    line: &[u8],
    program: &mut [u8],
    ancillae: &mut [u8],
    value: &mut [u8],
    workspace: &mut [u8],
    output: &mut [u8],
    out: &mut [u8],
) -> usize
    requires line_len_bound { (length line.now ≤ 2 * length program.old) × (length line.now ≤ 2 * length ancillae.old) × (length line.now ≤ 2 * length value.old) }
    requires most_workspace_in_bounds { (most_workspace ≤ length workspace.old) × (most_output ≤ length output.old) }
    requires answer_room_in_bounds { 2 * length value.old + answer_room ≤ length out.old }
    ensures replies { Replies (read_line line.now) result (value_left line.now value.old) value.new workspace.old workspace.new output.old output.new out.old out.new }
    ensures program_after { (program.new ≡ program_left line.now program.old) × (ancillae.new ≡ ancillae_left line.now ancillae.old) }
{
    let parsed = calltext::calls::parse(line, program, ancillae, value);
    replying::reply(parsed, program, ancillae, value, workspace, output, out)
}

// The line that answers a line, put at the start of `out`: where it ends. The line comes without the byte that ends it, the answer has
// it. The byte strings of the line are put into `program`, `ancillae` and `value` (a journal into `value`); workspace and output are as
// long as makes a difference to any call. Where a buffer is too short for that, nothing is done.
pub fn answer(
    line: &[u8],
    program: &mut [u8],
    ancillae: &mut [u8],
    value: &mut [u8],
    workspace: &mut [u8],
    output: &mut [u8],
    out: &mut [u8],
) -> LineAnswer
    ensures { LineMeans result line.now (lent program.old ancillae.old value.old workspace.old output.old out.old) (lent program.new ancillae.new value.new workspace.new output.new out.new) }
{
    if !room::enough(
        line.len(),
        program.len(),
        ancillae.len(),
        value.len(),
        workspace.len(),
        output.len(),
        out.len(),
    ) {
        return None;
    }
    Some(answer_within(line, program, ancillae, value, workspace, output, out))
}
