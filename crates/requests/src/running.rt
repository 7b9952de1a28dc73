// Rows Call, Run and Output of document 01's section 4, for the calls that run a function. Forward and backward differ in the type that
// the value is held to, and in the run: all else they share.
ghost use Rattle.std.specs.Prelude.{◌≡◌, ◌≤◌, length};
ghost use Rattle.calls.specs.Runs.{workspace_for};
ghost use Rattle.loading.specs.Loads.{program_accepted};
ghost use Rattle.requests.specs.Runs.{RunMeans, is_back, asked, asked_of};

use answers::RunAnswer;
use loading::loaded::AcceptedProgram;
use loading::room;
use loading::room::Room;

// Which way a function is run.
#[derive(Clone, Copy, PartialEq, Eq, Debug)]
pub enum Direction {
    Forward,
    Backward,
}

impl Direction {
    fn is_back(self) -> bool
        ensures { result ≡ is_back self }
    {
        self == Direction::Backward
    }
}

// What a caller asks of a program: a function, the bytes of its ancillae and of the value that it is run on, the direction, and fuel.
#[derive(Clone, Copy)]
pub struct Request<'a> {
    pub function: u16,
    pub ancillae: &'a [u8],
    pub value: &'a [u8],
    pub direction: Direction,
    pub fuel: u16,
}

// Rows Call, Run and Output, for a program that is accepted.
pub fn run(
    program: AcceptedProgram,
    request: &Request,
    workspace: &mut [u8],
    output: &mut [u8],
) -> RunAnswer
    requires { workspace_for request.now.fuel ≤ length workspace.old }
    ensures { RunMeans result (asked request.now (program_accepted program.entry) (length output.old)) output.old output.new }
{
    let entries = program.entries;
    let Request {
        function,
        ancillae,
        value,
        direction,
        fuel,
    } = *request;
    // a run back is given the result, a forward run the dynamic argument
    let by_result = direction.is_back();
    admission::admit(&entries, function, ancillae, value, by_result)?;
    match direction {
        Direction::Forward => runs::ahead::run(
            &entries, function, ancillae, value, fuel, workspace, output,
        ),
        Direction::Backward => runs::back::run(
            &entries, function, ancillae, value, fuel, workspace, output,
        ),
    }
}

// The rows after the first, in a workspace that is long enough and that is left as it comes.
pub fn run_program(
    program: &[u8],
    request: &Request,
    workspace: &mut [u8],
    output: &mut [u8],
) -> RunAnswer
    requires { workspace_for request.now.fuel ≤ length workspace.old }
    ensures { RunMeans result (asked_of request.now program.now (length output.old)) output.old output.new }
{
    let mut room = Room::new();
    let loaded = room::load_into(program, &mut room, workspace)?;
    run(loaded, request, workspace, output)
}
