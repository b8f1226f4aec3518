// The end of the program: the text of a fault on standard error, and the exit status.
ghost use Rattle.std.specs.Prelude.{◌≡◌};
ghost use Rattle.bm_tool.specs.Status.{fault_text, status_of};

use bm_session::Fault;

/// How the program ended.
#[derive(Clone, Copy)]
pub enum End {
    /// The whole input was answered.
    Answered,
    /// Help was asked for.
    Helped,
    /// A fault ended the run, or memory was refused before it.
    Faulted(Fault),
    /// The command line was refused.
    Misused,
}

/// The exit status.
pub fn status_of(end: End) -> u8
    ensures { result ≡ status_of end }
{
    match end {
        End::Answered | End::Helped => 0,
        End::Faulted(_) => 1,
        End::Misused => 2,
    }
}

/// The text of a fault on standard error.
pub fn fault_text(fault: Fault) -> &'static str
    ensures { result.now ≡ fault_text fault }
{
    match fault {
        Fault::Config => "bm_tool: config fault",
        Fault::Read => "bm_tool: read fault",
        Fault::Write => "bm_tool: write fault",
        Fault::Memory => "bm_tool: memory fault",
        Fault::TooMuch => "bm_tool: too much input",
    }
}
