//! How a run ends.

ghost use Rattle.std.specs.Prelude.{◌≡◌};
ghost use Rattle.command.specs.Statuses.{exit_status, status_of};

use report_model::Report;

/// The status of a run. Its number is the program's exit status.
#[derive(Clone, Copy, Debug, PartialEq, Eq)]
pub enum Status {
    /// No rule with an action is taken.
    Clean,
    /// The reports were written.
    Reports,
    /// The words are no request.
    Usage,
    /// A file has a fault, which is named.
    Refused,
    /// A file was not read.
    ReadFault,
    /// Not all was written.
    WriteFault,
    /// There was no memory. Nothing was written.
    NoMemory,
}

impl Status {
    /// The exit status.
    pub fn code(self) -> u8
        ensures { result ≡ exit_status self }
    {
        self as u8
    }
}

/// The status of a list of reports: whether there are any.
pub(crate) fn status_of(reports: &[Report]) -> Status
    ensures { result ≡ status_of reports.now }
{
    match reports {
        [] => Status::Clean,
        _ => Status::Reports,
    }
}
