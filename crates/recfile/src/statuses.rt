ghost use Rattle.std.specs.Prelude.{◌≡◌};
ghost use Rattle.recfile.specs.Statuses.{exit_status_of};

/// The status of the program: 4 where the transactions that were left open could not all be ended, else 1 for a
/// fault of the file, else 3 for a fault of the script, else 0.
pub fn exit_status(end_stopped: bool, file_fault: bool, script_fault: bool) -> u8
    ensures { result ≡ exit_status_of end_stopped file_fault script_fault }
{
    if end_stopped {
        4
    } else if file_fault {
        1
    } else if script_fault {
        3
    } else {
        0
    }
}
