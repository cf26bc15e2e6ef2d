ghost use Rattle.std.specs.Prelude.{◌≡◌};
ghost use Rattle.std.specs.Process.{exit_status};
ghost use Rattle.bmc_replay.specs.declared.status.Status.TheVariants.{Done, Refused, Usage, OutOfMemory, ReadFault, WriteFault, TooLong};
ghost use Rattle.bmcreplay.specs.Ends.{number_of};

use bmc_replay::Status;
use std::process::ExitCode;

/// The number that the process ends with.
pub fn exit_code(status: Status) -> ExitCode
    ensures { exit_status result ≡ number_of status }
{
    ExitCode::from(match status {
        Status::Done => 0,
        Status::Refused => 1,
        Status::Usage => 2,
        Status::OutOfMemory => 3,
        Status::ReadFault => 4,
        Status::WriteFault => 5,
        Status::TooLong => 6,
    })
}

/// The numbers of all statuses.
pub fn status_numbers()
    ensures done { number_of Done ≡ 0 }
    ensures refused { number_of Refused ≡ 1 }
    ensures usage { number_of Usage ≡ 2 }
    ensures out_of_memory { number_of OutOfMemory ≡ 3 }
    ensures read_fault { number_of ReadFault ≡ 4 }
    ensures write_fault { number_of WriteFault ≡ 5 }
    ensures too_long { number_of TooLong ≡ 6 }
{}

/// The line that says why a run ended before the end of its script, or none where it did not. Refused words have their line on the
/// output.
pub fn reason_of(status: Status) -> Option<&'static str> {
    match status {
        Status::Done | Status::Refused | Status::Usage => None,
        Status::OutOfMemory => Some("bmcreplay: out of memory\n"),
        Status::ReadFault => Some("bmcreplay: the input or a file could not be read\n"),
        Status::WriteFault => Some("bmcreplay: the output could not be written\n"),
        Status::TooLong => { Some("bmcreplay: the input has at least 1,099,511,627,776 bytes\n") }
    }
}

#[cfg(test)]
mod tests {
    use super::*;

    #[test]
    fn says_why(rt: HostRuntime) {
        let rows = &[
            (Status::Done, None),
            (Status::Refused, None),
            (Status::Usage, None),
            (Status::OutOfMemory, Some("out of memory")),
            (
                Status::ReadFault,
                Some("the input or a file could not be read"),
            ),
            (Status::WriteFault, Some("the output could not be written")),
            (
                Status::TooLong,
                Some("the input has at least 1,099,511,627,776 bytes"),
            ),
        ];
        for &(status, words) in rows {
            let line = reason_of(status);
            let said = line.and_then(|line| line.strip_prefix("bmcreplay: "));
            assert_eq!(rt; said.and_then(|said| said.strip_suffix("\n")), words);
        }
    }
}
