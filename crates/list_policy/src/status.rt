//! The exit status of a check against a policy.
ghost use Rattle.std.specs.Prelude.{◌≡◌};
ghost use Rattle.list_policy.specs.Status.{exit_status};

/// Returns the exit status of a check by the numbers of faulty lines and of breaches. It is 2 if there are faults, else 3 if
/// there are breaches, else 0.
pub fn exit_status(faults: usize, breaches: usize) -> u8
    ensures { result ≡ exit_status faults breaches }
{
    if faults > 0 {
        2
    } else if breaches > 0 {
        3
    } else {
        0
    }
}
