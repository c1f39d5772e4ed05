//! Why runs are not started.
use crate::tests::assertions::{assert_shows, found};
use job_reasons::open_reason;
use region_mem::{Arg, Args, Param, Parameters};
use sandbox_run::OpenError;

/// What is wanted of a run that was accepted for another length.
#[test]
fn tells_what_length_is_wanted(rt: HostRuntime) {
    let parameters = found!(rt; Parameters::new([Param::None; 8]));
    let args: Args = Args {
        places: [
            Arg::None,
            Arg::None,
            Arg::None,
            Arg::None,
            Arg::None,
            Arg::None,
            Arg::None,
            Arg::None,
        ],
    };
    let reason = open_reason(&parameters, &args, 900, 800, OpenError::WrongVlen);
    let expected = "  wanted: the length of vector registers of the certificate\n";
    assert_shows(rt, rt.alloc(), reason, expected);
}
