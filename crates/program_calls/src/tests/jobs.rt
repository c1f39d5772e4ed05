//! Why jobs are refused.
use crate::tests::assertions::{assert_shows, found, given};
use job_file::kept_job_in;
use job_reasons::{Command, table_in, table_reason};

/// A value out of its range, and a key that `make` needs alone.
#[test]
fn tells_a_key_of_a_job(rt: HostRuntime) {
    let table = given!(rt; table_in(rt.alloc(), b"vlen = 100"));
    let told = given!(rt; table_reason(rt.alloc(), Command::Try, &table));
    let expected = "  not as wanted: vlen in the job: 128, 256 or 512\n";
    assert_shows(rt, rt.alloc(), found!(rt; told), expected);
    let other = given!(rt; table_in(rt.alloc(), b"vlen = 128"));
    let none = given!(rt; table_reason(rt.alloc(), Command::Make, &other));
    assert!(rt; none.is_none());
}

#[test]
fn reads_a_job_that_keeps_the_rules(rt: HostRuntime) {
    let table = given!(rt; job_file::parse(rt.alloc(), "max = 7\nimage = \"a.elf\"\n"));
    let job = given!(rt; kept_job_in(&table));
    assert!(rt; job.image == Some("a.elf"));
    assert!(rt; job.max == Some(7));
    assert!(rt; job.vlen.is_none());
}
