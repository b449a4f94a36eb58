//! What settings lines give: the settings of a job, or the first bad line and the first reason against it.

use crate::tests::{Refused, are_refused};
use sj_base::mode::Policy;
use sj_job::read::read;
use sj_job::reason::{LimitKind, ReadRefusal, Reason};
use sj_kernels::ring::Ring;
use sj_meaning::settings::Settings;
use std::alloc::Global;
use std::test::Fail;

/// Each reason against a settings line.
const REFUSED: [Refused; 21] = [
    (
        "starjob 1\nworkers 0\n",
        2,
        Reason::Limit(LimitKind::Workers),
    ),
    (
        "starjob 1\nworkers 65\n",
        2,
        Reason::Limit(LimitKind::Workers),
    ),
    ("starjob 1\nworkers -1\n", 2, Reason::Number),
    ("starjob 1\nworkers inf\n", 2, Reason::Number),
    ("starjob 1\nworkers two\n", 2, Reason::Number),
    ("starjob 1\nworkers 2\nworkers 2\n", 3, Reason::Word),
    ("starjob 1\nworkers 2\nworkers two\n", 3, Reason::Word),
    ("starjob 1\nworkers 2\nnode 8\nworkers 2\n", 4, Reason::Word),
    (
        "starjob 1\nnode 7\n",
        2,
        Reason::Limit(LimitKind::NodeBytes),
    ),
    (
        "starjob 1\nnode 1099511627777\n",
        2,
        Reason::Limit(LimitKind::NodeBytes),
    ),
    ("starjob 1\nnode big\n", 2, Reason::Number),
    ("starjob 1\npolicy near\n", 2, Reason::Word),
    ("starjob 1\npolicy eager ws\n", 2, Reason::Word),
    ("starjob 1\npolicy eager\npolicy eager\n", 3, Reason::Word),
    ("starjob 1\nworkers\n", 2, Reason::Word),
    ("starjob 1\nworkers \x01\n", 2, Reason::Word),
    ("starjob 1\nvector x 1 none\nworkers 2\n", 3, Reason::Word),
    ("starjob 1\nvector x 1 none\nnode two\n", 3, Reason::Word),
    ("starjob 1\nworkers 2\nstarjob 1\n", 3, Reason::Word),
    ("starjob 1\nprint x\nworkers 2\n", 2, Reason::UnknownName),
    ("workers 2\nstarjob 1\n", 1, Reason::Header),
];

#[test]
fn bad_settings_are_refused(rt: HostRuntime) {
    are_refused(&rt, rt.alloc(), &REFUSED);
}

/// The settings of a text.
fn settings_of(alloc: Global, text: &[u8]) -> Result<Settings, ReadRefusal> {
    Ok(read(alloc, text, &Ring)?.settings)
}

#[test]
fn settings_are_those_of_their_lines(rt: HostRuntime) -> Result<(), Fail> {
    let alloc = rt.alloc();
    let text =
        b"starjob 1\n\npolicy ws\nnode 0048\n# nodes\nworkers 064\nnode 1099511627776\nvector x 1 none\n";
    let Ok(settings) = settings_of(alloc, text.as_slice()) else {
        return Err(Fail::from("settings"));
    };
    assert_eq!(rt;
        (settings.workers, settings.policy),
        (Some(64), Some(Policy::Ws))
    );
    assert_eq!(rt;
        settings.nodes.items(),
        [48u64, 1_099_511_627_776].as_slice()
    );
    Ok(())
}

#[test]
fn a_job_without_settings_has_one_worker_on_one_node(rt: HostRuntime) -> Result<(), Fail> {
    let alloc = rt.alloc();
    let Ok(settings) = settings_of(alloc, b"starjob 1\nvector x 1 none\n".as_slice()) else {
        return Err(Fail::from("settings"));
    };
    assert_eq!(rt;
        (settings.workers, settings.nodes.len(), settings.policy),
        (None, 0, None)
    );
    assert_eq!(rt;
        (settings.worker_count(), settings.chosen_policy()),
        (1, Policy::Eager)
    );
    let sizes = settings.node_sizes(alloc)?;
    assert_eq!(rt; sizes.as_slice(), [268_435_456u64].as_slice());
    Ok(())
}

/// A text of so many node lines, of which the last is this.
fn nodes(alloc: Global, count: usize, last: &[u8]) -> Result<Vec<u8>, Fail> {
    let mut text = Vec::from_slice(alloc, b"starjob 1\n")?;
    for _ in 1..count {
        text.extend_from_slice(b"node 8\n")?;
    }
    text.extend_from_slice(last)?;
    Ok(text)
}

#[test]
fn sixteen_nodes_are_read_and_no_more(rt: HostRuntime) -> Result<(), Fail> {
    let alloc = rt.alloc();
    let Ok(settings) = settings_of(alloc, &nodes(alloc, 16, b"node 9\n")?) else {
        return Err(Fail::from("settings"));
    };
    assert_eq!(rt; settings.nodes.len(), 16);
    for (last, reason) in [
        ("node 8\n", Reason::Limit(LimitKind::Nodes)),
        ("node 7\n", Reason::Limit(LimitKind::Nodes)),
        ("node b\n", Reason::Number),
    ] {
        let Err(ReadRefusal::Refused { line, reason: why }) = settings_of(
            alloc,
            &nodes(alloc, 17, last.as_bytes())?,
        ) else {
            return Err(Fail::from("a refusal"));
        };
        assert!(rt; line.0 == 18 && why == reason, "{last}");
    }
    Ok(())
}
