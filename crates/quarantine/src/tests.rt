use crate::Quarantine;
use crate::fault::QuarantineFault;
use crate::run::Run;
use crate::sweep::{HostCall, Turn};

// A sweep from its opening to its end, with a run freed on the way.
#[test]
fn a_sweep_ends(rt: HostRuntime) {
    let mut q = Quarantine::new();
    assert_eq!(rt; q.turn(HostCall::Open, 16), Err(QuarantineFault::Idle));
    assert!(rt;
        q.join(Run {
            start: 2,
            length: 3,
        })
        .is_ok()
    );
    assert!(rt;
        q.join(Run {
            start: 2,
            length: 1,
        })
        .is_err()
    );
    assert_eq!(rt; q.turn(HostCall::Open, 16), Ok(Turn::Opened { runs: 1 }));
    assert!(rt;
        q.join(Run {
            start: 8,
            length: 1,
        })
        .is_ok()
    );
    assert!(rt; !q.is_painted(1) && q.is_painted(2) && q.is_painted(4));
    assert!(rt; !q.is_painted(5) && !q.is_painted(8));
    assert_eq!(rt;
        q.turn(HostCall::Step { granules: 15 }, 16),
        Ok(Turn::Passing { from: 0, left: 1 })
    );
    assert_eq!(rt;
        q.turn(HostCall::Step { granules: 1 }, 16),
        Ok(Turn::Ending { from: 15 })
    );
    q.finish();
    assert_eq!(rt; q.len(), 1);
    assert!(rt; q.waits(8) && !q.waits(2) && !q.is_painted(2));
}

// The painted runs of a sweep that is shut wait before those freed since.
#[test]
fn a_shut_sweep_keeps_its_runs(rt: HostRuntime) {
    let mut q = Quarantine::new();
    assert!(rt;
        q.join(Run {
            start: 4,
            length: 2,
        })
        .is_ok()
    );
    assert!(rt; q.turn(HostCall::Open, 16).is_ok());
    assert!(rt;
        q.join(Run {
            start: 0,
            length: 1,
        })
        .is_ok()
    );
    assert_eq!(rt; q.turn(HostCall::Shut, 16), Ok(Turn::Shut { runs: 1 }));
    assert_eq!(rt; q.turn(HostCall::Shut, 16), Err(QuarantineFault::NoSweep));
    assert_eq!(rt; q.turn(HostCall::Open, 16), Ok(Turn::Opened { runs: 2 }));
    assert_eq!(rt;
        q.painted_run(0),
        Some(Run {
            start: 4,
            length: 2
        })
    );
    assert_eq!(rt; q.painted_run(2), None);
    assert_eq!(rt; q.painted().len(), 2);
}
