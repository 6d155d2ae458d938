//! What a gate lets go out.
use sam_server::{Gate, Mark};

#[test]
fn gate_opens_as_records_are_durable(rt: HostRuntime) {
    let mut gate = Gate::new(rt.alloc());
    let called = Mark { attempt: 1, put: 0 };
    let came = Mark {
        attempt: 1,
        put: 500,
    };
    assert!(rt; gate.record(called).is_ok());
    assert!(rt; gate.record(came).is_ok());
    assert_eq!(rt; gate.room(1, 42, 0, 4096), 0);
    gate.durable(0);
    assert_eq!(rt; gate.room(1, 42, 0, 4096), 0);
    gate.durable(1);
    assert_eq!(rt; gate.room(1, 42, 0, 4096), 42);
    assert_eq!(rt; gate.room(1, 42, 0, 10), 10);
    assert_eq!(rt; gate.room(2, 42, 0, 4096), 0);
    gate.durable(7);
    assert_eq!(rt; gate.room(1, 2, 0, 4096), 502);
    assert_eq!(rt; gate.room(1, 0, 460, 4096), 40);
    assert_eq!(rt; gate.room(1, 0, 700, 4096), 0);
}
