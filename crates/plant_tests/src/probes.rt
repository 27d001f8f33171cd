// Probes and the free plant.
use crate::samples::{keeps, probe, sees, sizes};
use plant::{Free, Value};

#[test]
fn the_free_plant_is_one_state(rt: HostRuntime) {
    assert_eq!(rt; sizes(&Free), (true, 1, 0));
    assert!(rt;
        sees(
            &Free,
            &[
                (0, 0, true, Some(0), u32::MAX),
                (0, 1, true, None, u32::MAX),
                (1, 0, false, None, u32::MAX),
                (u32::MAX, 0, false, None, u32::MAX),
            ],
        )
    );
    assert!(rt; keeps(&Free, &[(0, 0, false), (0, 1, false), (0, 2, false)]));
}

#[test]
fn a_probe_marks_one_state(rt: HostRuntime) {
    let p = probe(1, 2, Value::Off);
    assert_eq!(rt; sizes(&p), (true, 3, 0));
    assert!(rt;
        sees(
            &p,
            &[
                (0, 0, true, Some(1), u32::MAX),
                (1, 0, false, Some(2), 0xffff_ffef),
                (2, 0, false, Some(2), u32::MAX),
            ],
        )
    );
    assert!(rt;
        sees(
            &probe(0, 0, Value::On),
            &[(0, 0, true, Some(1), 0xffff_fffd)],
        )
    );
    assert!(rt;
        sees(
            &probe(0, 15, Value::On),
            &[(0, 0, true, Some(1), 0x7fff_ffff)],
        )
    );
}

#[test]
fn a_probe_steps_at_or_above(rt: HostRuntime) {
    let p = probe(1, 2, Value::On);
    assert!(rt;
        sees(
            &p,
            &[
                (0, 1, true, Some(1), u32::MAX),
                (0, 2, true, None, u32::MAX),
                (0, u32::MAX, true, None, u32::MAX),
                (3, 0, false, None, u32::MAX),
                (u32::MAX, 0, false, None, u32::MAX),
            ],
        )
    );
    assert!(rt; keeps(&p, &[(0, 0, false), (0, 1, false), (0, 2, false)]));
}

#[test]
fn a_probe_at_both_limits(rt: HostRuntime) {
    let p = probe(1_048_574, 15, Value::Off);
    assert_eq!(rt; sizes(&p), (true, 1_048_576, 0));
    assert!(rt;
        sees(
            &p,
            &[
                (1_048_574, 0, false, Some(1_048_575), 0xbfff_ffff),
                (1_048_575, 0, false, Some(1_048_575), u32::MAX),
                (1_048_576, 0, false, None, u32::MAX),
            ],
        )
    );
}

#[test]
fn a_probe_past_a_limit_is_unfit(rt: HostRuntime) {
    let far = probe(1_048_575, 15, Value::On);
    assert_eq!(rt; sizes(&far), (false, 0, 0));
    assert!(rt;
        sees(
            &far,
            &[
                (0, 0, false, None, u32::MAX),
                (1_048_575, 0, false, None, u32::MAX),
            ],
        )
    );
    let high = probe(0, 16, Value::On);
    assert_eq!(rt; sizes(&high), (false, 0, 0));
    assert!(rt; sees(&high, &[(0, 0, false, None, u32::MAX)]));
    assert!(rt;
        sees(
            &probe(u32::MAX, 255, Value::Off),
            &[(u32::MAX, 0, false, None, u32::MAX)],
        )
    );
}
