// Loads of a table: granted, or refused at the first fault.
use crate::samples::{edge, keeps, refusal, sees, sizes, state, tried};
use table::{EdgeRow, StateRow, Table};

#[test]
fn a_load_of_at_most_so_many_rows_is_granted(rt: HostRuntime) {
    let rows = [StateRow {
        start: true,
        fulfils: 0,
        marks: u32::MAX,
    }; 257];
    let edges = [EdgeRow { from: 0, to: 255 }; 4097];
    let mut t = Table::new();
    assert_eq!(rt; refusal(t.load(&rows, &[], 0)), Some((15, 0)));
    assert_eq!(rt; refusal(t.load(&rows[0..256], &edges, 0)), Some((15, 0)));
    assert_eq!(rt;
        refusal(t.load(&rows[0..256], &edges[0..4096], 17)),
        Some((15, 0))
    );
    assert_eq!(rt; sizes(&t), (false, 0, 0));
    assert_eq!(rt; refusal(t.load(&rows[0..256], &edges[0..4096], 16)), None);
    assert_eq!(rt; sizes(&t), (true, 256, 16));
}

#[test]
fn a_zero_mark_is_refused(rt: HostRuntime) {
    let good = state(true, 0, u32::MAX);
    assert_eq!(rt;
        tried(&[state(true, 0, 0xffff_fffc)], &[], 0),
        Some((16, 0))
    );
    assert_eq!(rt;
        tried(&[good, state(true, 0, 0xfffc_ffff)], &[], 0),
        Some((16, 1))
    );
    assert_eq!(rt;
        tried(&[good, good, state(true, 0, 0x3fff_ffff)], &[], 0),
        Some((16, 2))
    );
    assert_eq!(rt;
        tried(&[good, state(true, 0, 0), good], &[], 0),
        Some((16, 1))
    );
    assert_eq!(rt;
        tried(
            &[state(true, 0, 0x5555_5555), state(true, 0, 0xaaaa_aaaa)],
            &[],
            0,
        ),
        None
    );
}

#[test]
fn a_promise_that_does_not_exist_is_refused(rt: HostRuntime) {
    assert_eq!(rt;
        tried(
            &[state(true, 0b11, u32::MAX), state(true, 0b100, u32::MAX)],
            &[],
            2,
        ),
        Some((16, 1))
    );
    assert_eq!(rt;
        tried(&[state(true, 0x8000_0000, u32::MAX)], &[], 16),
        Some((16, 0))
    );
    assert_eq!(rt; tried(&[state(true, 1, u32::MAX)], &[], 0), Some((16, 0)));
    assert_eq!(rt; tried(&[state(true, 0b11, u32::MAX)], &[], 2), None);
    assert_eq!(rt; tried(&[state(true, 0xffff, u32::MAX)], &[], 16), None);
}

#[test]
fn an_edge_to_or_from_no_state_is_refused(rt: HostRuntime) {
    let rows = [state(true, 0, u32::MAX), state(false, 0, u32::MAX)];
    assert_eq!(rt; tried(&rows, &[edge(0, 2)], 0), Some((17, 0)));
    assert_eq!(rt; tried(&rows, &[edge(1, 0), edge(2, 0)], 0), Some((17, 1)));
    assert_eq!(rt;
        tried(&rows, &[edge(0, 1), edge(2, 2), edge(0, u32::MAX)], 0),
        Some((17, 1))
    );
    assert_eq!(rt; tried(&[], &[edge(0, 0)], 0), Some((17, 0)));
    assert_eq!(rt; tried(&rows, &[edge(1, 1), edge(0, 1)], 0), None);
}

#[test]
fn the_causes_are_checked_in_their_order(rt: HostRuntime) {
    let rows = [state(true, 0, u32::MAX), state(true, 1, 0)];
    assert_eq!(rt; tried(&rows, &[edge(0, 2)], 17), Some((15, 0)));
    assert_eq!(rt; tried(&rows, &[edge(0, 2)], 16), Some((16, 1)));
}

#[test]
fn a_refused_load_leaves_the_table_as_it_was(rt: HostRuntime) {
    let rows = [state(true, 1, 0xffff_fffd), state(false, 0, u32::MAX)];
    let edges = [edge(0, 1)];
    let stray = [edge(0, 0)];
    let mut t = Table::new();
    assert_eq!(rt; refusal(t.load(&rows, &edges, 1)), None);
    assert_eq!(rt; refusal(t.load(&[], &stray, 0)), Some((17, 0)));
    assert_eq!(rt; sizes(&t), (true, 2, 1));
    assert!(rt; sees(&t, &[(0, 0, true, Some(1), 0xffff_fffd)]));
    assert!(rt; keeps(&t, &[(0, 0, true), (0, 1, false), (0, 2, false)]));
    assert_eq!(rt; refusal(t.load(&[], &[], 0)), None);
    assert_eq!(rt; sizes(&t), (true, 0, 0));
}
