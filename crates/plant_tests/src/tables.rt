// What a table answers.
use crate::samples::{edge, keeps, refusal, sees, sizes, state};
use table::Table;

#[test]
fn a_table_is_unfit_until_a_load(rt: HostRuntime) {
    let t = Table::new();
    assert_eq!(rt; sizes(&t), (false, 0, 0));
    assert!(rt; sees(&t, &[(0, 0, false, None, u32::MAX)]));
    assert!(rt; keeps(&t, &[(0, 0, false), (0, 1, false), (0, 2, false)]));
}

#[test]
fn a_table_of_no_states_is_fit(rt: HostRuntime) {
    let mut t = Table::new();
    assert_eq!(rt; refusal(t.load(&[], &[], 3)), None);
    assert_eq!(rt; sizes(&t), (true, 0, 3));
    assert!(rt; sees(&t, &[(0, 0, false, None, u32::MAX)]));
    assert!(rt; keeps(&t, &[(0, 0, false), (0, 1, false), (0, 2, false)]));
}

#[test]
fn a_table_answers_its_rows(rt: HostRuntime) {
    let rows = [
        state(true, 0b10, 0xffff_fffd),
        state(false, 0b01, 0xffff_fffe),
        state(true, 0, u32::MAX),
    ];
    let edges = [edge(0, 2), edge(2, 0), edge(0, 1), edge(0, 2)];
    let mut t = Table::new();
    assert_eq!(rt; refusal(t.load(&rows, &edges, 2)), None);
    assert_eq!(rt; sizes(&t), (true, 3, 2));
    assert!(rt;
        sees(
            &t,
            &[
                (0, 0, true, Some(1), 0xffff_fffd),
                (0, 2, true, Some(2), 0xffff_fffd),
                (0, 3, true, None, 0xffff_fffd),
                (1, 0, false, None, 0xffff_fffe),
            ],
        )
    );
    assert!(rt;
        keeps(
            &t,
            &[
                (0, 0, false),
                (0, 1, true),
                (0, 2, false),
                (1, 0, true),
                (1, 1, false),
                (1, 2, false),
            ],
        )
    );
}

#[test]
fn a_table_knows_no_other_states_or_promises(rt: HostRuntime) {
    let rows = [state(true, 1, u32::MAX)];
    let edges = [edge(0, 0)];
    let mut t = Table::new();
    assert_eq!(rt; refusal(t.load(&rows, &edges, 1)), None);
    assert!(rt;
        sees(
            &t,
            &[
                (1, 0, false, None, u32::MAX),
                (u32::MAX, 0, false, None, u32::MAX),
                (0, u32::MAX, true, None, u32::MAX),
            ],
        )
    );
    assert!(rt;
        keeps(
            &t,
            &[
                (1, 0, false),
                (1, 1, false),
                (1, 2, false),
                (0, 255, false),
                (0, 256, false),
                (0, 257, false),
            ],
        )
    );
}
