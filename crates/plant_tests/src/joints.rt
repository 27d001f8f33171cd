// Joints of two plants, and of joints.
use crate::samples::{edge, keeps, probe, refusal, sees, sizes, state};
use joint::join;
use plant::{Free, Plant, Value};
use table::Table;

#[test]
fn a_joint_of_at_most_so_many_states_is_fit(rt: HostRuntime) {
    let wide = probe(4094, 0, Value::On);
    let fits = probe(254, 1, Value::Off);
    let over = probe(255, 1, Value::Off);
    assert_eq!(rt; sizes(&join(&wide, &fits)), (true, 1_048_576, 0));
    assert_eq!(rt; sizes(&join(&wide, &over)), (false, 0, 0));
    assert!(rt; sees(&join(&wide, &over), &[(0, 0, false, None, u32::MAX)]));
}

// The sizes of the joint of four of a, and of that joined with b.
fn sizes_of_four<A: Plant, B: Plant>(a: &A, b: &B) -> ((bool, u32, u32), (bool, u32, u32)) {
    let half = join(a, a);
    let full = join(&half, &half);
    let over = join(&full, b);
    (sizes(&full), sizes(&over))
}

fn four_keep<A: Plant>(a: &A, promises: &[(u32, u32, bool)]) -> bool {
    let half = join(a, a);
    let full = join(&half, &half);
    keeps(&full, promises)
}

#[test]
fn a_joint_of_at_most_so_many_promises_is_fit(rt: HostRuntime) {
    let rows = [state(true, 0x8001, u32::MAX)];
    let mut sixteen = Table::new();
    assert_eq!(rt; refusal(sixteen.load(&rows, &[], 16)), None);
    let single = [state(true, 1, u32::MAX)];
    let mut one = Table::new();
    assert_eq!(rt; refusal(one.load(&single, &[], 1)), None);
    assert_eq!(rt;
        sizes_of_four(&sixteen, &Free),
        ((true, 1, 64), (true, 1, 64))
    );
    assert_eq!(rt;
        sizes_of_four(&sixteen, &one),
        ((true, 1, 64), (false, 0, 0))
    );
    assert!(rt;
        four_keep(
            &sixteen,
            &[
                (0, 15, true),
                (0, 16, true),
                (0, 17, false),
                (0, 62, false),
                (0, 63, true),
                (0, 64, false),
            ],
        )
    );
}

#[test]
fn a_joint_with_an_unfit_part_is_unfit(rt: HostRuntime) {
    let bad = probe(0, 16, Value::On);
    assert_eq!(rt; sizes(&join(&bad, &Free)), (false, 0, 0));
    let right = join(&Free, &bad);
    assert_eq!(rt; sizes(&right), (false, 0, 0));
    assert!(rt; sees(&right, &[(0, 0, false, None, u32::MAX)]));
    assert_eq!(rt; sizes(&join(&Free, &right)), (false, 0, 0));
}

#[test]
fn a_start_is_two_starts_that_agree(rt: HostRuntime) {
    let on = probe(0, 3, Value::On);
    let off = probe(0, 3, Value::Off);
    let apart = join(&on, &off);
    assert!(rt;
        sees(
            &apart,
            &[
                (0, 0, false, Some(3), u32::MAX),
                (1, 0, false, Some(3), 0xffff_ff7f),
                (2, 0, false, Some(3), 0xffff_ffbf),
                (3, 0, false, Some(3), u32::MAX),
            ],
        )
    );
    let both = join(&on, &on);
    assert!(rt;
        sees(
            &both,
            &[
                (0, 0, true, Some(3), 0xffff_ff7f),
                (1, 0, false, Some(3), 0xffff_ff7f),
            ],
        )
    );
}

#[test]
fn a_step_leads_into_a_pair_that_agrees(rt: HostRuntime) {
    let on = probe(1, 3, Value::On);
    let off = probe(1, 3, Value::Off);
    let apart = join(&on, &off);
    assert!(rt;
        sees(
            &apart,
            &[
                (0, 0, true, None, u32::MAX),
                (4, 0, false, Some(8), u32::MAX),
                (1, 0, false, Some(5), 0xffff_ffbf),
            ],
        )
    );
    let both = join(&on, &on);
    assert!(rt;
        sees(
            &both,
            &[
                (0, 4, true, Some(4), u32::MAX),
                (0, 5, true, None, u32::MAX),
            ],
        )
    );
}

#[test]
fn a_joint_says_what_one_part_says(rt: HostRuntime) {
    let on = probe(0, 0, Value::On);
    let off = probe(1, 1, Value::Off);
    let j = join(&on, &off);
    assert_eq!(rt; sizes(&j), (true, 6, 0));
    assert!(rt;
        sees(
            &j,
            &[
                (0, 0, true, Some(4), 0xffff_fffd),
                (1, 0, false, Some(5), 0xffff_fff9),
                (4, 0, false, Some(5), 0xffff_fffb),
                (6, 0, false, None, u32::MAX),
                (u32::MAX, 0, false, None, u32::MAX),
            ],
        )
    );
    assert!(rt; keeps(&j, &[(0, 0, false), (0, 1, false), (0, 2, false)]));
}

#[test]
fn the_first_parts_promises_come_first(rt: HostRuntime) {
    let rows = [state(true, 0b10, u32::MAX), state(false, 0b01, u32::MAX)];
    let edges = [edge(0, 1), edge(1, 0)];
    let mut a = Table::new();
    assert_eq!(rt; refusal(a.load(&rows, &edges, 2)), None);
    let single = [state(true, 1, u32::MAX)];
    let mut b = Table::new();
    assert_eq!(rt; refusal(b.load(&single, &[], 1)), None);
    let j = join(&a, &b);
    assert_eq!(rt; sizes(&j), (true, 2, 3));
    assert!(rt;
        keeps(
            &j,
            &[
                (0, 0, false),
                (0, 1, true),
                (0, 2, true),
                (1, 0, true),
                (1, 1, false),
                (1, 2, true),
                (0, 3, false),
                (0, 4, false),
                (0, 5, false),
                (2, 0, false),
                (2, 1, false),
                (2, 2, false),
            ],
        )
    );
}

#[test]
fn a_joint_walks_the_steps_of_both_parts(rt: HostRuntime) {
    let rows = [
        state(true, 0, u32::MAX),
        state(false, 0, u32::MAX),
        state(false, 0, u32::MAX),
    ];
    let edges = [edge(0, 2), edge(0, 1), edge(0, 0)];
    let mut a = Table::new();
    assert_eq!(rt; refusal(a.load(&rows, &edges, 0)), None);
    let j = join(&a, &a);
    assert!(rt;
        sees(
            &j,
            &[
                (0, 0, true, Some(0), u32::MAX),
                (0, 3, true, Some(3), u32::MAX),
                (0, 8, true, Some(8), u32::MAX),
                (0, 9, true, None, u32::MAX),
                (1, 0, false, None, u32::MAX),
            ],
        )
    );
}

#[test]
fn a_joint_with_no_states(rt: HostRuntime) {
    let mut none = Table::new();
    assert_eq!(rt; refusal(none.load(&[], &[], 0)), None);
    let j = join(&Free, &none);
    assert_eq!(rt; sizes(&j), (true, 0, 0));
    assert!(rt; sees(&j, &[(0, 0, false, None, u32::MAX)]));
    assert!(rt; keeps(&j, &[(0, 0, false), (0, 1, false), (0, 2, false)]));
}
