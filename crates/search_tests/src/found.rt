// Plants with and without fair walks.
use crate::samples::{Answer, edge, state, tight};
use joint::join;
use plant::{Free, Plant, Probe, Value};
use table::{EdgeRow, StateRow, Table};

// What a search of a table over these rows comes to.
fn sought<'a>(states: &'a [StateRow], edges: &'a [EdgeRow], promises: u32) -> Answer {
    let mut table = Table::new();
    if table.load(states, edges, promises).is_err() {
        return Answer::Wrong;
    }
    tight(&table, &mut [0; 16], &mut [0; 64])
}

#[test]
fn the_free_plant_goes_round_its_state(rt: HostRuntime) {
    assert_eq!(rt; tight(&Free, &mut [0; 1], &mut [0; 2]), Answer::Walk(0, 1));
}

#[test]
fn a_plant_with_no_state_has_no_walk(rt: HostRuntime) {
    assert_eq!(rt; sought(&[], &[], 0), Answer::Nothing);
    assert_eq!(rt; sought(&[], &[], 3), Answer::Nothing);
}

#[test]
fn one_state_goes_round_itself_or_nowhere(rt: HostRuntime) {
    assert_eq!(rt;
        sought(&[state(true, 0)], &[edge(0, 0)], 0),
        Answer::Walk(0, 1)
    );
    assert_eq!(rt; sought(&[state(true, 0)], &[], 0), Answer::Nothing);
    assert_eq!(rt;
        sought(&[state(false, 0)], &[edge(0, 0)], 0),
        Answer::Nothing
    );
    assert_eq!(rt;
        sought(&[state(true, 1)], &[edge(0, 0)], 1),
        Answer::Walk(0, 1)
    );
    assert_eq!(rt;
        sought(&[state(true, 1)], &[edge(0, 0)], 2),
        Answer::Nothing
    );
}

#[test]
fn a_fair_loop_that_no_start_comes_to_does_not_count(rt: HostRuntime) {
    let states = [state(true, 0), state(false, 0), state(false, 1)];
    assert_eq!(rt;
        sought(
            &states,
            &[edge(0, 1), edge(1, 0), edge(2, 2), edge(2, 0)],
            1,
        ),
        Answer::Nothing
    );
    assert_eq!(rt;
        sought(
            &states,
            &[edge(0, 1), edge(1, 0), edge(2, 2), edge(1, 2)],
            1,
        ),
        Answer::Walk(2, 1)
    );
}

#[test]
fn a_loop_that_lacks_one_promise_does_not_count(rt: HostRuntime) {
    let states = [state(true, 0), state(false, 1), state(false, 4)];
    let edges = [edge(0, 1), edge(1, 2), edge(2, 1)];
    assert_eq!(rt; sought(&states, &edges, 3), Answer::Nothing);
    let met = [state(true, 0), state(false, 1), state(false, 6)];
    assert_eq!(rt; sought(&met, &edges, 3), Answer::Walk(1, 2));
}

#[test]
fn two_loops_with_half_of_the_promises_each_do_not_count(rt: HostRuntime) {
    let states = [state(true, 1), state(false, 2)];
    assert_eq!(rt;
        sought(&states, &[edge(0, 0), edge(0, 1), edge(1, 1)], 2),
        Answer::Nothing
    );
    assert_eq!(rt;
        sought(
            &states,
            &[edge(0, 0), edge(0, 1), edge(1, 1), edge(1, 0)],
            2,
        ),
        Answer::Walk(0, 2)
    );
}

#[test]
fn a_start_may_stand_in_the_loop(rt: HostRuntime) {
    let states = [state(false, 0), state(true, 0), state(false, 1)];
    assert_eq!(rt;
        sought(&states, &[edge(0, 1), edge(1, 2), edge(2, 0)], 1),
        Answer::Walk(0, 3)
    );
}

#[test]
fn a_long_stem_leads_to_a_probes_loop(rt: HostRuntime) {
    let probe = Probe {
        step: 9,
        signal: 0,
        value: Value::On,
    };
    assert_eq!(rt;
        tight(&probe, &mut [0; 11], &mut [0; 22]),
        Answer::Walk(10, 1)
    );
}

#[test]
fn a_loop_far_from_the_start_is_found(rt: HostRuntime) {
    let probe = Probe {
        step: 998,
        signal: 0,
        value: Value::Off,
    };
    assert_eq!(rt;
        tight(&probe, &mut [0; 1000], &mut [0; 2000]),
        Answer::Walk(999, 1)
    );
}

// The joint of four of a plant, searched.
fn four<A: Plant>(a: &A) -> Answer {
    let half = join(a, a);
    let full = join(&half, &half);
    tight(&full, &mut [0; 16], &mut [0; 1056])
}

#[test]
fn a_loop_keeps_as_many_promises_as_a_plant_can_have(rt: HostRuntime) {
    let states = [state(true, 0x5555), state(false, 0xaaaa)];
    let edges = [edge(0, 1), edge(1, 0)];
    let mut table = Table::new();
    assert!(rt; table.load(&states, &edges, 16).is_ok());
    assert_eq!(rt; four(&table), Answer::Walk(0, 2));
}
