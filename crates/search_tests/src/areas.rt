// Areas that are too short, just long enough and longer, and unfit plants.
use crate::samples::{Answer, asked, edge, state};
use plant::{Plant, Probe, Value};
use table::Table;

#[test]
fn an_unfit_plant_is_refused_first(rt: HostRuntime) {
    let table = Table::new();
    assert_eq!(rt; asked(&table, &mut [], &mut []), Answer::Refused(18, 0));
    let probe = Probe {
        step: 0,
        signal: 16,
        value: Value::On,
    };
    assert_eq!(rt;
        asked(&probe, &mut [1; 9], &mut [2; 9]),
        Answer::Refused(18, 0)
    );
}

#[test]
fn areas_are_long_enough_or_refused(rt: HostRuntime) {
    let states = [state(true, 0), state(false, 1), state(false, 2)];
    let edges = [edge(0, 1), edge(1, 2), edge(2, 1)];
    let mut table = Table::new();
    assert!(rt; table.load(&states, &edges, 2).is_ok());
    assert_eq!(rt;
        asked(&table, &mut [0; 2], &mut [0; 11]),
        Answer::Refused(19, 3)
    );
    assert_eq!(rt;
        asked(&table, &mut [0; 2], &mut [0; 12]),
        Answer::Refused(19, 3)
    );
    assert_eq!(rt;
        asked(&table, &mut [0; 3], &mut [0; 11]),
        Answer::Refused(20, 12)
    );
    assert_eq!(rt;
        asked(&table, &mut [0; 3], &mut [0; 12]),
        Answer::Walk(1, 2)
    );
    assert_eq!(rt;
        asked(&table, &mut [0; 7], &mut [0; 20]),
        Answer::Walk(1, 2)
    );
}

#[test]
fn longer_areas_stay_as_they_were_where_there_is_none(rt: HostRuntime) {
    let states = [state(true, 0), state(false, 1)];
    let edges = [edge(0, 1)];
    let mut table = Table::new();
    assert!(rt; table.load(&states, &edges, 1).is_ok());
    assert_eq!(rt; asked(&table, &mut [0; 2], &mut [0; 6]), Answer::Nothing);
    assert_eq!(rt; asked(&table, &mut [0; 9], &mut [0; 9]), Answer::Nothing);
}
