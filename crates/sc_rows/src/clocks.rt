//! Clocks.
#![tactic(auto)]

use sc_clock::{Clock, HostClock, ListClock, StepClock};

/// Numbers of a list, and what its clock gives at five calls.
const LISTED: [(&[u64], [u64; 5]); 4] = [
    (&[0, 100, 450, 451], [0, 100, 450, 451, 451]),
    (&[9, 3], [9, 3, 3, 3, 3]),
    (&[7], [7, 7, 7, 7, 7]),
    (&[], [0, 0, 0, 0, 0]),
];

#[test]
fn a_clock_of_a_list_or_of_steps_ends_with_its_last_number(rt: HostRuntime) {
    for (times, want) in &LISTED {
        let times = Vec::from_slice(rt.alloc(), *times).expect(&rt, "memory");
        let mut clock = ListClock::new(times);
        for time in want {
            assert_eq!(&rt; clock.now(), *time);
        }
    }
    let mut clock = StepClock {
        time: 100,
        step: 50,
    };
    assert_eq!(&rt; clock.now(), 150);
    assert_eq!(&rt; clock.now(), 200);
    clock.step = u64::MAX;
    assert_eq!(&rt; clock.now(), u64::MAX);
    assert_eq!(&rt; clock.now(), u64::MAX);
}

#[test]
fn the_clock_of_the_system_does_not_go_back(rt: HostRuntime) {
    let mut clock = HostClock::new(rt.clone().expect(&rt, "clone"));
    let first = clock.now();
    assert!(&rt; first <= clock.now());
}
