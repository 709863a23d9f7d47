//! Choices by a table.
use gate_hosts::{Policy, choose};
use std::process::Abort;

fn fair(rt: &impl Abort, links: &[u32; 4], tried: &[bool; 4], expected: Option<usize>) {
    assert!(rt; choose(Policy::Fair, 2, links, tried) == expected);
}

#[test]
fn fair_takes_the_first_host_with_the_fewest_open_links(rt: HostRuntime) {
    fair(&rt, &[3, 1, 1, 2], &[false, false, false, false], Some(1));
    fair(&rt, &[3, 1, 1, 2], &[false, true, false, false], Some(2));
    fair(&rt, &[3, 1, 1, 2], &[false, true, true, false], Some(3));
    fair(&rt, &[3, 1, 1, 2], &[false, true, true, true], Some(0));
    fair(&rt, &[3, 1, 1, 2], &[true, true, true, true], None);
    fair(&rt, &[0, 0, 0, 0], &[false, false, false, false], Some(0));
    fair(
        &rt,
        &[u32::MAX, 9, 0, 9],
        &[false, false, true, false],
        Some(1),
    );
}

fn round(rt: &impl Abort, next: usize, tried: &[bool; 3], expected: Option<usize>) {
    assert!(rt; next < 3);
    assert!(rt; choose(Policy::RoundRobin, next, &[9, 0, 5], tried) == expected);
}

#[test]
fn a_round_goes_on_from_the_position_of_the_list(rt: HostRuntime) {
    round(&rt, 0, &[false, false, false], Some(0));
    round(&rt, 1, &[false, false, false], Some(1));
    round(&rt, 2, &[false, false, false], Some(2));
    round(&rt, 2, &[false, false, true], Some(0));
    round(&rt, 1, &[false, true, true], Some(0));
    round(&rt, 0, &[true, false, false], Some(1));
    round(&rt, 2, &[true, false, true], Some(1));
    round(&rt, 1, &[true, true, true], None);
}

#[test]
fn one_host_is_chosen_until_it_was_tried(rt: HostRuntime) {
    assert!(&rt; choose(Policy::Fair, 0, &[7], &[false]) == Some(0));
    assert!(&rt; choose(Policy::RoundRobin, 0, &[7], &[false]) == Some(0));
    assert!(&rt; choose(Policy::Fair, 0, &[7], &[true]).is_none());
    assert!(&rt; choose(Policy::RoundRobin, 0, &[7], &[true]).is_none());
}
