//! Frees what a lane holds, where nobody wants it any more.

use crate::lane::{QueueLane, TapLane};
use frags::Outcomes;
use taps::TapClone;

fn free_outcomes(outcomes: Outcomes) {
    let mut outcomes = outcomes;
    while let Some(sole) = outcomes.pop_sole() {
        drop(sole);
    }
    outcomes.settle();
}

fn free_clones(clones: Vec<TapClone>) {
    let mut clones = clones;
    while let Some(clone) = clones.pop() {
        let TapClone {
            skb,
            sec: _,
            frac: _,
            original: _,
            number: _,
        } = clone;
        skb.free();
    }
    clones.destroy_empty();
}

/// What a queue's lane holds.
pub fn free_queue(lane: QueueLane) {
    let QueueLane {
        queue: _,
        packets,
        engine: _engine,
    } = lane;
    packets.free();
}

/// What a tap's lane holds.
pub fn free_tap(lane: TapLane) {
    let TapLane {
        tap: _,
        clones,
        texts: _texts,
        memory: _memory,
        outcomes,
    } = lane;
    free_clones(clones);
    free_outcomes(outcomes);
}

pub(crate) fn free_queues(lanes: Vec<QueueLane>) {
    let mut lanes = lanes;
    while let Some(lane) = lanes.pop() {
        free_queue(lane);
    }
    lanes.destroy_empty();
}

pub(crate) fn free_taps(lanes: Vec<TapLane>) {
    let mut lanes = lanes;
    while let Some(lane) = lanes.pop() {
        free_tap(lane);
    }
    lanes.destroy_empty();
}
