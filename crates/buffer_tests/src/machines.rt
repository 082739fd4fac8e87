//! Rows of events with their answers, and a long run of both machines.
use crate::seeing::assert_same;
use ref_core::{Answer, Event, SetMachine, WeightMachine};
use std::alloc::{AllocError, Global};
use std::process::Abort;

const BLOCKS: u32 = 4;

const HOLDERS: u32 = 16;

fn weights_of(alloc: Global, events: &[Event]) -> Result<Vec<Answer>, AllocError> {
    let mut answers = Vec::new(alloc);
    let mut machine = WeightMachine::make(alloc, BLOCKS)?;
    machine.run_events(events, &mut answers)?;
    Ok(answers)
}

fn sets_of(alloc: Global, events: &[Event]) -> Result<Vec<Answer>, AllocError> {
    let mut answers = Vec::new(alloc);
    let mut machine = SetMachine::make(alloc, BLOCKS)?;
    machine.run_events(events, &mut answers)?;
    Ok(answers)
}

// Both machines answer so.
fn are_answered(rt: &impl Abort, alloc: Global, events: &[Event], wanted: &[Answer]) {
    let sets = sets_of(alloc, events).expect(rt, "no memory");
    let weights = weights_of(alloc, events).expect(rt, "no memory");
    assert_same(
        rt,
        &(sets.as_slice(), weights.as_slice()),
        &(wanted, wanted),
    );
}

const TAKE: Event = Event::Take {
    block: 0,
    holder: 1,
};

const SHARE: Event = Event::Share {
    holder: 1,
    fresh: 2,
    give: 5,
};

const WRITE: Event = Event::Write {
    holder: 1,
    place: 2047,
    byte: 7,
};

#[test]
fn a_shared_block_is_not_written(rt: HostRuntime) {
    let events = [
        TAKE,
        SHARE,
        WRITE,
        Event::GiveBack { holder: 2 },
        Event::Claim { holder: 1 },
        WRITE,
        Event::GiveBack { holder: 1 },
        Event::GiveBack { holder: 1 },
    ];
    let wanted = [
        Answer::Done,
        Answer::Done,
        Answer::Unlawful,
        Answer::Left,
        Answer::Yes,
        Answer::Done,
        Answer::Last,
        Answer::Unlawful,
    ];
    are_answered(&rt, rt.alloc(), &events, &wanted);
}

#[test]
fn joined_holders_are_one(rt: HostRuntime) {
    let events = [
        TAKE,
        SHARE,
        Event::Join {
            holder: 1,
            other: 2,
        },
        Event::Claim { holder: 1 },
        Event::GiveBack { holder: 2 },
    ];
    let wanted = [
        Answer::Done,
        Answer::Done,
        Answer::Done,
        Answer::Yes,
        Answer::Unlawful,
    ];
    are_answered(&rt, rt.alloc(), &events, &wanted);
}

#[test]
fn nothing_cannot_be_given(rt: HostRuntime) {
    let events = [
        TAKE,
        Event::Share {
            holder: 1,
            fresh: 2,
            give: 0,
        },
    ];
    let answers = weights_of(rt.alloc(), &events).expect(&rt, "no memory");
    assert_same(
        &rt,
        &answers.as_slice(),
        &[Answer::Done, Answer::BadGive].as_slice(),
    );
}

// The next number of a linear congruential generator, and 16 bits of it.
fn next(seed: u64) -> (u64, u32) {
    let seed = seed
        .wrapping_mul(6364136223846793005)
        .wrapping_add(1442695040888963407);
    (seed, ((seed >> 33) & 0xffff) as u32)
}

fn event_of(kind: u32, holder: u32, other: u32, place: u32) -> Event {
    match kind % 9 {
        0 => Event::Take {
            block: other % 5,
            holder,
        },
        1 | 2 => Event::Share {
            holder,
            fresh: other,
            give: u64::from(place) + 1,
        },
        3 => Event::Read { holder, place },
        4 | 5 => Event::Write {
            holder,
            place,
            byte: (place & 255) as u8,
        },
        6 => Event::GiveBack { holder },
        7 => Event::Claim { holder },
        _ => Event::Join { holder, other },
    }
}

// Ten thousand events on both machines, but for those at which the weight machine answers `BadGive`: how many there
// were, how many of them were lawful, and how many got two answers.
fn compared(rt: &HostRuntime) -> Result<(u32, u32, u32), AllocError> {
    let mut sets = SetMachine::make(rt.alloc(), BLOCKS)?;
    let mut weights = WeightMachine::make(rt.alloc(), BLOCKS)?;
    let mut seed = 1;
    let mut counts = (0u32, 0u32, 0u32);
    for _ in 0..10_000u32 {
        let (first, kind) = next(seed);
        let (second, holder) = next(first);
        let (third, other) = next(second);
        let (last, place) = next(third);
        seed = last;
        let event = event_of(kind, holder % HOLDERS, other % HOLDERS, place % 2049);
        let answer = weights.step(event)?;
        if answer != Answer::BadGive {
            counts.0 = counts.0.wrapping_add(1);
            if answer != Answer::Unlawful {
                counts.1 = counts.1.wrapping_add(1);
            }
            if sets.step(event)? != answer {
                counts.2 = counts.2.wrapping_add(1);
            }
        }
    }
    Ok(counts)
}

#[test]
fn machines_answer_alike(rt: HostRuntime) {
    // The first two counts are those of a model in another language.
    assert_same(
        &rt,
        &compared(&rt).expect(&rt, "no memory"),
        &(9_854, 1_749, 0),
    );
}
