//! The example of each first page, as it stands there, and what it comes to.
use crate::pieces::blocks::counted;
use block_pool::Pool;
use block_supply::open_lists;
use crossing::{IN_RING, has_come, send};
use errands::Errands;
use frags::{Outcomes, Pieces};
use on_heap::OnHeap;
use raw_block::{Released, Sole};
use ref_core::{Answer, Event, WeightMachine};
use rtrb::RingBuffer;
use skb::Skb;
use std::test::Fail;

#[test]
fn example_of_ref_core(rt: HostRuntime) -> Result<(), Fail> {
    let alloc = rt.alloc();
    let mut machine = WeightMachine::make(alloc, 1)?;
    machine.step(Event::Take {
        block: 0,
        holder: 1,
    })?; // Done
    machine.step(Event::Share {
        holder: 1,
        fresh: 2,
        give: 5,
    })?; // Done
    let answer = machine.step(Event::GiveBack { holder: 2 })?; // Left
    assert_eq!(rt; answer, Answer::Left);
    Ok(())
}

#[test]
fn example_of_raw_block(rt: HostRuntime) -> Result<(), Fail> {
    let alloc = rt.alloc();
    let mut alone = None;
    let mut sole = Sole::new(alloc)?;
    sole.bytes_mut()[0] = 1;
    let mut part = sole.share();
    let other = part.split(1 << 50); // another thread may read it
    let byte = other.bytes()[0]; // 1
    match other.release() {
        Released::Left(receipt) => alone = Some(part.reunite(receipt)),
        Released::Last(_) => match part.release() {
            Released::Left(receipt) => receipt.close(),
            Released::Last(sole) => alone = Some(sole),
        },
    }
    assert_eq!(rt; byte, 1);
    assert_eq!(rt; alone.map(|sole| sole.bytes()[0]), Some(1));
    Ok(())
}

#[test]
fn example_of_block_pool(rt: HostRuntime) -> Result<(), Fail> {
    let alloc = rt.alloc();
    let mut pool = Pool::make(alloc, 64)?;
    if let Ok(block) = pool.take() {
        pool.put(block);
    }
    assert_eq!(rt; (pool.home(), pool.taken()), (64, 1));
    Ok(())
}

#[test]
fn example_of_block_supply(rt: HostRuntime) -> Result<(), Fail> {
    let alloc = rt.alloc();
    let mut pool = Pool::make(alloc, 64)?;
    let (mut taker, giver) = open_lists(alloc)?;
    let came = taker.bring(&rt, &mut pool);
    assert_eq!(rt; (came, giver.lying(), pool.home()), (false, 0, 64));
    Ok(())
}

#[test]
fn example_of_crossing(rt: HostRuntime) -> Result<(), Fail> {
    let alloc = rt.alloc();
    let (mut out, mut from) = RingBuffer::new(alloc, IN_RING)?;
    send(&rt, &mut out, 7);
    let came = has_come(&mut from);
    let next = from.pop();
    assert_eq!(rt; (came, next.ok()), (true, Some(7)));
    Ok(())
}

#[test]
fn example_of_frags(rt: HostRuntime) -> Result<(), Fail> {
    let alloc = rt.alloc();
    let sole = Sole::new(alloc)?;
    let mut outcomes = Outcomes::with_room(alloc, 8)?;
    let mut len = 0;
    let mut pieces = Pieces::new(alloc);
    if let Err((part, _)) = pieces.append(sole.share(), 64, 1500) {
        outcomes.give_back(part);
    }
    if let Ok(mut clone) = pieces.share() {
        if clone.cut_front(14, &mut outcomes).is_ok() {
            len = clone.len(); // 1422
        }
        clone.release(&mut outcomes);
    }
    pieces.release(&mut outcomes);
    assert_eq!(rt; counted(outcomes), (1, 1));
    assert_eq!(rt; len, 1422);
    Ok(())
}

#[test]
fn example_of_skb(rt: HostRuntime) -> Result<(), Fail> {
    let alloc = rt.alloc();
    let block = Sole::new(alloc)?;
    let mut outcomes = Outcomes::with_room(alloc, 8)?;
    let header = [2, 0, 0, 0, 0, 2, 2, 0, 0, 0, 0, 1, 8, 0].as_slice();
    let payload = [0x2a; 1900].as_slice();
    let mut lengths = (0, 0);
    let mut skb = Skb::new(block, 64, 64, Pieces::new(alloc));
    let put = skb.put_tail(payload);
    let pushed = skb.push(header);
    if let Ok(mut clone) = skb.clone() {
        if clone.pull(14, &mut outcomes).is_ok()
            && let Ok(second) = clone.split_at(1460)
        {
            lengths = (clone.len(), second.len()); // 1460 and 440
            second.release(&mut outcomes);
        }
        clone.release(&mut outcomes);
    }
    skb.release(&mut outcomes);
    assert!(rt; put.is_ok() && pushed.is_ok());
    assert_eq!(rt; counted(outcomes), (1, 2));
    assert_eq!(rt; lengths, (1460, 440));
    Ok(())
}

#[test]
fn example_of_errands(rt: HostRuntime) -> Result<(), Fail> {
    let alloc = rt.alloc();
    let mut done = None;
    let (desk, mut asker) = Errands::open(alloc, 8)?;
    let mut runner = desk.enlist(&mut asker); // another thread may have it
    desk.ask(&rt, &mut asker, 7u64);
    if let Some((task, note)) = desk.take(&rt, &mut runner) {
        done = Some((desk.redeem(&mut asker, note), task)); // (0, 7): the first task was 7
    }
    assert_eq!(rt; done, Some((0, 7)));
    Ok(())
}

#[test]
fn example_of_on_heap(rt: HostRuntime) -> Result<(), Fail> {
    let alloc = rt.alloc();
    let held = OnHeap::of(Box::new(alloc, 7)?);
    let seven = Box::into_inner(held.into_box(alloc)); // 7
    assert_eq!(rt; seven, 7);
    Ok(())
}
