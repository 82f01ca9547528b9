//! Each public call on its happy path, with numbers and with values that must be spent.
use spend_ring::SpendRing;
use std::test::*;

/// Neither `Drop` nor `Copy`: it has to be spent.
struct Ticket {
    number: u32,
}

impl Ticket {
    fn spend(self) -> u32 {
        let Ticket { number } = self;
        number
    }
}

fn spend_if_any(ticket: Option<Ticket>) -> Option<u32> {
    match ticket {
        Some(ticket) => Some(ticket.spend()),
        None => None,
    }
}

#[test]
fn keeps_the_newest_in_order(rt: HostRuntime) -> Result<(), Fail> {
    let mut ring = SpendRing::with_capacity(rt.alloc(), 3)?;
    assert_eq!(rt; ring.push_back(1), None);
    assert_eq!(rt; ring.push_back(2), None);
    assert_eq!(rt; ring.push_back(3), None);
    assert_eq!(rt; ring.push_back(4), Some(1));
    assert_eq!(rt; ring.push_back(5), Some(2));
    assert_eq!(rt; ring.len(), 3);
    assert_eq!(rt; ring.get(0), Some(&3));
    assert_eq!(rt; ring.get(2), Some(&5));
    assert_eq!(rt; ring.get(3), None);
    assert_eq!(rt; ring.pop_back(), Some(5));
    assert_eq!(rt; ring.pop_front(), Some(3));
    assert_eq!(rt; ring.push_back(6), None);
    assert_eq!(rt; ring.pop_front(), Some(4));
    assert_eq!(rt; ring.pop_back(), Some(6));
    assert_eq!(rt; ring.pop_back(), None);
    assert_eq!(rt; ring.pop_front(), None);
    assert_eq!(rt; ring.capacity(), 3);
    ring.close();
    Ok(())
}

#[test]
fn holds_values_that_must_be_spent(rt: HostRuntime) -> Result<(), Fail> {
    let mut ring = SpendRing::with_capacity(rt.alloc(), 2)?;
    assert_eq!(rt; spend_if_any(ring.push_back(Ticket { number: 1 })), None);
    assert_eq!(rt; spend_if_any(ring.push_back(Ticket { number: 2 })), None);
    assert_eq!(rt; spend_if_any(ring.push_back(Ticket { number: 3 })), Some(1));
    if let Some(ticket) = ring.get_mut(1) {
        ticket.number = 30;
    }
    assert_eq!(rt; spend_if_any(ring.pop_front()), Some(2));
    assert_eq!(rt; spend_if_any(ring.pop_front()), Some(30));
    assert_eq!(rt; spend_if_any(ring.pop_front()), None);
    ring.close();
    Ok(())
}

#[test]
fn hands_back_what_has_no_room(rt: HostRuntime) -> Result<(), Fail> {
    let mut ring = SpendRing::with_capacity(rt.alloc(), 0)?;
    assert_eq!(rt; spend_if_any(ring.push_back(Ticket { number: 1 })), Some(1));
    assert_eq!(rt; ring.len(), 0);
    ring.close();
    Ok(())
}

#[test]
fn holds_values_of_no_size(rt: HostRuntime) -> Result<(), Fail> {
    let mut ring = SpendRing::with_capacity(rt.alloc(), 1)?;
    assert_eq!(rt; ring.push_back(()), None);
    assert_eq!(rt; ring.push_back(()), Some(()));
    assert_eq!(rt; ring.pop_front(), Some(()));
    ring.close();
    Ok(())
}
