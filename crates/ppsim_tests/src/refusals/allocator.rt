//! The allocator of the tests: it refuses the request that it is armed for, and that one alone.

use std::alloc::{Allocator, Global};
use std::process::Abort;
use std::thread::{self, Threads};
use test_bench::Rationed;

/// Whether a list grows to the first hundred squares.
fn has_squares<A: Allocator>(rt: &impl Abort, alloc: A) -> bool {
    let mut squares = Vec::new(alloc);
    for number in 0..100u64 {
        squares.push(number * number).expect(rt, "memory");
    }
    squares.len() == 100 && squares.last() == Some(&9801)
}

/// Whether a request is refused.
fn is_refused<A: Allocator>(alloc: A) -> bool {
    Box::new(alloc, 5u8).is_err()
}

/// Whether a request is refused, the number of requests up to it, and whether one was refused.
fn request(heap: &Rationed<Global>) -> (bool, u64, bool) {
    (is_refused(heap), heap.asked(), heap.has_refused())
}

#[test]
fn refuses_that_request_alone(rt: HostRuntime) {
    let heap = Rationed::new(rt.alloc());
    for number in 0..6u64 {
        heap.refuse(number);
        for turn in 1..5u64 {
            let expected = (turn == number, turn, number != 0 && number <= turn);
            assert!(rt; request(&heap) == expected);
        }
    }
}

/// Whether a growth of this list is refused, and the list stays as it was then.
fn is_kept<A: Allocator>(heap: &Rationed<Global>, list: &mut Vec<u8, A>) -> bool {
    heap.refuse(1);
    let refused = (list.reserve(100).is_err(), heap.has_refused());
    (refused, list.as_slice()) == ((true, true), [7, 8].as_slice())
}

/// Whether a list stays as it was when a growth is refused, and grows after that.
fn grows_after_refusal<A: Allocator>(rt: &impl Abort, heap: &Rationed<Global>, alloc: A) -> bool {
    let mut list = Vec::from_array(alloc, [7u8, 8]).expect(rt, "a list");
    assert!(rt; is_kept(heap, &mut list));
    list.reserve(100).expect(rt, "room");
    list.push(9).expect(rt, "room");
    list.as_slice() == [7, 8, 9].as_slice()
}

#[test]
fn a_refused_growth_leaves_the_list(rt: HostRuntime) {
    let heap = Rationed::new(rt.alloc());
    assert!(rt; grows_after_refusal(&rt, &heap, &heap) && heap.asked() == 2);
}

/// Whether three requests are counted, and nothing that is given back, up to a new count.
fn counts(heap: &Rationed<Global>) -> bool {
    let begin = heap.asked();
    let are_refused = [is_refused(heap), is_refused(heap), is_refused(heap)];
    let end = heap.asked();
    heap.refuse(0);
    are_refused == [false; 3] && (begin, end, heap.asked()) == (0, 3, 0)
}

/// Whether a request is made of the inner allocator too, but for one that is refused.
fn asks_inner(inner: &Rationed<Global>) -> bool {
    let outer = Rationed::new(inner);
    let passed_on = (is_refused(&outer), inner.asked());
    outer.refuse(1);
    let refused_here = (is_refused(&outer), inner.asked());
    inner.refuse(1);
    let refused_there = (is_refused(&outer), inner.has_refused(), outer.asked());
    (passed_on, refused_here, refused_there) == ((false, 1), (true, 1), (true, true, 2))
}

/// It refuses nothing until it is armed, counts requests, and passes them on.
#[test]
fn counts_and_asks_the_inner_allocator(rt: HostRuntime) {
    let heap = Rationed::new(rt.alloc());
    assert!(rt; has_squares(&rt, &heap) && heap.asked() > 0 && !heap.has_refused());
    heap.refuse(0);
    assert!(rt; counts(&heap) && asks_inner(&heap));
}

/// Whether requests of two threads are answered. The blocks are given back in this thread,
/// whichever one took them.
fn by_two_threads(rt: &impl Threads, heap: &Rationed<Global>) -> (bool, bool) {
    let (one, other) = thread::join(rt, || Box::new(heap, 5u8), || Box::new(heap, 6u8));
    (one.is_ok(), other.is_ok())
}

#[test]
fn refuses_one_of_two_threads(rt: HostRuntime) {
    let heap = Rationed::new(rt.alloc());
    for number in 1..4u64 {
        heap.refuse(number);
        let (one, other) = by_two_threads(&rt, &heap);
        assert!(rt; (one && other) == (number == 3) && (one || other) && heap.asked() == 2);
    }
}
