//! A machine whose growths are refused.

ghost use Rattle.std.specs.Prelude.{◌≡◌};
ghost use Rattle.pp_machine.specs.DeadStart.{IsBeforeFirstTurn};

use crate::loaded::loaded;
use crate::refusals::barrel::run_barrel_cut;
use crate::refusals::refusal::unless_refused;
use pp_channel::{CHANNELS, ChannelNo, Memory};
use pp_machine::{Central, CentralFault, Machine, Outcome, PROCESSORS, Pp, PpNo, Profile};
use std::alloc::{Allocator, Global};
use std::process::Abort;
use test_bench::{Rationed, first, put_program, waiting, word};

/// PP 1 activates channel 5 and disconnects it, again and again; PP 0 is held.
pub(crate) const FLAPPING: &str = "\
PP 0
0100 7005 0300
START 0100
PP 1
0200 7405 7505 0375
START 0200
";

/// A machine over an allocator that refuses a request.
pub(crate) type RationedMachine<'a> = Machine<&'a Rationed<Global>>;

/// Whether two processors show the same.
pub(crate) fn is_same(one: &Pp, other: &Pp) -> bool {
    for place in 0..4096u16 {
        let place = word(place);
        if one.get(place) != other.get(place) {
            return false;
        }
    }
    let shown = (one.p(), one.a(), one.state(), one.block());
    shown == (other.p(), other.a(), other.state(), other.block())
}

/// Whether two machines show the same channels.
fn have_same_channels<A: Allocator>(machine: &Machine<A>, twin: &Machine<Global>) -> bool {
    for place in 0..CHANNELS {
        let c = ChannelNo::at(place);
        let is_same = machine.channel(c).history() == twin.channel(c).history();
        if !is_same || machine.opened(c) != twin.opened(c) {
            return false;
        }
    }
    true
}

/// Whether two machines show the same processors, channels, turns and events.
pub(crate) fn are_same<A: Allocator>(machine: &Machine<A>, twin: &Machine<Global>) -> bool {
    for place in 0..PROCESSORS {
        let n = PpNo::at(place);
        if !is_same(machine.pp(n), twin.pp(n)) {
            return false;
        }
    }
    have_same_channels(machine, twin)
        && machine.turns() == twin.turns()
        && machine.events() == twin.events()
}

/// The fault of a central memory and of a machine when this request is refused, and for each
/// whether it was made.
fn making(
    heap: &Rationed<Global>,
    profile: Profile,
    number: u64,
) -> [(Option<CentralFault>, bool); 2] {
    heap.refuse(number);
    let central = (Central::new(heap, 0o41).err(), heap.has_refused());
    heap.refuse(number);
    let machine = (Machine::new(heap, profile, 0o41).err(), heap.has_refused());
    [central, machine]
}

/// Central memory makes one request, and a machine two more.
#[test]
fn making_refused(rt: HostRuntime) {
    let heap = Rationed::new(rt.alloc());
    let (refused, made) = ((Some(CentralFault::Memory), true), (None, false));
    for profile in [Profile::Ten, Profile::Twenty] {
        for number in 1..10u64 {
            let central = if number == 1 { refused } else { made };
            let machine = if number <= 3 { refused } else { made };
            assert!(rt; making(&heap, profile, number) == [central, machine]);
        }
    }
}

/// The fault of a central memory of this size, and of a machine of each profile.
fn faults(heap: &Rationed<Global>, size: u32) -> [Option<CentralFault>; 3] {
    [
        Central::new(heap, size).err(),
        Machine::new(heap, Profile::Ten, size).err(),
        Machine::new(heap, Profile::Twenty, size).err(),
    ]
}

#[test]
fn a_bad_size_comes_before_memory(rt: HostRuntime) {
    let heap = Rationed::new(rt.alloc());
    heap.refuse(1);
    for size in [0, 0o400_001] {
        assert!(rt; faults(&heap, size) == [Some(CentralFault::BadSize); 3]);
    }
    assert!(rt; heap.asked() == 0);
}

/// A step on both machines. If its request is refused it leaves the first as it is, and is made
/// once memory is there. Nothing if it is not so.
fn step_both(
    heap: &Rationed<Global>,
    machine: &mut RationedMachine,
    twin: &mut Machine<Global>,
    n: PpNo,
) -> Option<Outcome> {
    let had_refused = heap.has_refused();
    let mut answer = machine.step(n);
    if heap.has_refused() != had_refused {
        if answer != Err(Memory) || !are_same(machine, twin) {
            return None;
        }
        answer = machine.step(n);
    }
    if answer == twin.step(n) && are_same(machine, twin) {
        answer.ok()
    } else {
        None
    }
}

/// Nothing if the steps of `HANDOFF` are made although a request is refused, with their outcomes;
/// else whether they are made.
fn take_steps(
    heap: &Rationed<Global>,
    machine: &mut RationedMachine,
    twin: &mut Machine<Global>,
) -> Option<bool> {
    let (zero, one) = (first(), first().next());
    for (n, outcome) in [
        (one, Outcome::Held),
        (zero, Outcome::Moved),
        (zero, Outcome::Moved),
        (zero, Outcome::Moved),
        (one, Outcome::Moved),
        (zero, Outcome::Moved),
        (zero, Outcome::AtRest),
    ] {
        if step_both(heap, machine, twin, n) != Some(outcome) {
            return Some(false);
        }
    }
    unless_refused(true, heap.has_refused())
}

/// Whether both machines are the same after these turns, which the first has taken, and after those
/// that are left, which both take.
fn go_on_alike(
    machine: &mut RationedMachine,
    twin: &mut Machine<Global>,
    made: &[PpNo],
    left: &[PpNo],
) -> bool {
    twin.run_turns(made).is_ok()
        && are_same(machine, twin)
        && machine.run_turns(left).is_ok()
        && twin.run_turns(left).is_ok()
        && are_same(machine, twin)
}

/// Nothing if a request is refused and cuts the run, which is as after the steps that it did, and
/// goes on from there; else whether the whole run is made.
fn run_cut(
    heap: &Rationed<Global>,
    machine: &mut RationedMachine,
    twin: &mut Machine<Global>,
    turns: &[PpNo],
) -> Option<bool> {
    let cut = machine.run_turns(turns).err();
    let refused = heap.has_refused();
    let done = match &cut {
        Some(cut) => cut.done as usize,
        None => turns.len(),
    };
    let Some((made, left)) = turns.split_at_checked(done) else {
        return Some(false);
    };
    let is_cut = cut.is_some() == refused && left.is_empty() != refused;
    unless_refused(is_cut && go_on_alike(machine, twin, made, left), refused)
}

/// How many events each channel has after 600 turns of `FLAPPING`.
const EVENTS: [usize; CHANNELS] = [
    0, 0, 0, 0, 0, 40, 0, 0, 0, 0, 0, 0, 0, 0, 0, 0, 0, 0, 0, 0, 0, 0, 0, 0,
];

/// Whether a machine has had so many events, as it counts them and as its histories have them.
fn has_events(machine: &Machine<Global>) -> bool {
    for (place, count) in EVENTS.iter().enumerate() {
        if place >= CHANNELS || machine.channel(ChannelNo::at(place)).history().len() != *count {
            return false;
        }
    }
    machine.event_counts() == EVENTS && machine.events().len() == 40
}

/// Whether a run of 600 turns of `FLAPPING` asks for no memory, and does what the other's does.
fn runs_in_room(
    heap: &Rationed<Global>,
    machine: &mut RationedMachine,
    twin: &mut Machine<Global>,
) -> bool {
    heap.refuse(1);
    let is_run = machine.run_barrel(600).is_ok();
    let is_asked = heap.asked() > 0;
    heap.refuse(0);
    is_run
        && !is_asked
        && twin.run_barrel(600).is_ok()
        && are_same(machine, twin)
        && has_events(twin)
}

/// Makes room for these events, of which a request may be refused: then the machine is as it was.
/// Once there is room, the run asks for nothing. Nothing if it is so and the request was made; else
/// whether it is so.
fn make_room(
    heap: &Rationed<Global>,
    machine: &mut RationedMachine,
    twin: &mut Machine<Global>,
) -> Option<bool> {
    let is_made = machine.reserve(&EVENTS).is_ok();
    let is_refused = heap.has_refused();
    heap.refuse(0);
    let is_kept = is_made != is_refused && are_same(machine, twin);
    let has_room = is_made || machine.reserve(&EVENTS).is_ok();
    unless_refused(
        is_kept && has_room && runs_in_room(heap, machine, twin),
        is_refused,
    )
}

/// What a machine does while a request may be refused.
#[derive(Clone, Copy)]
pub(crate) enum Task {
    /// The steps of `HANDOFF`.
    Steps,
    /// The same in a list of turns.
    Turns,
    /// Turns of `FLAPPING`'s processor that is not held.
    Flaps,
    /// Turns of the barrel.
    Barrel(u32),
    /// Room for the events of `FLAPPING`.
    Room,
}

/// What is said of the task by the function for it.
fn perform(
    heap: &Rationed<Global>,
    machine: &mut RationedMachine,
    twin: &mut Machine<Global>,
    task: Task,
) -> Option<bool> {
    let (zero, one) = (first(), first().next());
    match task {
        Task::Steps => take_steps(heap, machine, twin),
        Task::Turns => run_cut(heap, machine, twin, &[one, zero, zero, zero, one]),
        Task::Flaps => run_cut(heap, machine, twin, &[one; 60]),
        Task::Barrel(turns) => run_barrel_cut(heap, machine, twin, turns),
        Task::Room => make_room(heap, machine, twin),
    }
}

/// The same of the machine of a deck and its twin in ample memory, with this request refused.
pub(crate) fn refused<R: AllocGlobal + Abort>(
    rt: &R,
    heap: &Rationed<Global>,
    profile: Profile,
    deck: &str,
    task: Task,
    number: u64,
) -> Option<bool> {
    heap.refuse(0);
    let mut machine = loaded(rt, heap, profile, deck);
    let mut twin = loaded(rt, rt.alloc(), profile, deck);
    heap.refuse(number);
    perform(heap, &mut machine, &mut twin, task)
}

/// Making room makes two requests.
#[test]
fn no_request_with_room(rt: HostRuntime) {
    let heap = Rationed::new(rt.alloc());
    for number in 1..10u64 {
        let answer = refused(&rt, &heap, Profile::Ten, FLAPPING, Task::Room, number);
        assert!(rt; answer == if number < 3 { None } else { Some(true) });
    }
}

/// Puts a program into a processor's memory and starts it there.
fn put<A: Allocator>(machine: &mut Machine<A>, n: PpNo, place: u16, words: &[u16])
    requires { IsBeforeFirstTurn machine.old }
    ensures fresh { IsBeforeFirstTurn machine.new }
    ensures profile { machine.new.profile ≡ machine.old.profile }
{
    put_program(machine.pp_mut(n), place, words);
}

/// A machine with the programs of `HANDOFF`, on which no turn was taken.
fn before_first_turn<A: Allocator + Copy>(rt: &impl Abort, alloc: A, profile: Profile) -> Machine<A>
    ensures fresh { IsBeforeFirstTurn result }
    ensures profile { result.profile ≡ profile }
{
    let mut machine = Machine::new(alloc, profile, 0o10000).expect(rt, "a machine");
    put(
        &mut machine,
        first(),
        0o100,
        &[0o7405, 0o1407, 0o7205, 0o0300],
    );
    put(&mut machine, first().next(), 0o200, &[0o7005, 0o0300]);
    machine
}

/// All processors but one are to wait, and a request may be refused: then the machine is as its
/// twin, which was never started. Nothing if it is so and the request was made; else whether both
/// wait alike.
fn start_alike(
    heap: &Rationed<Global>,
    machine: &mut RationedMachine,
    twin: &mut Machine<Global>,
) -> Option<bool>
    requires fresh { IsBeforeFirstTurn machine.old × IsBeforeFirstTurn twin.old }
    requires profile { twin.old.profile ≡ machine.old.profile }
{
    let waiting = waiting(machine.profile(), 1..PROCESSORS);
    let is_refused = machine.dead_start(&waiting).is_err();
    let is_right = is_refused == heap.has_refused()
        && (is_refused || twin.dead_start(&waiting).is_ok());
    unless_refused(is_right && are_same(machine, twin), is_refused)
}

/// The same of new machines, with this request refused.
pub(crate) fn dead_start_refused<R: AllocGlobal + Abort>(
    rt: &R,
    heap: &Rationed<Global>,
    profile: Profile,
    number: u64,
) -> Option<bool> {
    heap.refuse(0);
    let mut machine = before_first_turn(rt, heap, profile);
    let mut twin = before_first_turn(rt, rt.alloc(), profile);
    heap.refuse(number);
    start_alike(heap, &mut machine, &mut twin)
}
