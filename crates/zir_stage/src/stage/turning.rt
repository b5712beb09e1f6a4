// What a stage comes to within so many turns.

ghost use Rattle.std.specs.Prelude.{◌≡◌, ◌+◌, ◌-◌, ◌<◌, ◌≤◌, ℕ, List, Some, None, option_copied};
ghost use Rattle.zir_flow.specs.declared.instruction.Instruction.{Instruction};
ghost use Rattle.zir_flow.specs.Stages.{Alone, Closed, Going, Joined, Stage as Standing, handed, joined, pulled, turned_on};
ghost use Rattle.zir_flow.specs.Threads.{cells_from};
ghost use Rattle.zir_stage.specs.declared.event.Event.TheVariants.{Needs};
ghost use Rattle.zir_tree.specs.declared.ends.Stamp.{Stamp};
ghost use Rattle.zir_stage.specs.Coming.{Came, IsLeft, IsSpent, Stops, gives_at, needs_at, point_within, said, says, spent, traps_at};
ghost use Rattle.zir_stage.specs.Pausing.{fork_by, joint_at};
ghost use Rattle.zir_stage.specs.Standing.{given, room_with, shape_of, stage_of, standing};

use super::ending::end_side;
use super::{Sides, Stage, joint_of};
use crate::event::{Event, Offer};
use crate::source::Source;
use crate::thread::{Pause, Thread};
use zir_flow::instruction::{Instruction, Joint};
use zir_tree::ends::{Stamp, Trap};

/// A point at the sum of two ticks, if that is within the budget.
fn point_at(taken: u64, a: u64, b: u64, limit: u64) -> Option<Stamp>
    ensures { result ≡ point_within taken a b limit }
{
    if a <= limit && b <= limit - a {
        return Some(Stamp {
            taken,
            ticks: a + b,
        });
    }
    None
}

/// An output at a point.
fn give_at(offer: Offer, point: Option<Stamp>) -> Event
    ensures { result ≡ gives_at offer point }
{
    match point {
        Some(stamp) => Event::Gives(Offer {
            at: offer.at,
            cells: offer.cells,
            stamp,
        }),
        None => Event::Gone,
    }
}

/// A need at a point.
fn need_at(point: Option<Stamp>) -> Event
    ensures { result ≡ needs_at point }
{
    match point {
        Some(stamp) => Event::Needs(stamp),
        None => Event::Gone,
    }
}

/// A trap at a point.
fn trap_at(trap: Trap, point: Option<Stamp>) -> Event
    ensures { result ≡ traps_at trap point }
{
    match point {
        Some(stamp) => Event::Traps(trap, stamp),
        None => Event::Gone,
    }
}

/// The composition that begins with a pause.
fn fork_of(pause: Pause, code: &[Instruction], place: usize) -> Option<&Joint>
    ensures { option_copied result ≡ fork_by pause (joint_at code.now place) }
{
    match pause {
        Pause::Forks => joint_of(code, place),
        Pause::Goes
        | Pause::Offers(..)
        | Pause::Wants
        | Pause::Halts
        | Pause::Fails(_)
        | Pause::Spends => None,
    }
}

/// A turn where nothing has come.
fn spend(fuel: &mut u64, event: Option<Event>) -> Option<Event>
    requires { 0 < fuel.old }
    ensures same { result ≡ event }
    ensures fuel { fuel.new + spent event ≡ fuel.old }
{
    if event.is_none() {
        *fuel -= 1;
    }
    event
}

impl Stage {
    /// What it comes to within so many turns: its next event, or nothing yet.
    pub fn advance(&mut self, code: &[Instruction], fuel: u64) -> Option<Event>
        ensures came { turned_on fuel code.now (stage_of code.now self.old) ≡ said result (stage_of code.now self.new) }
        ensures shape { shape_of self.new ≡ shape_of self.old }
    {
        let mut fuel = fuel;
        self.run(code, &mut fuel)
    }

    /// Goes on for as many turns as there are, or to an event.
    #[cycle(turning)]
    fn run(&mut self, code: &[Instruction], fuel: &mut u64) -> Option<Event>
        ensures came { Came code.now (fuel.old - fuel.new) (stage_of code.now self.old) result (stage_of code.now self.new) }
        ensures fuel { fuel.new ≤ fuel.old }
        ensures left { IsLeft result fuel.new }
        ensures shape { shape_of self.new ≡ shape_of self.old }
    {
        while *fuel > 0 {
            if let Some(event) = self.proceed(code, fuel) {
                return Some(event);
            }
        }
        None
    }

    /// Goes on for some turns, or to an event.
    #[cycle(turning)]
    fn proceed(&mut self, code: &[Instruction], fuel: &mut u64) -> Option<Event>
        requires { 0 < fuel.old }
        ensures came { Came code.now (fuel.old - fuel.new) (stage_of code.now self.old) result (stage_of code.now self.new) }
        ensures fuel { IsSpent result fuel.old fuel.new }
        ensures shape { shape_of self.new ≡ shape_of self.old }
    {
        match &mut self.sides {
            None => go_alone(&mut self.thread, code, fuel),
            Some(sides) => {
                let sides: &mut Sides = sides;
                proceed_with(
                    &mut self.thread,
                    &mut sides.left,
                    &mut sides.right,
                    &mut sides.link,
                    code,
                    fuel,
                )
            }
        }
    }
}

/// A thread that has no room for a composition.
fn go_alone(thread: &mut Thread, code: &[Instruction], fuel: &mut u64) -> Option<Event>
    requires { 0 < fuel.old }
    ensures came { Came code.now (fuel.old - fuel.new) (Alone thread.old Closed) result (Alone thread.new Closed) }
    ensures fuel { IsSpent result fuel.old fuel.new }
{
    let pause = thread.spin(code, fuel);
    match fork_of(pause, code, thread.place()) {
        None => thread.event(pause),
        Some(_) => Some(Event::Gone),
    }
}

/// A thread that has room for a composition, if it does not stand at one.
fn go(
    thread: &mut Thread,
    left: &mut Stage,
    right: &mut Stage,
    link: &mut Option<Stamp>,
    code: &[Instruction],
    fuel: &mut u64,
) -> Option<Event>
    requires { 0 < fuel.old }
    ensures came { Came code.now (fuel.old - fuel.new) (Alone thread.old (room_with left.old right.old)) result
        (standing code.now thread.new left.new right.new link.new) }
    ensures fuel { IsSpent result fuel.old fuel.new }
    ensures left_shape { shape_of left.new ≡ shape_of left.old }
    ensures right_shape { shape_of right.new ≡ shape_of right.old }
{
    *link = None;
    let pause = thread.spin(code, fuel);
    match fork_of(pause, code, thread.place()) {
        None => thread.event(pause),
        Some(joint) => {
            begin(thread, joint, left, right, link);
            spend(fuel, None)
        }
    }
}

/// Begins a composition.
fn begin(
    thread: &mut Thread,
    joint: &Joint,
    left: &mut Stage,
    right: &mut Stage,
    link: &mut Option<Stamp>,
)
    ensures begun { (code : List Instruction) → joint_at code thread.old.place ≡ Some joint.now →
        joined joint.now thread.old (room_with left.old right.old)
        ≡ Going (standing code thread.new left.new right.new link.new) }
    ensures left_shape { shape_of left.new ≡ shape_of left.old }
    ensures right_shape { shape_of right.new ≡ shape_of right.old }
{
    *link = Some(thread.point());
    left.begin_left(joint, thread);
    right.begin_right(joint, thread);
}

/// A thread that has room for a composition, and may stand at one.
#[cycle(turning)]
fn proceed_with(
    thread: &mut Thread,
    left: &mut Stage,
    right: &mut Stage,
    link: &mut Option<Stamp>,
    code: &[Instruction],
    fuel: &mut u64,
) -> Option<Event>
    requires { 0 < fuel.old }
    ensures came { Came code.now (fuel.old - fuel.new) (standing code.now thread.old left.old right.old link.old) result
        (standing code.now thread.new left.new right.new link.new) }
    ensures fuel { IsSpent result fuel.old fuel.new }
    ensures left_shape { shape_of left.new ≡ shape_of left.old }
    ensures right_shape { shape_of right.new ≡ shape_of right.old }
{
    match *link {
        None => go(thread, left, right, link, code, fuel),
        Some(point) => match joint_of(code, thread.place()) {
            None => go(thread, left, right, link, code, fuel),
            Some(joint) => compose(thread, joint, left, right, link, point, code, fuel),
        },
    }
}

/// A composition: what it does by what its right side comes to.
#[cycle(turning)]
fn compose(
    thread: &mut Thread,
    joint: &Joint,
    left: &mut Stage,
    right: &mut Stage,
    link: &mut Option<Stamp>,
    point: Stamp,
    code: &[Instruction],
    fuel: &mut u64,
) -> Option<Event>
    requires fuel { 0 < fuel.old }
    requires linked { link.old ≡ Some point }
    requires at { joint_at code.now thread.old.place ≡ Some joint.now }
    ensures came { Came code.now (fuel.old - fuel.new)
        (Joined thread.old joint.now (stage_of code.now left.old) (stage_of code.now right.old) point.taken point.ticks) result
        (standing code.now thread.new left.new right.new link.new) }
    ensures fuel { IsSpent result fuel.old fuel.new }
    ensures left_shape { shape_of left.new ≡ shape_of left.old }
    ensures right_shape { shape_of right.new ≡ shape_of right.old }
{
    let limit = thread.limit();
    match right.run(code, fuel) {
        None => None,
        Some(Event::Gives(offer)) => {
            let at = point_at(point.taken, point.ticks, offer.stamp.ticks, limit);
            Some(give_at(offer, at))
        }
        Some(Event::Needs(need)) => {
            pull(thread, joint, left, right, link, point, need, code, fuel)
        }
        Some(Event::Ends(end)) => {
            let at = point_at(point.taken, point.ticks, end.ticks, limit);
            let event = end_side(thread, joint, 0, left, right, link, at, code);
            spend(fuel, event)
        }
        Some(Event::Traps(trap, end)) => {
            let at = point_at(point.taken, point.ticks, end.ticks, limit);
            Some(trap_at(trap, at))
        }
        Some(Event::Gone) => Some(Event::Gone),
    }
}

/// A composition whose right side needs an element: what it does by what its left side comes to.
#[cycle(turning)]
fn pull(
    thread: &mut Thread,
    joint: &Joint,
    left: &mut Stage,
    right: &mut Stage,
    link: &mut Option<Stamp>,
    point: Stamp,
    need: Stamp,
    code: &[Instruction],
    fuel: &mut u64,
) -> Option<Event>
    requires fuel { 0 < fuel.old }
    requires linked { link.old ≡ Some point }
    requires at { joint_at code.now thread.old.place ≡ Some joint.now }
    ensures came { (n : ℕ) (r : Standing) → Stops code.now n r (says (Needs need) (stage_of code.now right.old)) →
        Came code.now (n + (fuel.old - fuel.new))
        (Joined thread.old joint.now (stage_of code.now left.old) r point.taken point.ticks) result
        (standing code.now thread.new left.new right.new link.new) }
    ensures fuel { IsSpent result fuel.old fuel.new }
    ensures left_shape { shape_of left.new ≡ shape_of left.old }
    ensures right_shape { shape_of right.new ≡ shape_of right.old }
{
    match left.run(code, fuel) {
        None => None,
        Some(event) => {
            let event = answer(thread, joint, left, right, link, need.ticks, event, code);
            spend(fuel, event)
        }
    }
}

/// What a composition whose right side needs an element does by what its left side has come to.
fn answer(
    thread: &mut Thread,
    joint: &Joint,
    left: &mut Stage,
    right: &mut Stage,
    link: &mut Option<Stamp>,
    own: u64,
    event: Event,
    code: &[Instruction],
) -> Option<Event>
    requires at { joint_at code.now thread.old.place ≡ Some joint.now }
    ensures answers { (point : Stamp) → link.old ≡ Some point →
        pulled code.now thread.old joint.now (stage_of code.now right.old) point.taken point.ticks own
        (says event (stage_of code.now left.old))
        ≡ said result (standing code.now thread.new left.new right.new link.new) }
    ensures left_shape { shape_of left.new ≡ shape_of left.old }
    ensures right_shape { shape_of right.new ≡ shape_of right.old }
{
    let limit = thread.limit();
    match event {
        Event::Gives(offer) => {
            hand_over(left, right, offer, code);
            *link = Some(offer.stamp);
            None
        }
        Event::Needs(need) => {
            let at = point_at(need.taken, need.ticks, own, limit);
            Some(need_at(at))
        }
        Event::Ends(end) => {
            let at = point_at(end.taken, end.ticks, own, limit);
            end_side(thread, joint, joint.value, left, right, link, at, code)
        }
        Event::Traps(trap, end) => {
            let at = point_at(end.taken, end.ticks, own, limit);
            Some(trap_at(trap, at))
        }
        Event::Gone => Some(Event::Gone),
    }
}

/// An output of the left side goes to the right side.
fn hand_over(left: &Stage, right: &mut Stage, offer: Offer, code: &[Instruction])
    ensures handed { stage_of code.now right.new
        ≡ handed code.now (cells_from offer.cells offer.at (given (stage_of code.now left.now))) (stage_of code.now right.old) }
    ensures shape { shape_of right.new ≡ shape_of right.old }
{
    let source = Source::Held(left.given(code), offer.at, offer.cells);
    right.hand(code, source);
}
