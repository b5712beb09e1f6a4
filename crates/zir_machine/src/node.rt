// A component as a tree of nodes, each with what it remembers between its events.

ghost use Rattle.std.specs.Prelude.{◌≡◌, ◌≢◌, ◌+◌, ◌≤◌, ◌<◌, ◌^◌, ℕ, Option, IfOk, OnOk, true, false, Some, None, length, map, drop};
ghost use Rattle.zir_tree.specs.declared.place.Place.{Place};
ghost use Rattle.zir_bit_tree.specs.declared.value.Val.{Val};
ghost use Rattle.zir_bit_tree.specs.declared.tree.Comp.{Take as TakeComp, Emit as EmitComp, Return as ReturnComp};
ghost use Rattle.zir_bit_meaning.specs.Trace.{State};
ghost use Rattle.zir_bit_meaning.specs.Store.{bound};
ghost use Rattle.zir_bit_laws.specs.Process.{Proc, proc, list_proc, turns_proc, then_proc, piped};
ghost use Rattle.zir_machine.specs.Standing.{is_going, state_of, base_point, IsReady, ended_value, given_value, Turned};
ghost use Rattle.zir_machine.specs.Steps.{Stands, Stepped, Paced};
ghost use Rattle.zir_machine.specs.Understood.{leaf, is_begin, ended_in, again, members_of, row_in, row_sound, row_done, loop_does, loop_comp, link_starts, link_goes, link_does, link_comp, link_sound, link_awaits, is_both, goes_sound, lifted, row_awaits, right_state, right_does, left_state, left_does};
ghost use Rattle.zir_machine.specs.Asking.{Answers, Asked, AskPaced, asks_left, AsksLess, Sides, SettledRight, SettledLeft};
ghost use Rattle.zir_machine.specs.Nodes.{comp_of, proc_in, is_sound, is_waiting, held, looped, linked};

use crate::eval::eval;
use crate::progress::{Base, Focus, Progress, Span, Waits};
use std::alloc::{AllocError, Global};
use zir_bit_tree::tree::Expr;
use zir_bit_tree::value::{Slot, Val};
use zir_steps::answer::Answer;
use zir_tree::ident::Ident;
use zir_tree::place::Place;

/// A component with where it stands inside.
#[cycle(node)]
#[derive(Drop)]
pub enum Node {
    Take(Place),
    Emit(Expr, Place),
    Return(Expr, Place),
    /// Its parts, and which of them runs.
    Block(Vec<Part>, Span),
    Repeat(Box<Loop>),
    Pipe(Box<Link>),
}

/// A member of a block.
#[cycle(node)]
#[derive(Drop)]
pub struct Part {
    pub bound: Option<Ident>,
    pub node: Node,
}

/// The body of a `repeat`.
#[cycle(node)]
#[derive(Drop)]
pub struct Loop {
    pub body: Node,
    pub place: Place,
}

/// The two sides of a composition, where the left side stood at the last output that the right side took, and how many
/// variables were in scope when both began.
#[cycle(node)]
#[derive(Drop)]
pub struct Link {
    pub left: Node,
    pub right: Node,
    pub left_progress: Progress,
    pub left_store: Vec<Slot>,
    pub right_progress: Progress,
    pub base: Base,
    pub depth: usize,
    pub waits: Waits,
    pub place: Place,
}

/// What a component that has begun answers by itself.
fn answer(
    progress: &mut Progress,
    store: &Vec<Slot>,
    offer: &mut Option<Val>,
    fuel: &mut u32,
) -> Answer
    requires { IsReady progress.old.focus }
    ensures step { Stepped result offer.old offer.new (ended_in progress.old.focus (state_of progress.old store.now.items)) (ended_in progress.new.focus (state_of progress.new store.now.items)) progress.new.focus (state_of progress.new store.now.items) }
    ensures paced { Paced result fuel.old fuel.new progress.old.ticks progress.new.ticks }
    ensures begun { progress.new.focus ≢ Focus.Begin }
    ensures rests { is_going progress.new.focus ≡ false }
    ensures ready { IsReady progress.new.focus }
    ensures never { result ≢ Answer.Need }
{
    match progress.focus {
        Focus::Given => {
            progress.focus = Focus::Ended(Val::Unit);
            Answer::Done
        }
        Focus::Ended(_) => Answer::Done,
        Focus::Begin | Focus::Giving(_) | Focus::Spent => {
            progress.focus = Focus::Spent;
            Answer::Stopped
        }
    }
}

/// A name comes into scope with a value, where there is a name.
fn bind(name: &Option<Ident>, v: Val, store: &mut Vec<Slot>) -> Result<(), AllocError>
    ensures { OnOk result (store.new.items ≡ bound name.now v store.old.items) }
{
    if let Some(name) = name {
        store.push(Slot {
            id: name.id,
            value: v,
        })?;
    }
    Ok(())
}

/// A copy of what is in scope.
fn copy_slots(from: &Vec<Slot>, to: &mut Vec<Slot>) -> Result<(), AllocError>
    ensures { OnOk result (to.new.items ≡ from.now.items) }
{
    to.clear();
    to.extend_from_slice(from.as_slice())?;
    Ok(())
}

/// How many variables are in scope.
fn depth(store: &Vec<Slot>) -> usize
    ensures { result ≡ length store.now.items }
{
    store.len()
}

impl Node {
    /// Begins the component.
    #[cycle(entering)]
    #[inline(always)]
    pub fn enter(
        &mut self,
        progress: &mut Progress,
        store: &mut Vec<Slot>,
    ) -> Result<(), AllocError>
        ensures enters { OnOk result (proc (comp_of self.old) (state_of progress.old store.old.items) ≡ proc_in self.new progress.new.focus (state_of progress.new store.new.items)) }
        ensures sound { OnOk result (is_sound self.new progress.new.focus (state_of progress.new store.new.items) ≡ true) }
        ensures ready { OnOk result (IsReady progress.new.focus) }
        ensures rises { OnOk result (progress.old.ticks ≤ progress.new.ticks) }
        ensures kept { comp_of self.new ≡ comp_of self.old }
    {
        match self {
            Node::Take(_) | Node::Emit(..) | Node::Return(..) => {
                progress.focus = Focus::Begin;
                Ok(())
            }
            Node::Block(parts, span) => {
                *span = Span {
                    at: 0,
                    base: depth(store),
                    place: span.place,
                };
                enter_part(parts, 0, span.base, Val::Unit, progress, store)?;
                Ok(())
            }
            Node::Repeat(body) => {
                turn(body, progress, store)?;
                Ok(())
            }
            Node::Pipe(link) => {
                enter_link(link, progress, store)?;
                Ok(())
            }
        }
    }
}

impl Part {
    /// Begins the part.
    #[cycle(entering)]
    fn enter(&mut self, progress: &mut Progress, store: &mut Vec<Slot>) -> Result<(), AllocError>
        ensures enters { OnOk result (proc (held self.old).meant.what (state_of progress.old store.old.items) ≡ (held self.new).meant.does progress.new.focus (state_of progress.new store.new.items)) }
        ensures sound { OnOk result ((held self.new).meant.sound progress.new.focus (state_of progress.new store.new.items) ≡ true) }
        ensures ready { OnOk result (IsReady progress.new.focus) }
        ensures rises { OnOk result (progress.old.ticks ≤ progress.new.ticks) }
        ensures kept { (held self.new).meant.what ≡ (held self.old).meant.what }
        ensures bound { (held self.new).bound ≡ (held self.old).bound }
    {
        self.node.enter(progress, store)
    }
}

/// Goes on with the parts of a block from `at` on, the part before having ended with `v`.
#[cycle(entering)]
fn enter_part(
    parts: &mut Vec<Part>,
    at: usize,
    base: usize,
    v: Val,
    progress: &mut Progress,
    store: &mut Vec<Slot>,
) -> Result<(), AllocError>
    ensures enters { OnOk result (list_proc (members_of (map held (drop at parts.old.items))) base v (state_of progress.old store.old.items) ≡ row_in (map held parts.new.items) at base progress.new.focus (state_of progress.new store.new.items)) }
    ensures sound { OnOk result (row_sound (map held parts.new.items) at progress.new.focus (state_of progress.new store.new.items) ≡ true) }
    ensures ready { OnOk result (IsReady progress.new.focus) }
    ensures rises { OnOk result (progress.old.ticks ≤ progress.new.ticks) }
    ensures kept { members_of (map held parts.new.items) ≡ members_of (map held parts.old.items) }
{
    if at < parts.len() {
        parts[at].enter(progress, store)?;
        Ok(())
    } else {
        store.truncate(base);
        progress.focus = Focus::Ended(v);
        Ok(())
    }
}

impl Loop {
    /// Begins a turn, which costs a tick.
    #[cycle(entering)]
    fn turn(&mut self, progress: &mut Progress, store: &mut Vec<Slot>) -> Result<bool, AllocError>
        ensures enters { OnOk result (turns_proc progress.old.left (proc (looped self.old).body.what) (state_of progress.old store.old.items) ≡ loop_does (looped self.new) progress.new.focus (state_of progress.new store.new.items)) }
        ensures sound { OnOk result ((looped self.new).body.sound progress.new.focus (state_of progress.new store.new.items) ≡ true) }
        ensures ready { OnOk result (IsReady progress.new.focus) }
        ensures rises { OnOk result (progress.old.ticks ≤ progress.new.ticks) }
        ensures turns { IfOk result (λ turned. Turned turned progress.old progress.new) }
        ensures kept { loop_comp (looped self.new) ≡ loop_comp (looped self.old) }
    {
        if progress.tick() {
            self.body.enter(progress, store)?;
            Ok(true)
        } else {
            Ok(false)
        }
    }
}

/// Begins a turn of a loop.
#[cycle(entering)]
fn turn(
    body: &mut Box<Loop>,
    progress: &mut Progress,
    store: &mut Vec<Slot>,
) -> Result<bool, AllocError>
    ensures enters { OnOk result (turns_proc progress.old.left (proc (looped body.old.value).body.what) (state_of progress.old store.old.items) ≡ loop_does (looped body.new.value) progress.new.focus (state_of progress.new store.new.items)) }
    ensures sound { OnOk result ((looped body.new.value).body.sound progress.new.focus (state_of progress.new store.new.items) ≡ true) }
    ensures ready { OnOk result (IsReady progress.new.focus) }
    ensures rises { OnOk result (progress.old.ticks ≤ progress.new.ticks) }
    ensures turns { IfOk result (λ turned. Turned turned progress.old progress.new) }
    ensures kept { loop_comp (looped body.new.value) ≡ loop_comp (looped body.old.value) }
{
    body.turn(progress, store)
}

/// Begins a composition.
#[cycle(entering)]
fn enter_link(
    link: &mut Box<Link>,
    progress: &mut Progress,
    store: &mut Vec<Slot>,
) -> Result<(), AllocError>
    ensures enters { OnOk result (link_starts (linked link.old.value) (state_of progress.old store.old.items) ≡ link_does (linked link.new.value) progress.new.focus (state_of progress.new store.new.items)) }
    ensures sound { OnOk result (link_sound (linked link.new.value) progress.new.focus (state_of progress.new store.new.items) ≡ true) }
    ensures ready { OnOk result (IsReady progress.new.focus) }
    ensures rises { OnOk result (progress.old.ticks ≤ progress.new.ticks) }
    ensures kept { link_comp (linked link.new.value) ≡ link_comp (linked link.old.value) }
{
    link.enter(progress, store)
}

impl Link {
    /// Begins both sides where the whole stands.
    #[cycle(entering)]
    fn enter(&mut self, progress: &mut Progress, store: &mut Vec<Slot>) -> Result<(), AllocError>
        ensures enters { OnOk result (link_starts (linked self.old) (state_of progress.old store.old.items) ≡ link_does (linked self.new) progress.new.focus (state_of progress.new store.new.items)) }
        ensures sound { OnOk result (link_sound (linked self.new) progress.new.focus (state_of progress.new store.new.items) ≡ true) }
        ensures ready { OnOk result (IsReady progress.new.focus) }
        ensures rises { OnOk result (progress.old.ticks ≤ progress.new.ticks) }
        ensures kept { link_comp (linked self.new) ≡ link_comp (linked self.old) }
    {
        self.base = Base {
            taken: progress.taken,
            ticks: progress.ticks,
        };
        self.depth = depth(store);
        self.left_progress
            .begin(progress.taken, progress.ticks, progress.left);
        self.right_progress.begin(0, 0, progress.left);
        self.waits = Waits::Neither;
        copy_slots(store, &mut self.left_store)?;
        progress.focus = Focus::Begin;
        self.left
            .enter(&mut self.left_progress, &mut self.left_store)?;
        self.right.enter(&mut self.right_progress, store)?;
        Ok(())
    }
}

/// A step of `take`.
fn take(
    progress: &mut Progress,
    store: &Vec<Slot>,
    offer: &mut Option<Val>,
    fuel: &mut u32,
) -> Answer
    requires { IsReady progress.old.focus }
    ensures step { (place : Place) → Stepped result offer.old offer.new (leaf (TakeComp place) progress.old.focus (state_of progress.old store.now.items)) (leaf (TakeComp place) progress.new.focus (state_of progress.new store.now.items)) progress.new.focus (state_of progress.new store.now.items) }
    ensures paced { Paced result fuel.old fuel.new progress.old.ticks progress.new.ticks }
    ensures asks { result ≡ Answer.Need → is_begin progress.new.focus ≡ true }
    ensures takes { is_begin progress.old.focus ≡ true → offer.new ≡ None }
{
    match progress.focus {
        Focus::Begin => match offer.take() {
            None => Answer::Need,
            Some(element) => {
                if progress.take(element) {
                    Answer::Done
                } else {
                    Answer::Stopped
                }
            }
        },
        _ => answer(progress, store, offer, fuel),
    }
}

/// A step of `emit`.
fn emit(
    e: &Expr,
    progress: &mut Progress,
    store: &Vec<Slot>,
    offer: &mut Option<Val>,
    fuel: &mut u32,
) -> Answer
    requires { IsReady progress.old.focus }
    ensures step { (place : Place) → Stepped result offer.old offer.new (leaf (EmitComp e.now place) progress.old.focus (state_of progress.old store.now.items)) (leaf (EmitComp e.now place) progress.new.focus (state_of progress.new store.now.items)) progress.new.focus (state_of progress.new store.now.items) }
    ensures paced { Paced result fuel.old fuel.new progress.old.ticks progress.new.ticks }
    ensures never { result ≢ Answer.Need }
{
    match progress.focus {
        Focus::Begin => {
            let value = eval(e, store.as_slice());
            if progress.tick() {
                progress.focus = Focus::Giving(value);
                Answer::Yield
            } else {
                Answer::Stopped
            }
        }
        _ => answer(progress, store, offer, fuel),
    }
}

/// A step of `return`.
fn finish(
    e: &Expr,
    progress: &mut Progress,
    store: &Vec<Slot>,
    offer: &mut Option<Val>,
    fuel: &mut u32,
) -> Answer
    requires { IsReady progress.old.focus }
    ensures step { (place : Place) → Stepped result offer.old offer.new (leaf (ReturnComp e.now place) progress.old.focus (state_of progress.old store.now.items)) (leaf (ReturnComp e.now place) progress.new.focus (state_of progress.new store.now.items)) progress.new.focus (state_of progress.new store.now.items) }
    ensures paced { Paced result fuel.old fuel.new progress.old.ticks progress.new.ticks }
    ensures never { result ≢ Answer.Need }
{
    match progress.focus {
        Focus::Begin => {
            let value = eval(e, store.as_slice());
            if progress.tick() {
                progress.focus = Focus::Ended(value);
                Answer::Done
            } else {
                Answer::Stopped
            }
        }
        _ => answer(progress, store, offer, fuel),
    }
}

impl Node {
    /// Works until an output, a need, the end, or until no fuel is left. An element that is offered is taken where the
    /// component needs one.
    #[cycle(stepping)]
    #[inline(always)]
    pub fn step(
        &mut self,
        progress: &mut Progress,
        store: &mut Vec<Slot>,
        offer: &mut Option<Val>,
        fuel: &mut u32,
    ) -> Result<Answer, AllocError>
        requires ready { IsReady progress.old.focus }
        requires sound { is_sound self.old progress.old.focus (state_of progress.old store.old.items) ≡ true }
        ensures step { IfOk result (λ a. Stepped a offer.old offer.new (proc_in self.old progress.old.focus (state_of progress.old store.old.items)) (proc_in self.new progress.new.focus (state_of progress.new store.new.items)) progress.new.focus (state_of progress.new store.new.items)) }
        ensures sound { OnOk result (is_sound self.new progress.new.focus (state_of progress.new store.new.items) ≡ true) }
        ensures paced { IfOk result (λ a. Paced a fuel.old fuel.new progress.old.ticks progress.new.ticks) }
        ensures asks { IfOk result (λ a. a ≡ Answer.Need → is_waiting self.new progress.new.focus ≡ true) }
        ensures takes { OnOk result (is_waiting self.old progress.old.focus ≡ true → offer.new ≡ None) }
        ensures kept { comp_of self.new ≡ comp_of self.old }
    {
        match self {
            Node::Take(_) => Ok(take(progress, store, offer, fuel)),
            Node::Emit(e, _) => Ok(emit(e, progress, store, offer, fuel)),
            Node::Return(e, _) => Ok(finish(e, progress, store, offer, fuel)),
            Node::Block(parts, span) => {
                let answer = step_row(parts, span, progress, store, offer, fuel)?;
                Ok(answer)
            }
            Node::Repeat(body) => {
                let answer = step_loop(body, progress, store, offer, fuel)?;
                Ok(answer)
            }
            Node::Pipe(link) => {
                let answer = step_link(link, progress, store, offer, fuel)?;
                Ok(answer)
            }
        }
    }
}

impl Part {
    /// A step of the part.
    #[cycle(stepping)]
    fn step(
        &mut self,
        progress: &mut Progress,
        store: &mut Vec<Slot>,
        offer: &mut Option<Val>,
        fuel: &mut u32,
    ) -> Result<Answer, AllocError>
        requires ready { IsReady progress.old.focus }
        requires sound { (held self.old).meant.sound progress.old.focus (state_of progress.old store.old.items) ≡ true }
        ensures step { IfOk result (λ a. Stepped a offer.old offer.new ((held self.old).meant.does progress.old.focus (state_of progress.old store.old.items)) ((held self.new).meant.does progress.new.focus (state_of progress.new store.new.items)) progress.new.focus (state_of progress.new store.new.items)) }
        ensures sound { OnOk result ((held self.new).meant.sound progress.new.focus (state_of progress.new store.new.items) ≡ true) }
        ensures paced { IfOk result (λ a. Paced a fuel.old fuel.new progress.old.ticks progress.new.ticks) }
        ensures asks { IfOk result (λ a. a ≡ Answer.Need → (held self.new).meant.awaits progress.new.focus ≡ true) }
        ensures takes { OnOk result ((held self.old).meant.awaits progress.old.focus ≡ true → offer.new ≡ None) }
        ensures kept { (held self.new).meant.what ≡ (held self.old).meant.what }
        ensures bound { (held self.new).bound ≡ (held self.old).bound }
    {
        self.node.step(progress, store, offer, fuel)
    }
}

/// The part that ran has ended: its value is bound, and the next part begins.
fn next_part(
    parts: &mut Vec<Part>,
    span: &mut Span,
    progress: &mut Progress,
    store: &mut Vec<Slot>,
) -> Result<(), AllocError>
    requires within { span.old.at < length parts.old.items }
    requires done { row_done (map held parts.old.items) span.old.at progress.old.focus (state_of progress.old store.old.items) }
    ensures goes { OnOk result (row_in (map held parts.old.items) span.old.at span.old.base progress.old.focus (state_of progress.old store.old.items) ≡ row_in (map held parts.new.items) span.new.at span.new.base progress.new.focus (state_of progress.new store.new.items)) }
    ensures sound { OnOk result (row_sound (map held parts.new.items) span.new.at progress.new.focus (state_of progress.new store.new.items) ≡ true) }
    ensures ready { OnOk result (IsReady progress.new.focus) }
    ensures rises { OnOk result (progress.old.ticks ≤ progress.new.ticks) }
    ensures kept { members_of (map held parts.new.items) ≡ members_of (map held parts.old.items) }
    ensures next { OnOk result (span.new.at ≡ span.old.at + 1) }
    ensures base { span.new.base ≡ span.old.base }
    ensures place { span.new.place ≡ span.old.place }
{
    let value = progress.value();
    bind(&parts[span.at].bound, value, store)?;
    span.at += 1;
    enter_part(parts, span.at, span.base, value, progress, store)?;
    Ok(())
}

/// A step of a block: the parts run one after the other.
#[cycle(stepping)]
#[inline(never)]
fn step_row(
    parts: &mut Vec<Part>,
    span: &mut Span,
    progress: &mut Progress,
    store: &mut Vec<Slot>,
    offer: &mut Option<Val>,
    fuel: &mut u32,
) -> Result<Answer, AllocError>
    requires ready { IsReady progress.old.focus }
    requires sound { row_sound (map held parts.old.items) span.old.at progress.old.focus (state_of progress.old store.old.items) ≡ true }
    ensures step { IfOk result (λ a. Stepped a offer.old offer.new (row_in (map held parts.old.items) span.old.at span.old.base progress.old.focus (state_of progress.old store.old.items)) (row_in (map held parts.new.items) span.new.at span.new.base progress.new.focus (state_of progress.new store.new.items)) progress.new.focus (state_of progress.new store.new.items)) }
    ensures sound { OnOk result (row_sound (map held parts.new.items) span.new.at progress.new.focus (state_of progress.new store.new.items) ≡ true) }
    ensures paced { IfOk result (λ a. Paced a fuel.old fuel.new progress.old.ticks progress.new.ticks) }
    ensures asks { IfOk result (λ a. a ≡ Answer.Need → row_awaits (map held parts.new.items) span.new.at progress.new.focus ≡ true) }
    ensures takes { OnOk result (row_awaits (map held parts.old.items) span.old.at progress.old.focus ≡ true → offer.new ≡ None) }
    ensures kept { members_of (map held parts.new.items) ≡ members_of (map held parts.old.items) }
    ensures base { span.new.base ≡ span.old.base }
    ensures place { span.new.place ≡ span.old.place }
{
    'parts: while span.at < parts.len() {
        let here = span.at;
        let part = &mut parts[here];
        match part.step(progress, store, offer, fuel)? {
            Answer::Done => {}
            answer => return Ok(answer),
        }
        next_part(parts, span, progress, store)?;
    }
    Ok(answer(progress, store, offer, fuel))
}

/// A step of a loop.
#[cycle(stepping)]
#[inline(never)]
fn step_loop(
    body: &mut Box<Loop>,
    progress: &mut Progress,
    store: &mut Vec<Slot>,
    offer: &mut Option<Val>,
    fuel: &mut u32,
) -> Result<Answer, AllocError>
    requires ready { IsReady progress.old.focus }
    requires sound { (looped body.old.value).body.sound progress.old.focus (state_of progress.old store.old.items) ≡ true }
    ensures step { IfOk result (λ a. Stepped a offer.old offer.new (loop_does (looped body.old.value) progress.old.focus (state_of progress.old store.old.items)) (loop_does (looped body.new.value) progress.new.focus (state_of progress.new store.new.items)) progress.new.focus (state_of progress.new store.new.items)) }
    ensures sound { OnOk result ((looped body.new.value).body.sound progress.new.focus (state_of progress.new store.new.items) ≡ true) }
    ensures paced { IfOk result (λ a. Paced a fuel.old fuel.new progress.old.ticks progress.new.ticks) }
    ensures asks { IfOk result (λ a. a ≡ Answer.Need → (looped body.new.value).body.awaits progress.new.focus ≡ true) }
    ensures takes { OnOk result ((looped body.old.value).body.awaits progress.old.focus ≡ true → offer.new ≡ None) }
    ensures kept { loop_comp (looped body.new.value) ≡ loop_comp (looped body.old.value) }
{
    body.step(progress, store, offer, fuel)
}

impl Loop {
    /// A step: the body runs again and again, each turn for a tick and one fuel.
    #[cycle(stepping)]
    fn step(
        &mut self,
        progress: &mut Progress,
        store: &mut Vec<Slot>,
        offer: &mut Option<Val>,
        fuel: &mut u32,
    ) -> Result<Answer, AllocError>
        requires ready { IsReady progress.old.focus }
        requires sound { (looped self.old).body.sound progress.old.focus (state_of progress.old store.old.items) ≡ true }
        ensures step { IfOk result (λ a. Stepped a offer.old offer.new (loop_does (looped self.old) progress.old.focus (state_of progress.old store.old.items)) (loop_does (looped self.new) progress.new.focus (state_of progress.new store.new.items)) progress.new.focus (state_of progress.new store.new.items)) }
        ensures sound { OnOk result ((looped self.new).body.sound progress.new.focus (state_of progress.new store.new.items) ≡ true) }
        ensures paced { IfOk result (λ a. Paced a fuel.old fuel.new progress.old.ticks progress.new.ticks) }
        ensures asks { IfOk result (λ a. a ≡ Answer.Need → (looped self.new).body.awaits progress.new.focus ≡ true) }
        ensures takes { OnOk result ((looped self.old).body.awaits progress.old.focus ≡ true → offer.new ≡ None) }
        ensures kept { loop_comp (looped self.new) ≡ loop_comp (looped self.old) }
    {
        'turns: loop {
            match self.body.step(progress, store, offer, fuel)? {
                Answer::Done => {}
                answer => return Ok(answer),
            }
            if *fuel == 0 {
                return Ok(Answer::Skip);
            }
            if !self.turn(progress, store)? {
                return Ok(Answer::Stopped);
            }
            *fuel -= 1;
        }
    }
}

/// A step of a composition.
#[cycle(stepping)]
#[inline(never)]
fn step_link(
    link: &mut Box<Link>,
    progress: &mut Progress,
    store: &mut Vec<Slot>,
    offer: &mut Option<Val>,
    fuel: &mut u32,
) -> Result<Answer, AllocError>
    requires ready { IsReady progress.old.focus }
    requires sound { link_sound (linked link.old.value) progress.old.focus (state_of progress.old store.old.items) ≡ true }
    ensures step { IfOk result (λ a. Stepped a offer.old offer.new (link_does (linked link.old.value) progress.old.focus (state_of progress.old store.old.items)) (link_does (linked link.new.value) progress.new.focus (state_of progress.new store.new.items)) progress.new.focus (state_of progress.new store.new.items)) }
    ensures sound { OnOk result (link_sound (linked link.new.value) progress.new.focus (state_of progress.new store.new.items) ≡ true) }
    ensures paced { IfOk result (λ a. Paced a fuel.old fuel.new progress.old.ticks progress.new.ticks) }
    ensures asks { IfOk result (λ a. a ≡ Answer.Need → link_awaits (linked link.new.value) progress.new.focus ≡ true) }
    ensures takes { OnOk result (link_awaits (linked link.old.value) progress.old.focus ≡ true → offer.new ≡ None) }
    ensures kept { link_comp (linked link.new.value) ≡ link_comp (linked link.old.value) }
{
    link.step(progress, store, offer, fuel)
}

impl Link {
    /// A step: the right side is asked first, and the left side where the right one needs an element.
    #[cycle(stepping)]
    fn step(
        &mut self,
        progress: &mut Progress,
        store: &mut Vec<Slot>,
        offer: &mut Option<Val>,
        fuel: &mut u32,
    ) -> Result<Answer, AllocError>
        requires ready { IsReady progress.old.focus }
        requires sound { link_sound (linked self.old) progress.old.focus (state_of progress.old store.old.items) ≡ true }
        ensures step { IfOk result (λ a. Stepped a offer.old offer.new (link_does (linked self.old) progress.old.focus (state_of progress.old store.old.items)) (link_does (linked self.new) progress.new.focus (state_of progress.new store.new.items)) progress.new.focus (state_of progress.new store.new.items)) }
        ensures sound { OnOk result (link_sound (linked self.new) progress.new.focus (state_of progress.new store.new.items) ≡ true) }
        ensures paced { IfOk result (λ a. Paced a fuel.old fuel.new progress.old.ticks progress.new.ticks) }
        ensures asks { IfOk result (λ a. a ≡ Answer.Need → link_awaits (linked self.new) progress.new.focus ≡ true) }
        ensures takes { OnOk result (link_awaits (linked self.old) progress.old.focus ≡ true → offer.new ≡ None) }
        ensures kept { link_comp (linked self.new) ≡ link_comp (linked self.old) }
    {
        if progress.goes() {
            self.work(progress, store, offer, fuel)
        } else {
            Ok(answer(progress, store, offer, fuel))
        }
    }

    /// Asks the sides in turn until there is an answer.
    #[cycle(stepping)]
    fn work(
        &mut self,
        progress: &mut Progress,
        store: &mut Vec<Slot>,
        offer: &mut Option<Val>,
        fuel: &mut u32,
    ) -> Result<Answer, AllocError>
        requires going { is_going progress.old.focus ≡ true }
        requires sound { goes_sound (linked self.old) (state_of progress.old store.old.items) ≡ true }
        ensures answers { IfOk result (λ a. Answers a offer.old offer.new (link_goes (linked self.old) (state_of progress.old store.old.items)) (linked self.new) progress.new.focus (state_of progress.new store.new.items)) }
        ensures paced { IfOk result (λ a. Paced a fuel.old fuel.new progress.old.ticks progress.new.ticks) }
        ensures takes { OnOk result (is_both (linked self.old).waits ≡ true → offer.new ≡ None) }
        ensures kept { link_comp (linked self.new) ≡ link_comp (linked self.old) }
    {
        'asks: loop {
            if let Some(answer) = self.ask(progress, store, offer, fuel)? {
                return Ok(answer);
            }
        }
    }

    /// Asks one side.
    #[cycle(stepping)]
    fn ask(
        &mut self,
        progress: &mut Progress,
        store: &mut Vec<Slot>,
        offer: &mut Option<Val>,
        fuel: &mut u32,
    ) -> Result<Option<Answer>, AllocError>
        requires going { is_going progress.old.focus ≡ true }
        requires sound { goes_sound (linked self.old) (state_of progress.old store.old.items) ≡ true }
        ensures asked { IfOk result (λ r. Asked r offer.old offer.new (link_goes (linked self.old) (state_of progress.old store.old.items)) (linked self.new) progress.new.focus (state_of progress.new store.new.items)) }
        ensures paced { IfOk result (λ r. AskPaced r fuel.old fuel.new (lifted (linked self.old)) (linked self.new) progress.old.ticks progress.new.ticks) }
        ensures less { IfOk result (λ r. AsksLess r (asks_left (linked self.old) offer.old fuel.old) (asks_left (linked self.new) offer.new fuel.new)) }
        ensures takes { OnOk result (is_both (linked self.old).waits ≡ true → offer.new ≡ None) }
        ensures kept { link_comp (linked self.new) ≡ link_comp (linked self.old) }
    {
        match self.waits {
            Waits::Neither => self.ask_right(progress, store, fuel),
            Waits::Right => match self.left_progress.output() {
                Some(output) => self.hand_over(output, progress, store, fuel),
                None => self.ask_left(progress, store, fuel),
            },
            Waits::Both => match offer {
                Some(_) => self.offer_left(progress, store, offer, fuel),
                None => Ok(Some(Answer::Need)),
            },
        }
    }
}

impl Link {
    /// The right side works without an element.
    #[cycle(stepping)]
    fn ask_right(
        &mut self,
        progress: &mut Progress,
        store: &mut Vec<Slot>,
        fuel: &mut u32,
    ) -> Result<Option<Answer>, AllocError>
        requires going { is_going progress.old.focus ≡ true }
        requires sound { goes_sound (linked self.old) (state_of progress.old store.old.items) ≡ true }
        requires waits { (linked self.old).waits ≡ Waits.Neither }
        ensures asked { IfOk result (λ r. Asked r None None (link_goes (linked self.old) (state_of progress.old store.old.items)) (linked self.new) progress.new.focus (state_of progress.new store.new.items)) }
        ensures paced { IfOk result (λ r. AskPaced r fuel.old fuel.new (lifted (linked self.old)) (linked self.new) progress.old.ticks progress.new.ticks) }
        ensures less { (i : Option Val) → IfOk result (λ r. AsksLess r (asks_left (linked self.old) i fuel.old) (asks_left (linked self.new) i fuel.new)) }
        ensures never { IfOk result (λ r. r ≢ Some Answer.Need) }
        ensures kept { link_comp (linked self.new) ≡ link_comp (linked self.old) }
    {
        let mut nothing = None;
        let answer = self
            .right
            .step(&mut self.right_progress, store, &mut nothing, fuel)?;
        Ok(self.settle_right(answer, progress, store))
    }

    /// The right side takes the left side's output, and works.
    #[cycle(stepping)]
    fn hand_over(
        &mut self,
        output: Val,
        progress: &mut Progress,
        store: &mut Vec<Slot>,
        fuel: &mut u32,
    ) -> Result<Option<Answer>, AllocError>
        requires going { is_going progress.old.focus ≡ true }
        requires sound { goes_sound (linked self.old) (state_of progress.old store.old.items) ≡ true }
        requires waits { (linked self.old).waits ≡ Waits.Right }
        requires output { given_value (linked self.old).left_progress.focus ≡ Some output }
        ensures asked { IfOk result (λ r. Asked r None None (link_goes (linked self.old) (state_of progress.old store.old.items)) (linked self.new) progress.new.focus (state_of progress.new store.new.items)) }
        ensures paced { IfOk result (λ r. AskPaced r fuel.old fuel.new (lifted (linked self.old)) (linked self.new) progress.old.ticks progress.new.ticks) }
        ensures less { (i : Option Val) → IfOk result (λ r. AsksLess r (asks_left (linked self.old) i fuel.old) (asks_left (linked self.new) i fuel.new)) }
        ensures never { IfOk result (λ r. r ≢ Some Answer.Need) }
        ensures kept { link_comp (linked self.new) ≡ link_comp (linked self.old) }
    {
        self.base = Base {
            taken: self.left_progress.taken,
            ticks: self.left_progress.ticks,
        };
        self.left_progress.focus = Focus::Given;
        let mut element = Some(output);
        let answer = self
            .right
            .step(&mut self.right_progress, store, &mut element, fuel)?;
        Ok(self.settle_right(answer, progress, store))
    }

    /// The left side works without an element.
    #[cycle(stepping)]
    fn ask_left(
        &mut self,
        progress: &mut Progress,
        store: &mut Vec<Slot>,
        fuel: &mut u32,
    ) -> Result<Option<Answer>, AllocError>
        requires going { is_going progress.old.focus ≡ true }
        requires sound { goes_sound (linked self.old) (state_of progress.old store.old.items) ≡ true }
        requires waits { (linked self.old).waits ≡ Waits.Right }
        requires ready { IsReady (linked self.old).left_progress.focus }
        ensures asked { IfOk result (λ r. Asked r None None (link_goes (linked self.old) (state_of progress.old store.old.items)) (linked self.new) progress.new.focus (state_of progress.new store.new.items)) }
        ensures paced { IfOk result (λ r. AskPaced r fuel.old fuel.new (lifted (linked self.old)) (linked self.new) progress.old.ticks progress.new.ticks) }
        ensures less { (i : Option Val) → IfOk result (λ r. AsksLess r (asks_left (linked self.old) i fuel.old) (asks_left (linked self.new) i fuel.new)) }
        ensures never { IfOk result (λ r. r ≢ Some Answer.Need) }
        ensures kept { link_comp (linked self.new) ≡ link_comp (linked self.old) }
    {
        let mut nothing = None;
        let answer = self.left.step(
            &mut self.left_progress,
            &mut self.left_store,
            &mut nothing,
            fuel,
        )?;
        Ok(self.settle_left(answer, progress, store, fuel))
    }

    /// The left side takes the element that is offered to the whole, and works.
    #[cycle(stepping)]
    fn offer_left(
        &mut self,
        progress: &mut Progress,
        store: &mut Vec<Slot>,
        offer: &mut Option<Val>,
        fuel: &mut u32,
    ) -> Result<Option<Answer>, AllocError>
        requires going { is_going progress.old.focus ≡ true }
        requires sound { goes_sound (linked self.old) (state_of progress.old store.old.items) ≡ true }
        requires waits { (linked self.old).waits ≡ Waits.Both }
        requires offered { (x : Val) × (offer.old ≡ Some x) }
        ensures asked { IfOk result (λ r. Asked r offer.old offer.new (link_goes (linked self.old) (state_of progress.old store.old.items)) (linked self.new) progress.new.focus (state_of progress.new store.new.items)) }
        ensures paced { IfOk result (λ r. AskPaced r fuel.old fuel.new (lifted (linked self.old)) (linked self.new) progress.old.ticks progress.new.ticks) }
        ensures less { IfOk result (λ r. AsksLess r (asks_left (linked self.old) offer.old fuel.old) (asks_left (linked self.new) offer.new fuel.new)) }
        ensures takes { OnOk result (offer.new ≡ None) }
        ensures never { IfOk result (λ r. r ≢ Some Answer.Need) }
        ensures kept { link_comp (linked self.new) ≡ link_comp (linked self.old) }
    {
        let answer = self
            .left
            .step(&mut self.left_progress, &mut self.left_store, offer, fuel)?;
        Ok(self.settle_left(answer, progress, store, fuel))
    }
}

impl Link {
    /// What the right side's answer is for the whole. Nothing where it needs an element: the left side is then asked.
    fn settle_right(
        &mut self,
        answer: Answer,
        progress: &mut Progress,
        store: &Vec<Slot>,
    ) -> Option<Answer>
        requires going { is_going progress.old.focus ≡ true }
        requires sides { Sides (linked self.old) (state_of progress.old store.now.items) }
        requires stands { Stands answer (linked self.old).right_progress.focus (right_state (linked self.old) (state_of progress.old store.now.items)) None (right_does (linked self.old) (state_of progress.old store.now.items)) }
        requires asks { answer ≡ Answer.Need → (linked self.old).right.awaits (linked self.old).right_progress.focus ≡ true }
        requires whole { progress.old.ticks ≤ (linked self.old).base.ticks + (linked self.old).right_progress.ticks }
        ensures asked { Asked result None None (link_goes (linked self.old) (state_of progress.old store.now.items)) (linked self.new) progress.new.focus (state_of progress.new store.now.items) }
        ensures settled { SettledRight answer result (linked self.old) (linked self.new) progress.old progress.new }
        ensures kept { link_comp (linked self.new) ≡ link_comp (linked self.old) }
    {
        let ticks = self.base.ticks + self.right_progress.ticks;
        if answer == Answer::Need {
            self.waits = Waits::Right;
            return None;
        }
        self.waits = Waits::Neither;
        if !progress.rise(self.base.taken, ticks) {
            return Some(Answer::Stopped);
        }
        match answer {
            Answer::Yield => {
                progress.focus = self.right_progress.focus;
                self.right_progress.focus = Focus::Given;
                Some(Answer::Yield)
            }
            Answer::Done => {
                progress.focus = self.right_progress.focus;
                Some(Answer::Done)
            }
            Answer::Skip => Some(Answer::Skip),
            Answer::Need | Answer::Stopped => {
                progress.focus = Focus::Spent;
                Some(Answer::Stopped)
            }
        }
    }

    /// What the left side's answer is for the whole, while the right side needs an element. Nothing where the left
    /// side gives one, or needs one itself. Where it ended, the names that the right side brought into scope leave.
    fn settle_left(
        &mut self,
        answer: Answer,
        progress: &mut Progress,
        store: &mut Vec<Slot>,
        fuel: &mut u32,
    ) -> Option<Answer>
        requires going { is_going progress.old.focus ≡ true }
        requires sides { Sides (linked self.old) (state_of progress.old store.old.items) }
        requires stands { (j : Option Val) × Stands answer (linked self.old).left_progress.focus (left_state (linked self.old)) j (left_does (linked self.old)) }
        requires asks { answer ≡ Answer.Need → (linked self.old).left.awaits (linked self.old).left_progress.focus ≡ true }
        requires right { (linked self.old).right.awaits (linked self.old).right_progress.focus ≡ true }
        requires whole { progress.old.ticks ≤ (linked self.old).left_progress.ticks + (linked self.old).right_progress.ticks }
        ensures asked { Asked result None None (link_goes (linked self.old) (state_of progress.old store.old.items)) (linked self.new) progress.new.focus (state_of progress.new store.new.items) }
        ensures settled { SettledLeft answer result (linked self.old) (linked self.new) progress.old progress.new fuel.old fuel.new }
        ensures kept { link_comp (linked self.new) ≡ link_comp (linked self.old) }
    {
        let ticks = self.left_progress.ticks + self.right_progress.ticks;
        self.waits = Waits::Right;
        if answer == Answer::Yield && *fuel > 0 {
            *fuel -= 1;
            return None;
        }
        if !progress.rise(self.left_progress.taken, ticks) {
            return Some(Answer::Stopped);
        }
        match answer {
            Answer::Need => {
                self.waits = Waits::Both;
                None
            }
            Answer::Done => {
                store.truncate(self.depth);
                progress.focus = self.left_progress.focus;
                Some(Answer::Done)
            }
            Answer::Yield | Answer::Skip => Some(Answer::Skip),
            Answer::Stopped => {
                progress.focus = Focus::Spent;
                Some(Answer::Stopped)
            }
        }
    }
}
