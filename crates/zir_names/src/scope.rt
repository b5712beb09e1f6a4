// What is in scope.

ghost use Rattle.std.specs.Prelude.{◌≡◌, ℕ, ◌++◌, ◌∷◌, [], ◌-◌, ◌<◌, ◌≤◌, take, length, slice_index, OnOk, IfOk, OnErr};
ghost use Rattle.std.specs.Option.{option_copied};
ghost use Rattle.zir_names.specs.Walk.{Told, Fine};
ghost use Rattle.zir_names.specs.Scope.{nothing_seen, suits as suiting, used_as as using_as, find as finding};
ghost use Rattle.zir_names.specs.Scope.{resolved, numbered, counted, opened, once, done, ToldIn};
ghost use Rattle.zir_names.specs.Buckets.{bucket};
ghost use Rattle.zir_names.specs.declared.error.NameError.TheVariants.{Memory};

use crate::error::NameError;
use std::alloc::{AllocError, Global};
use std::marker::Model;
use zir_tree::ident::Ident;
use zir_tree::name::Name;

/// What a name stands for.
#[derive(Clone, Copy, Debug, PartialEq, Eq)]
pub enum Kind {
    /// A `var`.
    Variable,
    /// A parameter, a bound name or the index of a loop, which nothing assigns.
    Fixed,
    /// A `fun` with so many parameters.
    Function(usize),
    /// A `fun comp`.
    Component,
    /// A struct.
    Structure,
    /// The function or the struct whose body this is.
    Own,
}

/// What a place needs a name for.
#[derive(Clone, Copy, Debug, PartialEq, Eq)]
pub enum Need {
    /// A NAME in an expression.
    Value,
    /// The NAME that an assignment changes.
    Target,
    /// A call in an expression.
    Call,
    /// A call that is a statement.
    Statement,
    /// The function of `map` and `filter`.
    Mapped,
    /// A call that is a component.
    Component,
    /// A type.
    Type,
}

/// A declaration in scope: its name, its number and its kind.
#[derive(Debug, Drop)]
pub struct Entry {
    pub name: Name,
    pub id: u32,
    pub kind: Kind,
}

/// A declaration in scope, and one more than the index of the last one before it in its bucket, or 0.
#[derive(Debug, Drop)]
pub struct Link {
    pub entry: Entry,
    pub older: usize,
}

/// How many buckets a scope has.
const BUCKETS: usize = 4096;

/// The declarations in scope, in the order of the text, and the number of the next one. Each bucket has one more than the
/// index of its last declaration, or 0, and each declaration the same of those before it.
#[derive(Debug, Drop)]
pub struct Scope {
    links: Vec<Link>,
    heads: Vec<usize>,
    next: u32,
}

impl Model for Scope {
    ghost use Rattle.zir_names.specs.Scope.{Seen};

    ghost Value = { Seen };

    ghost use Rattle.zir_names.specs.Buckets.{entries, IsChained};

    ghost view = { λ scope. record { open_ = entries scope.links.items; next = scope.next } };

    ghost invariant = { λ scope. IsChained scope.links.items scope.heads.items };
}

impl Scope {
    /// Nothing is declared, and numbers begin with 1.
    pub fn new(alloc: Global) -> Scope
        ensures { result ≡ nothing_seen }
    {
        Scope {
            links: Vec::new(alloc),
            heads: Vec::new(alloc),
            next: 1,
        }
    }

    /// How many declarations are in scope.
    pub fn len(&self) -> usize
        ensures { result ≡ length self.now.open_ }
    {
        self.links.len()
    }

    /// The last declaration of a name.
    fn find(&self, name: &Name) -> Option<&Entry>
        ensures { option_copied result ≡ finding self.now.open_ name.now }
    {
        let mut at = head_at(&self.heads, bucket_of(name.as_slice()));
        while at > 0 {
            let link = &self.links[at - 1];
            if link.entry.name.as_slice() == name.as_slice() {
                return Some(&link.entry);
            }
            at = link.older;
        }
        None
    }

    /// A use of a name, with the number of the declaration that it means.
    pub fn resolve(&self, alloc: Global, need: Need, x: &Ident) -> Result<Ident, NameError>
        ensures { Told (resolved need self.now x.now) result }
    {
        match self.find(&x.name) {
            None => Err(NameError::Unknown(x.at)),
            Some(entry) => used_as(alloc, need, entry.kind, entry.id, x),
        }
    }

    /// Refuses a name that is in scope.
    pub fn check_new(&self, x: &Ident) -> Result<(), NameError>
        ensures { Told (once self.now.open_ x.now (Fine tt)) result }
    {
        match self.find(&x.name) {
            None => Ok(()),
            Some(_) => Err(NameError::Twice(x.at)),
        }
    }

    /// A declared name, with the next number.
    pub fn number(&mut self, alloc: Global, x: &Ident) -> Result<Ident, NameError>
        ensures { ToldIn (done (numbered self.old x.now) (counted self.old)) result self.new }
    {
        let name = Name::from_slice(alloc, x.name.as_slice())?;
        let id = self.next;
        let next = id.checked_add(1).ok_or(NameError::Memory)?;
        self.next = next;
        Ok(Ident { name, id, at: x.at })
    }

    /// A numbered declaration comes into scope.
    pub fn open(&mut self, alloc: Global, kind: Kind, x: &Ident) -> Result<(), AllocError>
        ensures { OnOk result (self.new ≡ opened kind x.now self.old) }
    {
        let name = Name::from_slice(alloc, x.name.as_slice())?;
        let id = x.id;
        let bucket = bucket_of(name.as_slice());
        widen(&mut self.heads)?;
        let older = self.heads[bucket];
        let entry = Entry { name, id, kind };
        self.links.push(Link { entry, older })?;
        self.heads[bucket] = self.links.len();
        Ok(())
    }

    /// The last declaration leaves the scope.
    fn leave_last(&mut self)
        ensures { self.new ≡ record { open_ = take (length self.old.open_ - 1) self.old.open_; next = self.old.next } }
    {
        if let Some(link) = self.links.pop() {
            let bucket = bucket_of(link.entry.name.as_slice());
            self.heads[bucket] = link.older;
        }
    }

    /// All but the first so many declarations leave the scope.
    pub fn leave(&mut self, count: usize)
        ensures { self.new ≡ record { open_ = take count self.old.open_; next = self.old.next } }
    {
        while self.len() > count {
            self.leave_last();
        }
    }
}

/// The bucket of a name.
fn bucket_of(name: &[u8]) -> usize
    ensures value { result ≡ bucket name.now }
    ensures within { result < 4096 }
{
    let mut hash: u32 = 0;
    for byte in name {
        hash = (hash * 257 + u32::from(*byte)) % 65521;
    }
    hash as usize % BUCKETS
}

/// One more than the index of the last declaration in a bucket, or 0.
fn head_at(heads: &[usize], bucket: usize) -> usize
    ensures { result ≡ slice_index heads.now bucket }
{
    if bucket < heads.len() {
        heads[bucket]
    } else {
        0
    }
}

/// Room for all buckets.
fn widen(heads: &mut Vec<usize>) -> Result<(), AllocError>
    ensures same { (b : ℕ) → slice_index heads.new.items b ≡ slice_index heads.old.items b }
    ensures wide { OnOk result (4096 ≤ length heads.new.items) }
{
    if heads.len() < BUCKETS {
        heads.resize(BUCKETS, 0)?;
    }
    Ok(())
}

/// Whether a need accepts a kind.
fn suits(need: Need, kind: Kind) -> bool
    ensures { result ≡ suiting need kind }
{
    match need {
        Need::Value => matches!(kind, Kind::Variable | Kind::Fixed),
        Need::Target => matches!(kind, Kind::Variable),
        Need::Call => matches!(kind, Kind::Function(_) | Kind::Structure),
        Need::Statement => matches!(kind, Kind::Function(_)),
        Need::Mapped => match kind {
            Kind::Function(params) => params == 1,
            _ => false,
        },
        Need::Component => matches!(kind, Kind::Component),
        Need::Type => matches!(kind, Kind::Structure),
    }
}

/// A use of a declaration of this kind and number.
fn used_as(alloc: Global, need: Need, kind: Kind, id: u32, x: &Ident) -> Result<Ident, NameError>
    ensures { Told (using_as need kind id x.now) result }
{
    if matches!(kind, Kind::Own) {
        return Err(NameError::Recursive(x.at));
    }
    if !suits(need, kind) {
        return Err(NameError::Unknown(x.at));
    }
    let name = Name::from_slice(alloc, x.name.as_slice())?;
    Ok(Ident { name, id, at: x.at })
}
