// What is assigned, itself or through calls.

ghost use Rattle.std.specs.Prelude.{◌≡◌, ℕ, ◌||◌, [], ◌++◌, IfOk, OnOk};
ghost use Rattle.zir_meaning.specs.Assigned as meant;
ghost use Rattle.zir_meaning.specs.Assigned.{Assigning};
ghost use Rattle.zir_assigned.specs.Sets.{Adds, Holds, has, has_at, hidden_by};
ghost use Rattle.zir_assigned.specs.Assigned.{Agrees, AgreesAlone, Opens, access_assigns, member_assigns, member_declares, members_then};

use crate::sets::{Hidden, Set, insert, join, uncover};
use std::alloc::{AllocError, Global};
use std::collections::HashSet;
use zir_tree::comp::{Comp, Member};
use zir_tree::expr::{Callee, Expr};
use zir_tree::program::{Function, Instance};
use zir_tree::stmt::{Access, Body, Stmt};

/// What each function and each instance assigns, by its place.
#[derive(Drop)]
pub struct Assigned {
    pub functions: Vec<HashSet<u32>>,
    pub instances: Vec<HashSet<u32>>,
}

/// What is at a place, if anything is there.
fn join_at(ids: &mut HashSet<u32>, sets: &[HashSet<u32>], k: u32) -> Result<(), AllocError>
    ensures { OnOk result ((id : ℕ) → has ids.new id ≡ (has ids.old id || has_at sets.now k id)) }
{
    match sets.get(k as usize) {
        None => Ok(()),
        Some(set) => join(ids, set),
    }
}

/// A variable that comes into scope.
fn hide(ids: &HashSet<u32>, id: u32) -> Hidden
    ensures { result ≡ record { id = id; was = has ids.now id } }
{
    Hidden {
        id,
        was: ids.contains(&id),
    }
}

/// The variable that a statement declares, if it is a declaration.
fn declare(a: &Stmt, ids: &HashSet<u32>, hidden: &mut Vec<Hidden>) -> Result<(), AllocError>
    ensures { OnOk result (hidden.new.items ≡ hidden.old.items ++ hidden_by (meant.declares a.now) (has ids.now)) }
{
    if let Stmt::Var(v) = a {
        hidden.push(hide(ids, v.name.id))?;
    }
    Ok(())
}

/// The variable that a member declares, if it is a declaration.
fn declare_member(
    m: &Member,
    ids: &HashSet<u32>,
    hidden: &mut Vec<Hidden>,
) -> Result<(), AllocError>
    ensures { OnOk result (hidden.new.items ≡ hidden.old.items ++ hidden_by (member_declares m.now) (has ids.now)) }
{
    if let Member::Var(v) = m {
        hidden.push(hide(ids, v.name.id))?;
    }
    Ok(())
}

impl Assigned {
    /// What a function assigns.
    fn function(&self, k: u32, ids: &mut HashSet<u32>) -> Result<(), AllocError>
        ensures { (r : Assigning) → Agrees self.now r → OnOk result (Adds (r.by_fun k) (has ids.old) (has ids.new)) }
    {
        join_at(ids, self.functions.as_slice(), k)
    }

    /// What an instance assigns.
    fn instance(&self, k: u32, ids: &mut HashSet<u32>) -> Result<(), AllocError>
        ensures { (r : Assigning) → Agrees self.now r →
            OnOk result (Adds (r.by_instance k) (has ids.old) (has ids.new)) }
    {
        join_at(ids, self.instances.as_slice(), k)
    }

    /// What a call assigns besides its arguments.
    fn callee(&self, callee: Callee, ids: &mut HashSet<u32>) -> Result<(), AllocError>
        ensures { (r : Assigning) → Agrees self.now r →
            OnOk result (Adds (meant.callee_assigns r callee) (has ids.old) (has ids.new)) }
    {
        match callee {
            Callee::Function(k) => self.function(k, ids),
            Callee::Struct(_) => Ok(()),
        }
    }

    /// What an expression assigns.
    #[cycle(expressions)]
    fn expression(&self, e: &Expr, ids: &mut HashSet<u32>) -> Result<(), AllocError>
        ensures { (r : Assigning) → Agrees self.now r →
            OnOk result (Adds (meant.expr_assigns r e.now) (has ids.old) (has ids.new)) }
    {
        match e {
            Expr::Unit(_) => Ok(()),
            Expr::Bit(..) => Ok(()),
            Expr::Bool(..) => Ok(()),
            Expr::Int(..) => Ok(()),
            Expr::Variable(_) => Ok(()),
            Expr::Unary(_, _, a, _) => self.expression(a.get(), ids),
            Expr::Binary(_, _, a, b, _) => {
                self.expression(a.get(), ids)?;
                self.expression(b.get(), ids)
            }
            Expr::Index(a, i, _) => {
                self.expression(a.get(), ids)?;
                self.expression(i.get(), ids)
            }
            Expr::Slice(a, i, _, _) => {
                self.expression(a.get(), ids)?;
                self.expression(i.get(), ids)
            }
            Expr::Part(a, _, _, _) => self.expression(a.get(), ids),
            Expr::Call(_, callee, es) => {
                self.expressions(es.as_slice(), ids)?;
                self.callee(*callee, ids)
            }
            Expr::Array(es, _) => self.expressions(es.as_slice(), ids),
            Expr::Convert(_, a, _) => self.expression(a.get(), ids),
            Expr::Complex(_, a, b, _) => {
                self.expression(a.get(), ids)?;
                self.expression(b.get(), ids)
            }
        }
    }

    /// What expressions assign.
    #[cycle(expressions)]
    fn expressions(&self, es: &[Expr], ids: &mut HashSet<u32>) -> Result<(), AllocError>
        ensures { (r : Assigning) → Agrees self.now r →
            OnOk result (Adds (meant.exprs_assign r es.now) (has ids.old) (has ids.new)) }
    {
        for e in es {
            self.expression(e, ids)?;
        }
        Ok(())
    }

    /// What the indexes of a path assign.
    fn path(&self, path: &[Access], ids: &mut HashSet<u32>) -> Result<(), AllocError>
        ensures { (r : Assigning) → Agrees self.now r →
            OnOk result (Adds (meant.path_assigns r path.now) (has ids.old) (has ids.new)) }
    {
        for access in path {
            self.access(access, ids)?;
        }
        Ok(())
    }

    /// The same of one access.
    fn access(&self, access: &Access, ids: &mut HashSet<u32>) -> Result<(), AllocError>
        ensures { (r : Assigning) → Agrees self.now r →
            OnOk result (Adds (access_assigns r access.now) (has ids.old) (has ids.new)) }
    {
        match access {
            Access::Index(e, _) => self.expression(e, ids),
            Access::Slice(e, _, _) => self.expression(e, ids),
            Access::Part(..) => Ok(()),
        }
    }

    /// What an initial value assigns.
    fn initial(&self, e: &Option<Expr>, ids: &mut HashSet<u32>) -> Result<(), AllocError>
        ensures { (r : Assigning) → Agrees self.now r →
            OnOk result (Adds (meant.initial_assigns r e.now) (has ids.old) (has ids.new)) }
    {
        match e {
            None => Ok(()),
            Some(e) => self.expression(e, ids),
        }
    }

    /// What a statement assigns.
    #[cycle(statements)]
    fn statement(&self, alloc: Global, a: &Stmt, ids: &mut HashSet<u32>) -> Result<(), AllocError>
        ensures { (r : Assigning) → Agrees self.now r →
            OnOk result (Adds (meant.stmt_assigns r a.now) (has ids.old) (has ids.new)) }
    {
        match a {
            Stmt::Var(v) => self.initial(&v.initial, ids),
            Stmt::Assign(name, path, e) => {
                insert(ids, name.id)?;
                self.expression(e, ids)?;
                self.path(path.as_slice(), ids)
            }
            Stmt::Call(_, k, es) => {
                self.expressions(es.as_slice(), ids)?;
                self.function(*k, ids)
            }
            Stmt::Error(..) => Ok(()),
            Stmt::If(e, a, _) => {
                self.expression(e, ids)?;
                self.block(alloc, a.as_slice(), ids)
            }
            Stmt::IfElse(e, a, b, _) => {
                self.expression(e, ids)?;
                self.block(alloc, a.as_slice(), ids)?;
                self.block(alloc, b.as_slice(), ids)
            }
            Stmt::While(e, a, _) => {
                self.expression(e, ids)?;
                self.block(alloc, a.as_slice(), ids)
            }
            Stmt::For(_, a, n, b, _) => {
                self.expression(a, ids)?;
                self.expression(n, ids)?;
                self.block(alloc, b.as_slice(), ids)
            }
        }
    }

    /// What statements assign, but for what they declare.
    #[cycle(statements)]
    fn block(&self, alloc: Global, ss: &[Stmt], ids: &mut HashSet<u32>) -> Result<(), AllocError>
        ensures { (r : Assigning) → Agrees self.now r →
            OnOk result (Adds (meant.all_assign r ss.now []) (has ids.old) (has ids.new)) }
    {
        let hidden = self.statements(alloc, ss, ids)?;
        uncover(ids, hidden)
    }

    /// What statements assign, and which variables come into scope on the way.
    #[cycle(statements)]
    fn statements(
        &self,
        alloc: Global,
        ss: &[Stmt],
        ids: &mut HashSet<u32>,
    ) -> Result<Vec<Hidden>, AllocError>
        ensures { (r : Assigning) → Agrees self.now r →
            IfOk result (λ hidden. Opens r ss.now (has ids.old) (has ids.new) hidden.items) }
    {
        let mut hidden = Vec::new(alloc);
        for a in ss {
            self.statement(alloc, a, ids)?;
            declare(a, ids, &mut hidden)?;
        }
        Ok(hidden)
    }

    /// What a body assigns.
    fn body(&self, alloc: Global, body: &Body, ids: &mut HashSet<u32>) -> Result<(), AllocError>
        ensures { (r : Assigning) → Agrees self.now r →
            OnOk result (Adds (meant.body_assigns r body.now) (has ids.old) (has ids.new)) }
    {
        let hidden = self.statements(alloc, body.statements.as_slice(), ids)?;
        if let Some(r) = &body.result {
            self.expression(&r.value, ids)?;
        }
        uncover(ids, hidden)
    }

    /// What a component assigns.
    #[cycle(components)]
    fn join_component(
        &self,
        alloc: Global,
        c: &Comp,
        ids: &mut HashSet<u32>,
    ) -> Result<(), AllocError>
        ensures { (r : Assigning) → Agrees self.now r →
            OnOk result (Adds (meant.assigns r c.now) (has ids.old) (has ids.new)) }
    {
        match c {
            Comp::Take(_) => Ok(()),
            Comp::Takes(..) => Ok(()),
            Comp::Emit(e, _) => self.expression(e, ids),
            Comp::Emits(e, _) => self.expression(e, ids),
            Comp::Return(e, _) => self.expression(e, ids),
            Comp::Do(body, _) => self.body(alloc, body, ids),
            Comp::Repeat(c, _) => self.join_component(alloc, c.get(), ids),
            Comp::While(_, e, c, _) => {
                self.expression(e, ids)?;
                self.join_component(alloc, c.get(), ids)
            }
            Comp::Times(e, c, _) => {
                self.expression(e, ids)?;
                self.join_component(alloc, c.get(), ids)
            }
            Comp::For(_, a, n, c, _) => {
                self.expression(a, ids)?;
                self.expression(n, ids)?;
                self.join_component(alloc, c.get(), ids)
            }
            Comp::If(e, a, b, _) => {
                self.expression(e, ids)?;
                self.join_component(alloc, a.get(), ids)?;
                self.join_component(alloc, b.get(), ids)
            }
            Comp::Map(_, k, _) => self.function(*k, ids),
            Comp::Filter(_, k, _) => self.function(*k, ids),
            Comp::Call(_, k, es) => {
                self.expressions(es.as_slice(), ids)?;
                self.instance(*k, ids)
            }
            Comp::Block(ms, _) => self.members(alloc, ms.as_slice(), ids),
            Comp::Pipe(_, a, b, _) => {
                self.join_component(alloc, a.get(), ids)?;
                self.join_component(alloc, b.get(), ids)
            }
        }
    }

    /// What a member assigns.
    #[cycle(components)]
    fn member(&self, alloc: Global, m: &Member, ids: &mut HashSet<u32>) -> Result<(), AllocError>
        ensures { (r : Assigning) → Agrees self.now r →
            OnOk result (Adds (member_assigns r m.now) (has ids.old) (has ids.new)) }
    {
        match m {
            Member::Bind(_, c) => self.join_component(alloc, c, ids),
            Member::Var(v) => self.initial(&v.initial, ids),
            Member::Run(c) => self.join_component(alloc, c, ids),
        }
    }

    /// What members assign, but for what they declare.
    #[cycle(components)]
    fn members(
        &self,
        alloc: Global,
        ms: &[Member],
        ids: &mut HashSet<u32>,
    ) -> Result<(), AllocError>
        ensures { (r : Assigning) → Agrees self.now r →
            OnOk result (Adds (members_then r ms.now []) (has ids.old) (has ids.new)) }
    {
        let mut hidden = Vec::new(alloc);
        for m in ms {
            self.member(alloc, m, ids)?;
            declare_member(m, ids, &mut hidden)?;
        }
        uncover(ids, hidden)
    }

    /// What each of these functions assigns, over those before it.
    fn of_functions(alloc: Global, functions: &[Function]) -> Result<Assigned, AllocError>
        ensures { IfOk result (λ made. AgreesAlone made (meant.fun_assigns functions.now)) }
    {
        let mut made = Assigned {
            functions: Vec::new(alloc),
            instances: Vec::new(alloc),
        };
        for f in functions {
            let mut ids = HashSet::new(alloc);
            made.body(alloc, &f.body, &mut ids)?;
            made.functions.push(ids)?;
        }
        Ok(made)
    }

    /// What each of these functions and instances assigns, over those before it.
    pub fn of(
        alloc: Global,
        functions: &[Function],
        instances: &[Instance],
    ) -> Result<Assigned, AllocError>
        ensures { IfOk result (λ made. Agrees made (meant.assigning functions.now instances.now)) }
    {
        let mut made = Assigned::of_functions(alloc, functions)?;
        for i in instances {
            let mut ids = HashSet::new(alloc);
            made.join_component(alloc, &i.body, &mut ids)?;
            made.instances.push(ids)?;
        }
        Ok(made)
    }

    /// The variables that a component assigns.
    pub fn component(&self, alloc: Global, c: &Comp) -> Result<Set, AllocError>
        ensures { (r : Assigning) → Agrees self.now r → IfOk result (λ set. Holds set (meant.assigns r c.now)) }
    {
        let mut ids = HashSet::new(alloc);
        self.join_component(alloc, c, &mut ids)?;
        Ok(Set { ids })
    }
}
