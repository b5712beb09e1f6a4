// The code of functions, each over those before it.

ghost use Rattle.std.specs.Prelude.{◌≡◌, ◌<◌, ◌^◌, List, [], IfOk, OnOk};
ghost use Rattle.zir_code.specs.Bodies as bodies;
ghost use Rattle.zir_code.specs.Needs as cells;
ghost use Rattle.zir_code.specs.Program.{at_top, more_signatures};
ghost use Rattle.zir_code.specs.Scopes.{Scope};
ghost use Rattle.zir_compile.specs.Coded.{Grows};
ghost use Rattle.zir_compile.specs.Makes.{Makes};
ghost use Rattle.zir_compile.specs.Names.{scope_of};
ghost use Rattle.zir_compile.specs.Signing as signing;
ghost use Rattle.zir_compile.specs.Stated.{Moved};

use crate::made::{Block, Parameters};
use crate::moves::settling;
use crate::numbers::{Unmade, sum};
use crate::scope::Names;
use crate::statements::type_of;
use crate::structs::Structs;
use sqlite_items::Items;
use std::alloc::{AllocError, Global};
use zir_code::scope::{Holder, Signature};
use zir_expr::frame::Spot;
use zir_expr::steps::{Code, Step};
use zir_shared::Shared;
use zir_tree::program::Function;
use zir_tree::stmt::{Body, Return};
use zir_tree::types::{Base, Field, StructDef, Ty, TypeExpr};

/// The variables of parameters, one behind the other from the first cell on.
pub fn parameters(alloc: Global, structs: &Structs, params: &[Field]) -> Result<Parameters, Unmade>
    ensures { (g : Scope) → g.structs ≡ structs.now →
        Makes (bodies.cells_of_all g params.now < 2 ^ 32) (signing.AreParameters g params.now) result }
{
    let mut holders = Vec::new(alloc);
    let mut free = 0u32;
    for p in params {
        let ty = type_of(alloc, &p.ty)?;
        let next = sum(free, structs.cells(&ty))?;
        holders.push(Holder {
            id: p.name.id,
            spot: Spot::Local(free),
            cells: next - free,
            ty,
        })?;
        free = next;
    }
    Ok(Parameters { holders, free })
}

/// The types of parameters.
pub fn types_of(alloc: Global, params: &[Field]) -> Result<Items<Ty>, AllocError>
    ensures { IfOk result (λ made. made ≡ signing.types_of params.now) }
{
    let mut made = Items::new(alloc);
    for p in params {
        let ty = type_of(alloc, &p.ty)?;
        made.push(ty)?;
    }
    Ok(made)
}

/// The type of a function's value.
fn type_given(alloc: Global, given: &Option<TypeExpr>) -> Result<Ty, AllocError>
    ensures { IfOk result (λ made. made ≡ signing.type_given given.now) }
{
    match given {
        None => Ok(Ty {
            lengths: Items::new(alloc),
            base: Base::Unit,
        }),
        Some(ty) => type_of(alloc, ty),
    }
}

/// The signature of a function with this code, which needs so many cells.
fn signed(
    alloc: Global,
    f: &Function,
    needs: u32,
    steps: Items<Step>,
) -> Result<Signature, AllocError>
    ensures { IfOk result (λ made. made ≡ signing.with_code f.now needs steps) }
{
    let params = types_of(alloc, f.params.as_slice())?;
    let result_type = type_given(alloc, &f.result)?;
    let code = Shared::new(alloc, Code { steps })?;
    Ok(Signature {
        params,
        result: result_type,
        needs,
        code,
    })
}

impl Names {
    /// Adds the code of the value of a body, which goes to the body's first cells, and answers the first cell behind
    /// all that it uses.
    fn returned(
        &self,
        alloc: Global,
        r: &Option<Return>,
        d: u32,
        steps: &mut Vec<Step>,
    ) -> Result<u32, Unmade>
        ensures { let g = scope_of self.now in
            Makes (signing.ResultFits g r.now d) (Grows (bodies.result_code g d r.now) (cells.result_peak g d r.now)
            steps.old.items steps.new.items) result }
    {
        match r {
            None => Ok(d),
            Some(r) => {
                let x = self.expression(alloc, &r.value, d, steps)?;
                let n = sum(0, x.cells)?;
                settling(x.at, 0, n, steps)?;
                Ok(x.peak.max(n))
            }
        }
    }

    /// The code of a body whose parameters are in scope.
    fn body(&mut self, alloc: Global, body: &Body, d: u32) -> Result<Block, Unmade>
        ensures moved { Moved self.old self.new }
        ensures code { let g = scope_of self.old in
            Makes (signing.BodyFits g d body.now.statements body.now.result)
            (signing.Bodied g d body.now.statements body.now.result) result }
    {
        let mut steps = Vec::new(alloc);
        let reach = self.row(alloc, body.statements.as_slice(), d, &mut steps)?;
        let peak = self.returned(alloc, &body.result, reach.free, &mut steps)?;
        Ok(Block {
            steps: Items::from_vec(steps),
            peak: reach.peak.max(peak),
        })
    }

    /// The signature of a function over the top variables and the functions before it.
    fn function(&mut self, alloc: Global, f: &Function) -> Result<Signature, Unmade>
        ensures below { signing.Below self.old self.new }
        ensures made { let old = scope_of self.old in let g = at_top old.structs old.tops old.funs in
            Makes (signing.FunctionFits g f.now) (λ made. made ≡ signing.signature_in g f.now) result }
    {
        let Parameters { holders, free } = parameters(alloc, &self.structs, f.params.as_slice())?;
        self.locals = holders;
        let block = self.body(alloc, &f.body, free)?;
        let signature = signed(alloc, f, block.peak, block.steps)?;
        Ok(signature)
    }

    /// The same where calls of the function have code.
    fn signature_of(&mut self, alloc: Global, f: &Function) -> Result<Option<Signature>, AllocError>
        ensures below { signing.Below self.old self.new }
        ensures made { let old = scope_of self.old in
            IfOk result (λ made. made ≡ signing.signature_of (at_top old.structs old.tops old.funs) f.now) }
    {
        match self.function(alloc, f) {
            Ok(signature) => Ok(Some(signature)),
            Err(Unmade::Large) => Ok(None),
            Err(Unmade::Memory(error)) => Err(error),
        }
    }

    /// These structs, these top variables, and the signatures of these functions, each over those before it. A function
    /// has none where 32 bits do not hold the numbers of its code.
    pub fn of_functions(
        alloc: Global,
        structs: &[StructDef],
        tops: Items<Holder>,
        functions: &[Function],
    ) -> Result<Names, AllocError>
        ensures { IfOk result (λ names. scope_of names ≡
            at_top structs.now tops (more_signatures signing.no_signature 0
            (signing.signatures_of structs.now tops functions.now))) }
    {
        let structs = Structs::of(alloc, structs)?;
        let mut names = Names {
            structs,
            tops,
            locals: Vec::new(alloc),
            functions: Vec::new(alloc),
        };
        for f in functions {
            let made = names.signature_of(alloc, f)?;
            names.functions.push(made)?;
        }
        names.locals.truncate(0);
        Ok(names)
    }
}
