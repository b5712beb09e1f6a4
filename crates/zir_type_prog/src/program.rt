// The walk of declarations and programs.

ghost use Rattle.std.specs.Prelude.{◌≡◌, reverse, IfOk, OnOk, MatchResult};
ghost use Rattle.std.specs.Option.{option_copied};
ghost use Rattle.zir_types.specs.Walk.{Told, Refuses, Fine};
ghost use Rattle.zir_types.specs.Scope.{declare as declaring};
ghost use Rattle.zir_types.specs.Statements.{fun_body, seen_var as seen_of};
ghost use Rattle.zir_types.specs.Expressions.{all_same as alike};
ghost use Rattle.zir_types.specs.Components.{comp, emitted as emission};
ghost use Rattle.zir_types.specs.Programs.{field_defs as field_list, shape_of as shape_walk, with_top as top_walk};
ghost use Rattle.zir_types.specs.Programs.{with_struct as struct_walk, result_of as result_walk, written_ty};
ghost use Rattle.zir_types.specs.Programs.{result_ty as given_ty, written_what as written_part};
ghost use Rattle.zir_types.specs.Programs.{with_function as function_walk, with_comp as comp_walk};
ghost use Rattle.zir_types.specs.Programs.{declaration, declarations, none_declared, makers, streams as streaming};
ghost use Rattle.zir_types.specs.Programs.{stream as stream_walk, defs_of as def_list, main_of, program};
ghost use Rattle.zir_type_components.specs.Answers.{ToldIn};
ghost use Rattle.zir_type_prog.specs.Declarations.{declared_in, ToldDeclared};

use sqlite_items::Items;
use std::alloc::{AllocError, Global};
use zir_tree::comp::Comp;
use zir_tree::name::Name;
use zir_tree::program::{CompFunction, Core, Decl, Function, Instance, Prog, Struct};
use zir_tree::stmt::Var;
use zir_tree::types::{Base, Field, FieldDef, StructDef, Ty, TypeExpr};
use zir_type_bodies::body::{type_fun_body, type_heading};
use zir_type_bodies::rules::{enter, seen_var};
use zir_type_bodies::statement::type_var;
use zir_type_components::component::type_comp;
use zir_type_components::comps::{Comps, PreparedComp, Site};
use zir_types::cells::all_cells;
use zir_types::error::TypeError;
use zir_types::kinds::{copy, is_bool, is_struct, same, scalar};
use zir_types::scope::{Scope, Shape, Signature, copy_ident};
use zir_types::typed::{Heading, TypedBody, TypedComp, TypedVar, Written};

/// The declarations so far: what they bring into scope, and the `fun comp`s in the order of the text.
#[derive(Debug, Drop)]
pub struct SoFar<'a> {
    pub scope: Scope,
    pub variables: Items<Var>,
    pub functions: Items<Function>,
    pub comps: Vec<PreparedComp<'a>>,
}

/// Before the first declaration.
fn nothing_yet<'a>(alloc: Global) -> SoFar<'a>
    ensures { declared_in result ≡ none_declared }
{
    SoFar {
        scope: Scope::new(alloc),
        variables: Items::new(alloc),
        functions: Items::new(alloc),
        comps: Vec::new(alloc),
    }
}

/// A field of a struct's definition, with its type.
fn field_def(alloc: Global, field: &Field, ty: &Ty) -> Result<FieldDef, AllocError>
    ensures { IfOk result (λ def. def ≡ record { name = field.now.name.name; ty = ty.now }) }
{
    let name = Name::from_slice(alloc, field.name.name.as_slice())?;
    let ty = copy(alloc, ty)?;
    Ok(FieldDef { name, ty })
}

/// The fields of a struct's definition, with their names and types.
fn field_defs(alloc: Global, fields: &[Field], types: &[Ty]) -> Result<Items<FieldDef>, AllocError>
    ensures { IfOk result (λ defs. defs ≡ field_list fields.now types.now) }
{
    let mut defs = Items::new(alloc);
    let mut left = types;
    for field in fields {
        match left {
            [] => return Ok(defs),
            [ty, more @ ..] => {
                let def = field_def(alloc, field, ty)?;
                defs.push(def)?;
                left = more;
            }
        }
    }
    Ok(defs)
}

/// A struct with these fields.
fn make_shape(alloc: Global, shapes: &[Shape], s: &Struct, h: &Heading) -> Result<Shape, AllocError>
    ensures { IfOk result (λ made. made ≡ shape_walk shapes.now s.now h.now) }
{
    let name = Name::from_slice(alloc, s.name.name.as_slice())?;
    let fields = field_defs(alloc, h.fields.as_slice(), h.types.as_slice())?;
    Ok(Shape {
        id: s.name.id,
        def: StructDef { name, fields },
        cells: all_cells(shapes, h.types.as_slice()),
    })
}

/// What a variable brings into scope comes into it.
fn enter_var(alloc: Global, scope: &mut Scope, v: &TypedVar) -> Result<(), AllocError>
    ensures { OnOk result (scope.new ≡ declaring (seen_of v.now) scope.old) }
{
    let seen = seen_var(alloc, v)?;
    enter(alloc, scope, seen.as_slice())
}

/// A top variable is declared.
fn with_top(alloc: Global, d: &mut SoFar<'_>, v: TypedVar) -> Result<(), TypeError>
    ensures { ToldDeclared (top_walk (declared_in d.old) v) result (declared_in d.new) }
{
    enter_var(alloc, &mut d.scope, &v)?;
    let TypedVar { what, ty: _ } = v;
    d.variables.push(what)?;
    Ok(())
}

/// A struct is declared.
fn with_struct(alloc: Global, d: &mut SoFar<'_>, s: &Struct, h: Heading) -> Result<(), TypeError>
    ensures { ToldDeclared (struct_walk (declared_in d.old) s.now h) result (declared_in d.new) }
{
    let made = make_shape(alloc, d.scope.shapes(), s, &h)?;
    d.scope.add_shape(made)?;
    Ok(())
}

/// The written result of a function, where there is one.
fn result_of(
    alloc: Global,
    scope: &Scope,
    ty: &Option<TypeExpr>,
) -> Result<Option<Written>, TypeError>
    ensures { Told (result_walk scope.now.shapes ty.now) result }
{
    match ty {
        None => Ok(None),
        Some(ty) => {
            let written = scope.written(alloc, ty)?;
            Ok(Some(written))
        }
    }
}

/// The type of a written result.
fn written_type(written: &Option<Written>) -> Option<&Ty>
    ensures { option_copied result ≡ written_ty written.now }
{
    match written {
        None => None,
        Some(w) => Some(&w.ty),
    }
}

/// The type of a function's result, unit where none is written.
fn result_type(alloc: Global, written: &Option<Written>) -> Result<Ty, AllocError>
    ensures { IfOk result (λ ty. ty ≡ given_ty (written_ty written.now)) }
{
    match written {
        None => Ok(scalar(alloc, Base::Unit)),
        Some(w) => copy(alloc, &w.ty),
    }
}

/// A written result.
fn written_what(written: Option<Written>) -> Option<TypeExpr>
    ensures { result ≡ written_part written }
{
    match written {
        None => None,
        Some(w) => Some(w.what),
    }
}

/// What a function of this heading and result is called by.
fn signature(
    alloc: Global,
    f: &Function,
    params: Items<Ty>,
    written: &Option<Written>,
) -> Result<Signature, AllocError>
    ensures { IfOk result (λ s. s ≡ record {
      id = f.now.name.id;
      params = params;
      result = given_ty (written_ty written.now);
    }) }
{
    let result = result_type(alloc, written)?;
    Ok(Signature {
        id: f.name.id,
        params,
        result,
    })
}

/// A function with its types.
fn typed_function(
    alloc: Global,
    f: &Function,
    params: Items<Field>,
    written: Option<Written>,
    body: TypedBody,
) -> Result<Function, AllocError>
    ensures { IfOk result (λ made. made ≡ record {
      name = f.now.name;
      params = params;
      result = written_part written;
      body = body.what;
      at = f.now.at;
    }) }
{
    let name = copy_ident(alloc, &f.name)?;
    Ok(Function {
        name,
        params,
        result: written_what(written),
        body: body.what,
        at: f.at,
    })
}

/// A function is declared; those behind it see it.
fn with_function(
    alloc: Global,
    d: &mut SoFar<'_>,
    f: &Function,
    h: Heading,
    written: Option<Written>,
    body: TypedBody,
) -> Result<(), TypeError>
    ensures { ToldDeclared (function_walk (declared_in d.old) f.now h written body) result (declared_in d.new) }
{
    let Heading {
        fields,
        types,
        seen: _,
    } = h;
    let called = signature(alloc, f, types, &written)?;
    d.scope.add_function(called)?;
    let made = typed_function(alloc, f, fields, written, body)?;
    d.functions.push(made)?;
    Ok(())
}

/// A `fun comp` is declared.
fn with_comp<'a>(d: &mut SoFar<'a>, c: &'a CompFunction, h: Heading) -> Result<(), TypeError>
    ensures { ToldDeclared (comp_walk (declared_in d.old) c.now h) result (declared_in d.new) }
{
    d.comps.push(PreparedComp::new(c.name.id, h, &c.body))?;
    Ok(())
}

/// The body of a function, whose parameters are in scope in it.
fn type_function_body(
    alloc: Global,
    scope: &mut Scope,
    f: &Function,
    h: &Heading,
    written: &Option<Written>,
) -> Result<TypedBody, TypeError>
    ensures told { let inside = declaring h.now.seen scope.old in
        Told (fun_body inside (written_ty written.now) f.now.at f.now.body) result }
    ensures seen { OnOk result (scope.new ≡ scope.old) }
{
    let before = scope.depth();
    enter(alloc, scope, h.seen.as_slice())?;
    let body = type_fun_body(alloc, scope, written_type(written), f.at, &f.body)?;
    scope.leave(before);
    Ok(body)
}

/// A function behind these declarations.
fn type_function(alloc: Global, d: &mut SoFar<'_>, f: &Function) -> Result<(), TypeError>
    ensures { ToldDeclared (declaration (declared_in d.old) (Decl.Function f.now)) result (declared_in d.new) }
{
    let h = type_heading(alloc, &d.scope, f.params.as_slice())?;
    let written = result_of(alloc, &d.scope, &f.result)?;
    let body = type_function_body(alloc, &mut d.scope, f, &h, &written)?;
    with_function(alloc, d, f, h, written, body)
}

/// A declaration behind these.
fn type_declaration<'a>(alloc: Global, d: &mut SoFar<'a>, x: &'a Decl) -> Result<(), TypeError>
    ensures { ToldDeclared (declaration (declared_in d.old) x.now) result (declared_in d.new) }
{
    match x {
        Decl::Var(v) => {
            let v = type_var(alloc, &d.scope, v)?;
            with_top(alloc, d, v)
        }
        Decl::Struct(s) => {
            let h = type_heading(alloc, &d.scope, s.fields.as_slice())?;
            with_struct(alloc, d, s, h)
        }
        Decl::Function(f) => type_function(alloc, d, f),
        Decl::Comp(c) => {
            let h = type_heading(alloc, &d.scope, c.params.as_slice())?;
            with_comp(d, c, h)
        }
    }
}

/// Declarations one after the other.
fn type_declarations(alloc: Global, xs: &[Decl]) -> Result<SoFar<'_>, TypeError>
    ensures { let walk = declarations none_declared xs.now in
        MatchResult result (λ d. walk ≡ Fine (declared_in d)) (Refuses walk) }
{
    let mut d = nothing_yet(alloc);
    for x in xs {
        type_declaration(alloc, &mut d, x)?;
    }
    Ok(d)
}

/// Whether a stream may hold this.
fn streams(base: Base) -> bool
    ensures { result ≡ streaming base }
{
    !(is_bool(base) || is_struct(base))
}

/// The type that a program reads or writes, at the first token of it.
fn stream(alloc: Global, scope: &Scope, ty: &TypeExpr) -> Result<Ty, TypeError>
    ensures { Told (stream_walk scope.now.shapes ty.now) result }
{
    let written = scope.written(alloc, ty)?;
    if !streams(written.ty.base) {
        return Err(TypeError::NotStreamType(ty.at));
    }
    Ok(written.ty)
}

/// A copy of the definition of a struct.
fn copy_def(alloc: Global, def: &StructDef) -> Result<StructDef, AllocError>
    ensures { IfOk result (λ made. made ≡ def.now) }
{
    let name = Name::from_slice(alloc, def.name.as_slice())?;
    let mut fields = Items::new(alloc);
    for field in def.fields.as_slice() {
        let name = Name::from_slice(alloc, field.name.as_slice())?;
        let ty = copy(alloc, &field.ty)?;
        fields.push(FieldDef { name, ty })?;
    }
    Ok(StructDef { name, fields })
}

/// The definitions of the structs.
fn defs_of(alloc: Global, shapes: &[Shape]) -> Result<Items<StructDef>, AllocError>
    ensures { IfOk result (λ defs. defs ≡ def_list shapes.now) }
{
    let mut defs = Items::new(alloc);
    for shape in shapes {
        let def = copy_def(alloc, &shape.def)?;
        defs.push(def)?;
    }
    Ok(defs)
}

/// Whether this type alone is emitted, or nothing.
fn emits_only(ty: &Ty, emits: &Option<Ty>) -> bool
    ensures { result ≡ alike ty.now (emission emits.now) }
{
    match emits {
        None => true,
        Some(t) => same(ty, t),
    }
}

/// The main component at the type that a program reads, and the instances that it reaches.
fn type_main(
    alloc: Global,
    scope: &mut Scope,
    comps: Vec<PreparedComp<'_>>,
    input: &Ty,
    main: &Comp,
    instances: &mut Items<Instance>,
) -> Result<TypedComp, TypeError>
    ensures { ToldIn (comp (makers scope.old (reverse comps.entry.items)) scope.old 0 input.now main.now instances.old)
        result instances.new scope.old scope.new }
{
    let comps = Comps::new(comps);
    let site = Site {
        comps: &comps,
        from: 0,
        around: 0,
        depth: scope.depth(),
    };
    type_comp(alloc, scope, site, input, main, instances)
}

/// The main component between the type that a program reads and the type that it writes.
fn finish(alloc: Global, p: &Prog, d: SoFar<'_>) -> Result<Core, TypeError>
    ensures { Told (main_of p.now (declared_in d.entry)) result }
{
    let SoFar {
        mut scope,
        variables,
        functions,
        comps,
    } = d;
    let input = stream(alloc, &scope, &p.input)?;
    let mut instances = Items::new(alloc);
    let main = type_main(alloc, &mut scope, comps, &input, &p.main, &mut instances)?;
    let output = stream(alloc, &scope, &p.output)?;
    if !emits_only(&output, &main.emits) {
        return Err(TypeError::Mismatch(p.output.at));
    }
    let structs = defs_of(alloc, scope.shapes())?;
    Ok(Core {
        structs,
        variables,
        functions,
        instances,
        main: main.what,
        input,
        output,
        value: main.value,
        at: p.at,
    })
}

/// The types of a program whose names are resolved: its core, with every part typed and an instance of each `fun comp`
/// for each type that it is called at, in the order in which their bodies end; or the first refusal in the order of the
/// walk, at its place. `TypeError::Memory` says only that memory ran out.
pub fn type_prog(alloc: Global, p: &Prog) -> Result<Core, TypeError>
    ensures { Told (program p.now) result }
{
    let declared = type_declarations(alloc, p.declarations.as_slice())?;
    finish(alloc, p, declared)
}
