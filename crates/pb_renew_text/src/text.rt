//! The text that is wanted, with old bodies.

ghost use Rattle.std.specs.Prelude.{◌≡◌, ◌++◌, true, length, map, IfOk, IsTrue, OnOk};
ghost use Rattle.std.specs.List.{All};
ghost use Rattle.pb_local.specs.Names.{is_name};
ghost use Rattle.pb_typed_frame.specs.Functions.{Named};
ghost use Rattle.pb_ctree.specs.Bodies.{is_body};
ghost use Rattle.pb_ctree.specs.Functions.{default_of};
ghost use Rattle.pb_ctree.specs.Trees.{IsTree};
ghost use Rattle.pb_kernels.specs.Names.{body_of};
ghost use Rattle.pb_renew_text.specs.Texts.{IsPrinted, IsRenewed, allows, body_for, default_in, functions_of, goes_on, labels_of, was_open};

use crate::Wanted;
use pb_cprint::print_c;
use pb_kernels::{Bodies, Body, KName, KernelFile, Kind, NoMemory};
use pb_text::Name;
use pb_typed_frame::{Function, Role, body_name, default_of, program_functions};
use pb_typed_print::print_program;
use pb_typed_types::{Carried, Form};
use std::alloc::Global;

const PRELUDE: KName = KName {
    kind: Kind::Prelude,
    name: None,
};

/// What the labels carry; nothing is said of them in a plain text, where they carry their words.
fn labels_of(form: &Form) -> &[Carried]
    ensures { result.now ≡ labels_of form.now }
{
    match form {
        Form::Plain => &[],
        Form::Program(types) => &types.labels,
    }
}

/// The functions of a text, in printed order.
#[tactic(auto, using(crate::proofs::Texts::named))]
pub fn wanted_functions(alloc: Global, wanted: &Wanted) -> Result<Vec<Function>, NoMemory>
    requires { IsTree wanted.now.tree }
    ensures list { IfOk result (λ list. list.items ≡ functions_of wanted.now) }
    ensures named { IfOk result (λ list. All Named list.items) }
{
    program_functions(alloc, &wanted.tree.local, labels_of(&wanted.form))
}

/// The text that is wanted: each function with its old body where its parameters allow it, and else the default one, and with the
/// old prelude.
pub fn wanted_text(alloc: Global, wanted: &Wanted, old: &KernelFile) -> Result<Vec<u8>, NoMemory>
    requires { IsTree wanted.now.tree }
    ensures { IfOk result (λ text. IsRenewed old.now wanted.now text.items) }
{
    let functions = wanted_functions(alloc, wanted)?;
    let prelude = body_in(alloc, old, &PRELUDE)?;
    let mut list = Vec::new(alloc);
    push_bodies(alloc, &wanted.form, &functions, old, &mut list)?;
    printed(alloc, wanted, &Bodies { prelude, list })
}

/// The text with these bodies.
fn printed(alloc: Global, wanted: &Wanted, bodies: &Bodies) -> Result<Vec<u8>, NoMemory>
    requires made { IsTree wanted.now.tree }
    requires many { length bodies.now.list.items ≡ length (functions_of wanted.now) }
    ensures { IfOk result (λ text. IsPrinted wanted.now.form wanted.now.tree bodies.now text.items) }
{
    match &wanted.form {
        Form::Plain => print_c(alloc, &wanted.tree, bodies),
        Form::Program(types) => print_program(alloc, &wanted.tree, types, bodies),
    }
}

fn push_bodies(
    alloc: Global,
    form: &Form,
    functions: &[Function],
    old: &KernelFile,
    out: &mut Vec<Body>,
) -> Result<(), NoMemory>
    requires { All Named functions.now }
    ensures { OnOk result (out.new.items ≡ out.old.items ++ map (λ f. body_for form.now old.now f) functions.now) }
{
    for function in functions {
        out.push(body_for(alloc, form, old, function)?)?;
    }
    Ok(())
}

/// A function's old body, where one goes on, and else the default one.
fn body_for(
    alloc: Global,
    form: &Form,
    old: &KernelFile,
    function: &Function,
) -> Result<Body, NoMemory>
    requires { IsTrue (is_name function.now.name) }
    ensures { IfOk result (λ body. body ≡ body_for form.now old.now function.now) }
{
    if goes_on(old, function) {
        body_in(alloc, old, &body_name(function))
    } else {
        default_in(alloc, form, function)
    }
}

/// True where a function has an old body that its parameters allow.
fn goes_on(old: &KernelFile, function: &Function) -> bool
    ensures { result ≡ goes_on old.now function.now }
{
    old.has(&body_name(function)) && allows(old, function)
}

/// True where a function's parameters allow the old body with its name.
fn allows(old: &KernelFile, function: &Function) -> bool
    ensures { result ≡ allows old.now function.now.role function.now.name }
{
    match function.role {
        Role::Makes | Role::Takes => !was_open(old, function.name),
        Role::MakesOwn => was_open(old, function.name),
        Role::GivesRoom | Role::TakesOwn | Role::Computes | Role::Chooses => true,
    }
}

/// True where the elements of the label with this name were in the kernels' own memory.
fn was_open(old: &KernelFile, label: Name) -> bool
    ensures { result ≡ was_open old.now label }
{
    old.has(&KName {
        kind: Kind::Room,
        name: Some(label),
    })
}

/// The body where nothing else is given.
pub fn default_in(alloc: Global, form: &Form, function: &Function) -> Result<Body, NoMemory>
    requires { IsTrue (is_name function.now.name) }
    ensures { IfOk result (λ body. body ≡ default_in form.now function.now) }
{
    match form {
        Form::Plain => plain_default(alloc, body_name(function).kind),
        Form::Program(_) => default_of(alloc, function),
    }
}

/// The old body with this name; an empty one where there is none.
fn body_in(alloc: Global, old: &KernelFile, name: &KName) -> Result<Body, NoMemory>
    ensures { IfOk result (λ body. body ≡ body_of name.now old.now) }
{
    copied(alloc, old.bytes_of(name))
}

/// The body of a function of a plain text where nothing else is given.
fn plain_default(alloc: Global, kind: Kind) -> Result<Body, NoMemory>
    ensures { IfOk result (λ body. body ≡ default_of kind) }
{
    match kind {
        Kind::Choice => copied(alloc, b"  return 0;\n"),
        Kind::Prelude | Kind::Compute | Kind::Make | Kind::Take | Kind::Room => copied(alloc, b""),
    }
}

/// A body of these lines.
fn copied(alloc: Global, lines: &[u8]) -> Result<Body, NoMemory>
    requires { is_body lines.now ≡ true }
    ensures { IfOk result (λ body. body ≡ lines.now) }
{
    let mut bytes = Vec::new(alloc);
    bytes.extend_from_slice(lines)?;
    match Body::of(bytes) {
        Some(body) => Ok(body),
        None => unreachable!(),
    }
}
