//! Reading a plan and its models, and deriving its Things.

ghost use Rattle.std.specs.Prelude.{◌≡◌, ◌++◌, [], true, IfOk, OnOk};
ghost use Rattle.servient_trace.specs.Trace.{Outside};
ghost use Rattle.std.specs.List.{AllByRecursion};
ghost use Rattle.wot_forms.specs.Segments.{is_plain_segment};
ghost use Rattle.wot_terms.specs.Faults.{IsValid};
ghost use Rattle.wot_terms.specs.ThingLists.{kept_thing, kept_things};
ghost use Rattle.servient_plan.specs.Plan.{MayBeServed};
ghost use Rattle.command_stages.specs.Stages.{AndThen, Around, around};
ghost use Rattle.command_stages.specs.Reading.{ReadsFile, longest_json};
ghost use Rattle.command_stages.specs.Deriving.{AddsModel, Derives, DerivesAndPrints, ReadsPlan, ReadsPlanned, TakesModel, TakesModels, thing_text, things_text};
ghost use Rattle.command_stages.specs.Ending.{EndsBy, Performs};

use crate::ending::{Ended, Ending, end_with};
use crate::fault_lines::refused;
use crate::reading::{LONGEST_JSON, read_file, read_tree};
use servient_outside::Files;
use servient_plan::{ModelFiles, Plan, PlanFault};
use std::alloc::Global;
use tm_derive::derive;
use tm_parts::{AddFault, Library};
use wot_json::{Bytes, NoMemory, Text, Tree, text_of};
use wot_terms::{Thing, Things};

/// A plan, and the library of its models.
#[derive(Drop)]
pub struct Planned {
    pub plan: Plan,
    pub library: Library,
}

/// Reads a plan and its models, derives the root, and prints the descriptions of its Things.
pub fn derive_plan<F: Files>(alloc: Global, name: &str, files: &mut F) -> Result<Ending, Ended>
    ensures { (w : Outside) → EndsBy (AndThen (ReadsPlanned (F.seen files.old).held name.now) DerivesAndPrints) (around (F.seen files.old) w) (around (F.seen files.new) w) result }
{
    let planned = read_planned(alloc, name, files)?;
    derive_and_print(alloc, &planned)
}

/// Derives the root of a plan, and prints the descriptions of its Things.
fn derive_and_print(alloc: Global, planned: &Planned) -> Result<Ending, Ended>
    ensures { (a : Around) → EndsBy (DerivesAndPrints planned.now) a a result }
{
    let things = derive_things(alloc, planned)?;
    Ok(printed(alloc, things.as_slice())?)
}

/// Reads a plan and then its models.
pub fn read_planned<F: Files>(alloc: Global, name: &str, files: &mut F) -> Result<Planned, Ended>
    ensures stage { (w : Outside) → Performs (ReadsPlanned (F.seen files.old).held name.now) (around (F.seen files.old) w) (around (F.seen files.new) w) result }
    ensures held { (F.seen files.new).held ≡ (F.seen files.old).held }
    ensures served { IfOk result (λ p. MayBeServed p.plan) }
{
    let content = read_file(alloc, name, LONGEST_JSON, files)?;
    let tree = read_tree(alloc, name, content.as_slice())?;
    let plan = read_plan(alloc, name, &tree)?;
    let library = take_models(alloc, &plan.models, files)?;
    Ok(Planned { plan, library })
}

/// The plan that a tree is.
fn read_plan(alloc: Global, name: &str, tree: &Tree) -> Result<Plan, Ended>
    ensures stage { (a : Around) → Performs (ReadsPlan name.now tree.now) a a result }
    ensures served { IfOk result MayBeServed }
{
    match Plan::read(alloc, tree) {
        Ok(plan) => Ok(plan),
        Err(PlanFault::At(pointer)) => {
            Err(end_with(Ending::plan(alloc, name, pointer.as_str())))
        }
        Err(PlanFault::NoMemory) => Err(Ended::NoMemory),
    }
}

/// The library of the models of a plan, each read and judged before the next.
fn take_models<F: Files>(
    alloc: Global,
    models: &ModelFiles,
    files: &mut F,
) -> Result<Library, Ended>
    ensures stage { (w : Outside) → Performs (TakesModels (F.seen files.old).held models.now []) (around (F.seen files.old) w) (around (F.seen files.new) w) result }
    ensures held { (F.seen files.new).held ≡ (F.seen files.old).held }
{
    let mut library = Library::new(alloc);
    // The loop keeps this of the models that are left: however it comes out with those, all come out so.
    for model in models.as_slice() {
        library = take_model(alloc, model, library, files)?;
    }
    Ok(library)
}

/// Reads a model, the text of its URL and the name of its file, and puts it into a library.
fn take_model<F: Files>(
    alloc: Global,
    model: &(Text, Text),
    library: Library,
    files: &mut F,
) -> Result<Library, Ended>
    ensures stage { (w : Outside) → Performs (TakesModel (F.seen files.old).held model.now library) (around (F.seen files.old) w) (around (F.seen files.new) w) result }
    ensures held { (F.seen files.new).held ≡ (F.seen files.old).held }
{
    let (url, file) = (model.0.as_str(), model.1.as_str());
    let content = read_model(alloc, file, files)?;
    let tree = read_tree(alloc, file, content.as_slice())?;
    add_model(alloc, url, file, tree, library)
}

/// Reads the whole file of a model.
fn read_model<F: Files>(alloc: Global, file: &str, files: &mut F) -> Result<Bytes, Ended>
    ensures stage { (w : Outside) → Performs (ReadsFile (F.seen files.old).held longest_json file.now) (around (F.seen files.old) w) (around (F.seen files.new) w) result }
    ensures held { (F.seen files.new).held ≡ (F.seen files.old).held }
{
    read_file(alloc, file, LONGEST_JSON, files)
}

/// Puts a model into a library.
fn add_model(
    alloc: Global,
    url: &str,
    file: &str,
    tree: Tree,
    library: Library,
) -> Result<Library, Ended>
    ensures { (a : Around) → Performs (AddsModel library url.now file.now tree) a a result }
{
    let mut library = library;
    match library.add(url, tree) {
        Ok(()) => Ok(library),
        Err(AddFault::BadUrl) => Err(end_with(Ending::input(alloc, file, "url"))),
        Err(AddFault::Twice) => Err(end_with(Ending::input(alloc, file, "twice"))),
        Err(AddFault::NotModel) => Err(end_with(Ending::input(alloc, file, "model"))),
        Err(AddFault::NoMemory) => Err(Ended::NoMemory),
    }
}

/// The Things that are derived from the root of a plan.
pub fn derive_things(alloc: Global, planned: &Planned) -> Result<Things, Ended>
    ensures stage { (a : Around) → Performs (Derives planned.now) a a result }
    ensures valid { IfOk result (AllByRecursion (λ thing. IsValid thing.1)) }
    ensures plain { IfOk result (λ things. is_plain_segment planned.now.plan.frame.segment ≡ true → AllByRecursion (λ thing. is_plain_segment thing.0 ≡ true) things) }
{
    let plan = &planned.plan;
    let root = plan.root.as_str();
    match derive(
        alloc,
        &planned.library,
        root,
        &plan.bindings,
        &plan.choices,
        &plan.frame,
    ) {
        Ok(things) => Ok(things),
        Err(fault) => Err(end_with(refused(alloc, &fault))),
    }
}

/// The ending that prints Things.
fn printed(alloc: Global, things: &[Thing]) -> Result<Ending, NoMemory>
    ensures { IfOk result (λ e. (e.status ≡ 0) × (e.text ≡ things_text (kept_things things.now))) }
{
    let mut text = Bytes::new(alloc);
    for thing in things {
        put_thing(alloc, &mut text, thing)?;
    }
    Ok(Ending { status: 0, text })
}

/// Puts the text of a description and a line feed at the end.
fn put_thing(alloc: Global, text: &mut Bytes, thing: &Thing) -> Result<(), NoMemory>
    ensures { OnOk result (text.new ≡ text.old ++ thing_text (kept_thing thing.now)) }
{
    text.extend(text_of(alloc, &thing.tree)?.as_slice())?;
    text.extend(b"\n")
}
