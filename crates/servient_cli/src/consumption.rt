//! `consume TD OPERATION NAME`: an operation on the Thing of a description.

ghost use Rattle.std.specs.Prelude.{◌≡◌, true, List, Option, IfOk};
ghost use Rattle.wot_json.specs.Meaning.{json_of};
ghost use Rattle.wot_terms.specs.Faults.{IsValid};
ghost use Rattle.wot_json.specs.declared.tree.Tree.{Tree as TreeOf};
ghost use Rattle.command_words.specs.declared.command.Consumption.{Consumption as ConsumptionOf};
ghost use Rattle.wot_consumer.specs.Operations.{is_consumed};
ghost use Rattle.wot_consumer.specs.Judgement.{HasAffordance};
ghost use Rattle.wot_consumer.specs.Choice.{IsChosen, wanted};
ghost use Rattle.thing_handler.specs.Handler.{Seen};
ghost use Rattle.servient_outside.specs.Files.{FilesSeen};
ghost use Rattle.servient_trace.specs.Trace.{outside};
ghost use Rattle.network_consumer.specs.Answers.{CanBeAsked};
ghost use Rattle.network_consumer.specs.Asking.{IsChoice};
ghost use Rattle.command_stages.specs.Stages.{Around, around};
ghost use Rattle.servient_cli.specs.Consuming.{Chooses, ConsumesThing, EndsPrinting, IsAskedFor, IsEndOf, Operates, OperatesOn};
ghost use Rattle.command_stages.specs.Ending.{Performs};

use crate::outcomes::undone;
use command_stages::{Ended, Ending, end_with, read_description, read_input};
use command_words::Consumption;
use network_consumer::{Consumed, ThingOperation, consume};
use servient_outside::{Files, Net, Out};
use std::alloc::Global;
use wot_consumer::{ChooseFault, Chosen, Scheme, choose};
use wot_json::{Bytes, Tree};

/// Reads a description and the value that is handed in, and does the operation.
pub fn consume_thing<F: Files, N: Net, O: Out>(
    alloc: Global,
    consumption: &Consumption,
    files: &mut F,
    net: &mut N,
    out: &mut O,
) -> Result<Ending, Ended>
    ensures { (slots : List Seen) → EndsPrinting (ConsumesThing (F.seen files.old).held consumption.now)
        (around (F.seen files.old) (outside (N.seen net.old) slots)) (around (F.seen files.new) (outside (N.seen net.new) slots))
        (O.seen out.old) (O.seen out.new) result }
{
    let tree = read_description(alloc, consumption.description.as_str(), files)?;
    let input = read_input(alloc, &consumption.input, files)?;
    let described = Described { tree, input };
    consume_described(alloc, &described, consumption, net, out)
}

/// A description, and the value that is handed in. Its owner lends both, since a function pays at each early exit for
/// what it owns.
#[derive(Drop)]
struct Described {
    tree: Tree,
    input: Option<Tree>,
}

/// Does the operation on the Thing of a description.
fn consume_described<'a, N: Net, O: Out>(
    alloc: Global,
    described: &'a Described,
    consumption: &'a Consumption,
    net: &mut N,
    out: &mut O,
) -> Result<Ending, Ended>
    requires { IsValid (json_of described.now.tree) }
    ensures { (files : FilesSeen) → (slots : List Seen) → EndsPrinting (OperatesOn consumption.now described.now.tree described.now.input)
        (around files (outside (N.seen net.old) slots)) (around files (outside (N.seen net.new) slots))
        (O.seen out.old) (O.seen out.new) result }
{
    let tree = &described.tree;
    let name = consumption.name.as_str();
    let input = described.input.as_ref();
    let operation = ThingOperation {
        tree,
        op: consumption.operation.op(),
        name,
        input,
        count: consumption.count,
    };
    operate_by_form(alloc, &operation, consumption.scheme, net, out)
}

/// Chooses a form, of this scheme where one is wanted, and does the operation by it.
fn operate_by_form<N: Net, O: Out>(
    alloc: Global,
    operation: &ThingOperation<'_>,
    only: Option<Scheme>,
    net: &mut N,
    out: &mut O,
) -> Result<Ending, Ended>
    requires valid { IsValid (json_of operation.now.tree.now) }
    requires consumed { is_consumed operation.now.op ≡ true }
    ensures { (files : FilesSeen) → (slots : List Seen) → (k : ConsumptionOf) → (tree : TreeOf) → (input : Option TreeOf) → k.scheme ≡ only
        → IsAskedFor k tree input operation.now → EndsPrinting (OperatesOn k tree input)
        (around files (outside (N.seen net.old) slots)) (around files (outside (N.seen net.new) slots))
        (O.seen out.old) (O.seen out.new) result }
{
    let chosen = choose_form(alloc, operation, only)?;
    operate(alloc, operation, &chosen, net, out)
}

/// The form for an operation, of this scheme where one is wanted.
fn choose_form(
    alloc: Global,
    operation: &ThingOperation<'_>,
    only: Option<Scheme>,
) -> Result<Chosen, Ended>
    requires valid { IsValid (json_of operation.now.tree.now) }
    requires consumed { is_consumed operation.now.op ≡ true }
    ensures stage { (a : Around) → Performs (Chooses operation.now.tree.now operation.now.op operation.now.name.now only) a a result }
    ensures affordance { IfOk result (λ c. HasAffordance (json_of operation.now.tree.now) operation.now.op operation.now.name.now) }
    ensures chosen { IfOk result (λ c. IsChosen (json_of operation.now.tree.now) (wanted operation.now.op only) operation.now.name.now c) }
{
    match choose(alloc, operation.tree, operation.op, operation.name, only) {
        Ok(chosen) => Ok(chosen),
        Err(ChooseFault::NoAffordance) => Err(end_with(Ending::no_affordance(alloc))),
        Err(ChooseFault::NoForm) => Err(end_with(Ending::no_form(alloc))),
        Err(ChooseFault::NoMemory) => Err(Ended::NoMemory),
    }
}

/// Does the operation by the form that was chosen for it.
fn operate<N: Net, O: Out>(
    alloc: Global,
    operation: &ThingOperation<'_>,
    chosen: &Chosen,
    net: &mut N,
    out: &mut O,
) -> Result<Ending, Ended>
    requires asked { CanBeAsked operation.now }
    requires choice { IsChoice operation.now chosen.now }
    ensures { (files : FilesSeen) → (slots : List Seen) → (k : ConsumptionOf) → (tree : TreeOf) → (input : Option TreeOf)
        → IsAskedFor k tree input operation.now → EndsPrinting (Operates k tree input chosen.now)
        (around files (outside (N.seen net.old) slots)) (around files (outside (N.seen net.new) slots))
        (O.seen out.old) (O.seen out.new) result }
{
    end_of(alloc, consume(alloc, operation, chosen, net, out))
}

/// The end of a command whose operation ended so, or whose discovery.
pub fn end_of(alloc: Global, consumed: Consumed) -> Result<Ending, Ended>
    ensures { IsEndOf consumed result }
{
    match consumed {
        Consumed::Done => Ok(Ending {
            status: 0,
            text: Bytes::new(alloc),
        }),
        Consumed::Other(outcome) => Err(end_with(undone(alloc, outcome))),
        Consumed::Silent => Err(Ended::Silent),
        Consumed::Failed => Err(Ended::Network),
        Consumed::Unprinted => Err(Ended::Output),
        Consumed::Spent => Err(Ended::Spent),
        Consumed::NoMemory => Err(Ended::NoMemory),
    }
}
