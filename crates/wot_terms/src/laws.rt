//! Laws of the table of conditions, as contracts of functions that no code needs to call.

ghost use Rattle.wot_json.specs.Tree.{Members, object};
ghost use Rattle.wot_json.specs.WellFormed.{IsWellFormed};
ghost use Rattle.wot_terms.specs.Faults.{table};
ghost use Rattle.wot_terms.specs.Order.{Each, IsInPreorder};

/// Within a row the faults come in preorder, and each is at a value that is there or at a member that an object lacks.
/// In the row on schemas, the schemas come in preorder, each with its faults in their own order.
///
/// It is a law because the order of kinds and members is written by hand in the definitions and in the code alike: a
/// slip in both would be proved.
pub fn faults_come_in_preorder()
    ensures { (ms : Members) → IsWellFormed (object ms) → Each (IsInPreorder (object ms)) (table ms) }
{}
