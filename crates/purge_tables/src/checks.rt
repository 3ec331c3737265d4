//! A CHECK, and its nodes, each compared with the wanted one. A schema's expressions are lists of
//! nodes, in which an operator names its operands by index. In a test place 0 of a row is its
//! rowid, and its columns follow from place 1; the row itself is in slot 1.
ghost use Rattle.std.specs.Prelude.{◌≡◌, ◌≢◌, ℕ, suc, false, None, IsTrue, IfSome};
ghost use Rattle.std.specs.Prelude.{slice_index_or};
ghost use Rattle.sqlite.specs.declared.types.Value.TheVariants.{Null, Int};
ghost use Rattle.sqlite_sql.specs.declared.ops.CompareOp.TheVariants.{Eq};
ghost use Rattle.sqlite_schema.specs.Code.{term_in, term_to};
ghost use Rattle.sqlite_schema.specs.declared.code.Op.TheVariants as op;
ghost use Rattle.purge_tables.specs.Tables.{comparison, either_check, range_check};

use sqlite_schema::code::Op;
use sqlite_sql::ops::{BinaryOp, CompareOp};
use sqlite_value::keys::Collation;
use sqlite_value::value::Value;

/// Whether the node is this column of the row.
fn reads_column(node: &Op, place: usize) -> bool
    ensures yes { IsTrue result → node.now ≡ op.Column 1 place }
    ensures no { result ≡ false → ¬ (node.now ≡ op.Column 1 place) }
{
    match node {
        Op::Column(slot, at) => *slot == 1 && *at == place,
        _ => false,
    }
}

/// Whether the node is this integer.
fn is_literal(node: &Op, number: i64) -> bool
    ensures yes { IsTrue result → node.now ≡ op.Literal (Int number) }
    ensures no { result ≡ false → ¬ (node.now ≡ op.Literal (Int number)) }
{
    match node {
        Op::Literal(Value::Int(found)) => *found == number,
        _ => false,
    }
}

/// The indices of both operands, if the node is this operator.
fn operands(node: &Op, by: BinaryOp) -> Option<(usize, usize)>
    ensures some { IfSome result (λ places. node.now ≡ op.Binary by places.0 places.1) }
    ensures none { result ≡ None → (left right : ℕ) → node.now ≢ op.Binary by left right }
{
    match node {
        Op::Binary(found, left, right) if *found == by => Some((*left, *right)),
        _ => None,
    }
}

/// Whether the node at this index is this column of the row; false behind the last.
fn reads_column_at(nodes: &[Op], at: usize, place: usize) -> bool
    ensures yes { IsTrue result → slice_index_or nodes.now at (op.Literal Null)
        ≡ op.Column 1 place }
    ensures no { result ≡ false → slice_index_or nodes.now at (op.Literal Null)
        ≢ op.Column 1 place }
{
    at < nodes.len() && reads_column(&nodes[at], place)
}

/// Whether the node at this index is this integer; false behind the last.
fn is_literal_at(nodes: &[Op], at: usize, number: i64) -> bool
    ensures yes { IsTrue result → slice_index_or nodes.now at (op.Literal Null)
        ≡ op.Literal (Int number) }
    ensures no { result ≡ false → slice_index_or nodes.now at (op.Literal Null)
        ≢ op.Literal (Int number) }
{
    at < nodes.len() && is_literal(&nodes[at], number)
}

/// The indices of both operands, if the node at this index is this operator; `None` behind the
/// last.
fn operands_at(nodes: &[Op], at: usize, by: BinaryOp) -> Option<(usize, usize)>
    ensures some { IfSome result (λ places.
        slice_index_or nodes.now at (op.Literal Null) ≡ op.Binary by places.0 places.1) }
    ensures none { result ≡ None → (left right : ℕ) →
        slice_index_or nodes.now at (op.Literal Null) ≢ op.Binary by left right }
{
    if at < nodes.len() {
        operands(&nodes[at], by)
    } else {
        None
    }
}

/// Whether the node at this index compares the column at this place with this number.
fn is_bound_at(nodes: &[Op], at: usize, place: usize, by: CompareOp, bound: i64) -> bool
    ensures yes { IsTrue result → (depth : ℕ) →
        term_to nodes.now (suc (suc depth)) at ≡ comparison place by bound }
    ensures no { result ≡ false → (depth : ℕ) →
        term_to nodes.now (suc (suc depth)) at ≢ comparison place by bound }
{
    let Some((left, right)) = operands_at(nodes, at, BinaryOp::Compare(by, Collation::Binary))
    else {
        return false;
    };
    reads_column_at(nodes, left, place) && is_literal_at(nodes, right, bound)
}

/// Whether the node at this index is the test that the column at this place equals this number.
pub fn is_equal_at(nodes: &[Op], at: usize, place: usize, number: i64) -> bool
    ensures yes { IsTrue result → term_in nodes.now at ≡ comparison place Eq number }
    ensures no { result ≡ false → term_in nodes.now at ≢ comparison place Eq number }
{
    if nodes.len() < 2 {
        return false;
    }
    is_bound_at(nodes, at, place, CompareOp::Eq, number)
}

/// Whether the node at this index is the test that the column at this place is from the first
/// number to the second.
pub fn is_range_at(nodes: &[Op], at: usize, place: usize, least: i64, most: i64) -> bool
    ensures yes { IsTrue result → term_in nodes.now at ≡ range_check place least most }
    ensures no { result ≡ false → term_in nodes.now at ≢ range_check place least most }
{
    if nodes.len() < 3 {
        return false;
    }
    let Some((low, high)) = operands_at(nodes, at, BinaryOp::And) else {
        return false;
    };
    is_bound_at(nodes, low, place, CompareOp::Ge, least)
        && is_bound_at(nodes, high, place, CompareOp::Le, most)
}

/// Whether the node at this index is the test that the column at this place is one of both numbers.
pub fn is_either_at(nodes: &[Op], at: usize, place: usize, first: i64, second: i64) -> bool
    ensures yes { IsTrue result → term_in nodes.now at ≡ either_check place first second }
    ensures no { result ≡ false → term_in nodes.now at ≢ either_check place first second }
{
    if nodes.len() < 3 {
        return false;
    }
    let Some((low, high)) = operands_at(nodes, at, BinaryOp::Or) else {
        return false;
    };
    is_bound_at(nodes, low, place, CompareOp::Eq, first)
        && is_bound_at(nodes, high, place, CompareOp::Eq, second)
}
