ghost use Rattle.std.specs.Prelude.{◌≡◌, ◌↔◌, ℤ, [], Option, None, Some, MatchOption, IsTrue, IfSome};
ghost use Rattle.cell_format.specs.Commits.{IsCellOf, IsRefused, after, again, anew, kept_by, value_after, value_of};
ghost use Rattle.cell_format.specs.Layout.{AreBytesOf};
ghost use Rattle.tree_model.specs.Tables.{folded};

use crate::cell::Cell;
use crate::codec::decode_cell;
use tree_model::bolt_ops::RowOp;
use tree_model::fold_amount;
use tree_model::storm_values::Root;
use tree_model::topology_plan::{Fold, Kind};

/// The cell that the bytes are, where a part of this kind takes it.
pub fn cell_for(kind: Kind, bytes: &[u8]) -> Option<Cell>
    ensures { MatchOption result (IsRefused kind bytes.now)
        (λ cell. IsCellOf kind cell × AreBytesOf cell bytes.now) }
{
    match decode_cell(bytes) {
        Ok(cell) if is_same(cell.kind, kind) => Some(cell),
        _ => None,
    }
}

fn is_same(a: Kind, b: Kind) -> bool
    ensures { IsTrue result ↔ (a ≡ b) }
{
    match a {
        Kind::Transactional => matches!(&b, Kind::Transactional),
        Kind::Opaque => matches!(&b, Kind::Opaque),
    }
}

/// What a commit puts at a key that has this cell, or none: `None` where the key stays as it is, as
/// in a transactional part where nothing is written. The amounts are those that are written for the
/// key, in order.
pub fn change<O: RowOp>(
    kind: Kind,
    by: Fold,
    custom: &O,
    root: Root,
    amounts: &[i64],
    cell: Option<Cell>,
) -> Option<Cell>
    requires { IfSome cell (IsCellOf kind) }
    ensures made { let leaves = after kind (folded (O.meaning custom.now) by) root amounts.now cell in
        MatchOption result (leaves ≡ cell) (λ new. leaves ≡ Some new) }
    ensures left { kind ≡ Kind.Transactional → amounts.now ≡ [] → result ≡ None }
    ensures good { IfSome result (IsCellOf kind) }
{
    match cell {
        Some(old) if old.txid == root.txid => change_again(
            kind,
            by,
            custom,
            root.attempt,
            amounts,
            old,
        ),
        _ => change_anew(kind, by, custom, root, amounts, cell),
    }
}

fn change_again<O: RowOp>(
    kind: Kind,
    by: Fold,
    custom: &O,
    attempt: u32,
    amounts: &[i64],
    cell: Cell,
) -> Option<Cell>
    requires { IsCellOf kind cell }
    ensures made { let leaves = again kind (folded (O.meaning custom.now) by) attempt amounts.now cell in
        MatchOption result (leaves ≡ cell) (λ new. leaves ≡ new) }
    ensures left { kind ≡ Kind.Transactional → result ≡ None }
    ensures good { IfSome result (IsCellOf kind) }
{
    match kind {
        Kind::Transactional => None,
        Kind::Opaque => Some(Cell {
            txid: cell.txid,
            attempt,
            value: fold_all(by, custom, amounts, cell.prev),
            prev: cell.prev,
            kind: cell.kind,
        }),
    }
}

fn change_anew<O: RowOp>(
    kind: Kind,
    by: Fold,
    custom: &O,
    root: Root,
    amounts: &[i64],
    cell: Option<Cell>,
) -> Option<Cell>
    ensures made { let leaves = anew kind (folded (O.meaning custom.now) by) root amounts.now cell in
        MatchOption result (leaves ≡ cell) (λ new. leaves ≡ Some new) }
    ensures left { amounts.now ≡ [] → result ≡ None }
    ensures good { IfSome result (IsCellOf kind) }
{
    if amounts.is_empty() {
        return None;
    }
    let value = value_in(cell);
    Some(Cell {
        txid: root.txid,
        attempt: root.attempt,
        value: fold_all(by, custom, amounts, value),
        prev: keep(kind, value),
        kind,
    })
}

fn value_in(cell: Option<Cell>) -> Option<i128>
    ensures { result ≡ value_of cell }
{
    match cell {
        Some(cell) => cell.value,
        None => None,
    }
}

fn keep(kind: Kind, value: Option<i128>) -> Option<i128>
    ensures { result ≡ kept_by kind value }
{
    match kind {
        Kind::Transactional => None,
        Kind::Opaque => value,
    }
}

/// A value after these amounts, in order.
fn fold_all<O: RowOp>(by: Fold, custom: &O, amounts: &[i64], value: Option<i128>) -> Option<i128>
    ensures { result ≡ value_after (folded (O.meaning custom.now) by) amounts.now value }
{
    let mut folded = value;
    for amount in amounts {
        folded = Some(fold_amount(custom, by, folded, *amount));
    }
    folded
}
