//! Cells in the order of rows.

ghost use Rattle.std.specs.List.{Contains};
ghost use Rattle.amr_box.specs.declared.Cell.{Cell};
ghost use Rattle.amr_register.specs.Entries.{AreRising};

use amr_box::Cell;

/// Puts cells in order, by row and within a row by column, each once.
pub(crate) fn put_in_order(cells: &mut Vec<Cell>)
    ensures rising { AreRising cells.new.items }
    ensures kept { (c : Cell) → Contains cells.old.items c → Contains cells.new.items c }
    ensures none_added { (c : Cell) → Contains cells.new.items c → Contains cells.old.items c }
{
    cells.sort_unstable_by_key(|c| (c.y, c.x));
    cells.dedup();
}
