//! The values of a document, each read as its key's kind has it.

ghost use Rattle.std.specs.Prelude.{◌≡◌, [], ◌∷◌, ◌++◌, length, pos, Some, None, option_map, IfOk};
ghost use Rattle.std.specs.Ordering.{int_eq};
ghost use Rattle.toml.specs.View.{view, items_view};
ghost use Rattle.amr_problem.specs.Values.{count, integers, integers_of, numbers_in, numbers_of, shear_in, shear_of, block_of, rows_in, rows_of};

use std::alloc::{AllocError, Global};
use toml::Value;

/// The integers of an array that has `N` of them and nothing else.
#[tactic(auto, using(crate::proofs::ValueLaws::numbers_in_whole, crate::proofs::ValueLaws::numbers_in_other))]
pub fn numbers_in<const N: usize>(items: &[Value]) -> Option<[i64; N]>
    ensures { result ≡ numbers_in N (items_view items.now) }
{
    if items.len() != N {
        return None;
    }
    integers(items)
}

fn integers<const N: usize>(items: &[Value]) -> Option<[i64; N]>
    requires { length items.now ≡ N }
    ensures { result ≡ integers (items_view items.now) }
{
    let mut numbers = [0; N];
    for (place, item) in items.iter().enumerate() {
        numbers[place] = item.as_integer()?;
    }
    Some(numbers)
}

/// The integers of an array that has nothing else.
pub fn integers_in(alloc: Global, items: &[Value]) -> Result<Option<Vec<i64>>, AllocError>
    ensures { IfOk result (λ o. option_map (λ v. v.items) o ≡ integers (items_view items.now)) }
{
    let mut numbers = Vec::new(alloc);
    for item in items {
        let Some(number) = item.as_integer() else {
            return Ok(None);
        };
        numbers.push(number)?;
    }
    Ok(Some(numbers))
}

#[tactic(auto, using(crate::proofs::ValueLaws::count_view))]
fn has_count(items: &[Value], many: i64) -> bool
    ensures { result ≡ int_eq (pos (count (items_view items.now))) many }
{
    let count = items.len() as i64;
    count == many
}

/// The integers of an array that has exactly so many, and nothing else.
pub fn shear_in(alloc: Global, items: &[Value], many: i64) -> Result<Option<Vec<i64>>, AllocError>
    ensures { IfOk result (λ o. option_map (λ v. v.items) o ≡ shear_in many (items_view items.now)) }
{
    if has_count(items, many) {
        integers_in(alloc, items)
    } else {
        Ok(None)
    }
}

fn of_first_species(block: [i64; 5]) -> [i64; 6]
    ensures { result ≡ block ++ pos 0 ∷ [] }
{
    let [x0, y0, x1, y1, mass] = block;
    [x0, y0, x1, y1, mass, 0]
}

/// The six integers of a value that is a block, which before version 3 has five and is of species 0.
pub fn block_of(value: &Value, version: u32) -> Option<[i64; 6]>
    ensures { result ≡ block_of version (view value.now) }
{
    if version < 3 {
        let block = numbers_of::<5>(value)?;
        Some(of_first_species(block))
    } else {
        numbers_of::<6>(value)
    }
}

/// The rows of an array of the version's blocks.
pub fn rows_in(
    alloc: Global,
    items: &[Value],
    version: u32,
) -> Result<Option<Vec<[i64; 6]>>, AllocError>
    ensures { IfOk result (λ o. option_map (λ v. v.items) o ≡ rows_in version (items_view items.now)) }
{
    let mut rows = Vec::new(alloc);
    for item in items {
        let Some(row) = block_of(item, version) else {
            return Ok(None);
        };
        rows.push(row)?;
    }
    Ok(Some(rows))
}

/// The integers of a value that is an array of `N` of them.
pub fn numbers_of<const N: usize>(value: &Value) -> Option<[i64; N]>
    ensures { result ≡ numbers_of N (view value.now) }
{
    match value.as_array() {
        Some(items) => numbers_in(items),
        None => None,
    }
}

/// The rows of a value that is an array of the version's blocks.
pub fn rows_of(
    alloc: Global,
    value: &Value,
    version: u32,
) -> Result<Option<Vec<[i64; 6]>>, AllocError>
    ensures { IfOk result (λ o. option_map (λ v. v.items) o ≡ rows_of version (view value.now)) }
{
    match value.as_array() {
        Some(items) => rows_in(alloc, items, version),
        None => Ok(None),
    }
}

/// The integers of a value that is an array of them.
pub fn integers_of(alloc: Global, value: &Value) -> Result<Option<Vec<i64>>, AllocError>
    ensures { IfOk result (λ o. option_map (λ v. v.items) o ≡ integers_of (view value.now)) }
{
    match value.as_array() {
        Some(items) => integers_in(alloc, items),
        None => Ok(None),
    }
}

/// The integers of a value that is an array of exactly so many.
pub fn shear_of(alloc: Global, value: &Value, many: i64) -> Result<Option<Vec<i64>>, AllocError>
    ensures { IfOk result (λ o. option_map (λ v. v.items) o ≡ shear_of many (view value.now)) }
{
    match value.as_array() {
        Some(items) => shear_in(alloc, items, many),
        None => Ok(None),
    }
}
