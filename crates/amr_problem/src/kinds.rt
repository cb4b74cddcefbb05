//! The value that stands at a key, by its kind.

ghost use Rattle.std.specs.Prelude.{◌≡◌, IfOk, option_map};
ghost use Rattle.toml.specs.View.{table_view};
ghost use Rattle.amr_problem.specs.Keys.{absent_of};
ghost use Rattle.amr_problem.specs.Values.{text_at, numbers_at, integers_at, shear_at, rows_at};
ghost use Rattle.amr_problem.specs.Faults.{version_in};

use crate::document::{version_in, written_at};
use crate::key::{Absent, Key};
use crate::values::{integers_of, numbers_of, rows_of, shear_of};
use std::alloc::{AllocError, Global};
use toml::Table;

#[tactic(auto, unfolding(crate::specs::Values::text_at))]
pub fn text_at(alloc: Global, table: &Table, key: Key) -> Result<Option<Vec<u8>>, AllocError>
    requires { absent_of key ≡ Absent.Required }
    ensures { IfOk result (λ o. option_map (λ v. v.items) o ≡ text_at (table_view table.now) key) }
{
    match text_in(table, key) {
        Some(text) => Ok(Some(Vec::from_slice(alloc, text.as_bytes())?)),
        None => Ok(None),
    }
}

#[tactic(auto, unfolding(crate::specs::Values::text_at))]
fn text_in(table: &Table, key: Key) -> Option<&str>
    requires { absent_of key ≡ Absent.Required }
    ensures { option_map (λ s. s.now) result ≡ text_at (table_view table.now) key }
{
    match written_at(table, key) {
        Some(value) => value.as_str(),
        None => None,
    }
}

#[tactic(auto, unfolding(crate::specs::Values::numbers_at))]
pub fn numbers_at<const N: usize>(table: &Table, key: Key) -> Option<[i64; N]>
    requires { absent_of key ≡ Absent.Required }
    ensures { result ≡ numbers_at N (table_view table.now) key }
{
    match written_at(table, key) {
        Some(value) => numbers_of(value),
        None => None,
    }
}

#[tactic(auto, unfolding(crate::specs::Values::integers_at))]
pub fn integers_at(alloc: Global, table: &Table, key: Key) -> Result<Option<Vec<i64>>, AllocError>
    ensures { IfOk result (λ o. option_map (λ v. v.items) o ≡ integers_at (table_view table.now) key) }
{
    match written_at(table, key) {
        Some(value) => integers_of(alloc, value),
        None => Ok(key.absent().integers(alloc)),
    }
}

/// One number for each of so many rows or columns, or none at all where the key is absent.
#[tactic(auto, unfolding(crate::specs::Values::shear_at))]
pub fn shear_at(
    alloc: Global,
    table: &Table,
    key: Key,
    many: i64,
) -> Result<Option<Vec<i64>>, AllocError>
    ensures { IfOk result (λ o. option_map (λ v. v.items) o ≡ shear_at many (table_view table.now) key) }
{
    match written_at(table, key) {
        Some(value) => shear_of(alloc, value, many),
        None => Ok(Some(Vec::new(alloc))),
    }
}

#[tactic(auto, unfolding(crate::specs::Values::rows_at))]
fn rows_at(
    alloc: Global,
    table: &Table,
    key: Key,
    version: u32,
) -> Result<Option<Vec<[i64; 6]>>, AllocError>
    requires { absent_of key ≡ Absent.Required }
    ensures { IfOk result (λ o. option_map (λ v. v.items) o ≡ rows_at version (table_view table.now) key) }
{
    match written_at(table, key) {
        Some(value) => rows_of(alloc, value, version),
        None => Ok(None),
    }
}

/// The blocks, as the document's version has them.
pub fn blocks_at(alloc: Global, table: &Table) -> Result<Option<Vec<[i64; 6]>>, AllocError>
    ensures { IfOk result (λ o. option_map (λ v. v.items) o ≡ rows_at (version_in (table_view table.now)) (table_view table.now) Key.Blocks) }
{
    rows_at(alloc, table, Key::Blocks, version_in(table))
}
