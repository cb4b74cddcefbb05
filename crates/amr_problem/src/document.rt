//! From bytes to the table that they are, and its keys.

ghost use Rattle.std.specs.Prelude.{◌≡◌, Some, None, Ok, Err, IfOk, IfErr, IsErrOf, option_map, codes, string_bytes, find, not};
ghost use Rattle.std.specs.BTreeMap.{keys as keys_of_map};
ghost use Rattle.toml.specs.View.{table_view, view};
ghost use Rattle.amr_problem.specs.Document.{document};
ghost use Rattle.amr_problem.specs.Keys.{is_known, keys};
ghost use Rattle.amr_problem.specs.Values.{written_at, is_there, number_at};
ghost use Rattle.amr_problem.specs.Faults.{known_version, version_in, keys_in, unknown_key, missing_key};

use crate::fault::{JudgeFault, ProblemFault};
use crate::key::{KEYS, Key, is_known};
use crate::key_text::KeyText;
use crate::limits::VERSIONS;
use std::alloc::{AllocError, Global};
use toml::{Table, Value};

/// The table that the bytes are.
pub fn read(alloc: Global, bytes: &[u8]) -> Result<Table, JudgeFault>
    ensures read { IfOk result (λ table. document bytes.now ≡ Some (table_view table)) }
    ensures refused { (f : _) → IsErrOf result (JudgeFault.Fault f) → (f ≡ ProblemFault.NotToml) × (document bytes.now ≡ None) }
{
    match toml::table_from_slice(alloc, bytes) {
        Ok(table) => Ok(table),
        Err(error) => {
            if error.is_memory() {
                Err(JudgeFault::NoMemory)
            } else {
                Err(JudgeFault::Fault(ProblemFault::NotToml))
            }
        }
    }
}

/// The value that is written at a key.
pub fn written_at<'a>(table: &'a Table, key: Key) -> Option<&'a Value>
    ensures { option_map (λ v. view v.now) result ≡ written_at (table_view table.now) key }
{
    table.get(key.text())
}

#[tactic(auto, unfolding(crate::specs::Values::is_there))]
fn is_there(table: &Table, key: Key) -> bool
    ensures { result ≡ is_there (table_view table.now) key }
{
    written_at(table, key).is_some() || !key.absent().is_required()
}

/// The integer that stands at a key.
#[tactic(auto, unfolding(crate::specs::Values::number_at))]
pub fn number_at(table: &Table, key: Key) -> Option<i64>
    ensures { result ≡ number_at (table_view table.now) key }
{
    match written_at(table, key) {
        Some(value) => value.as_integer(),
        None => key.absent().number(),
    }
}

fn known_version(number: i64) -> u32
    ensures { result ≡ known_version number }
{
    if VERSIONS.holds(number) {
        number as u32
    } else {
        1
    }
}

/// The version whose keys are known and whose blocks are read: 1 where the document names none that there is.
pub fn version_in(table: &Table) -> u32
    ensures { result ≡ version_in (table_view table.now) }
{
    match number_at(table, Key::Version) {
        Some(number) => known_version(number),
        None => 1,
    }
}

fn unknown_text(version: u32, table: &Table) -> Option<&String>
    ensures { option_map (λ s. s.now) result ≡ find (λ key. not (is_known version (string_bytes key))) (keys_of_map table.now) }
{
    table.keys().find(|key| !is_known(version, key.as_str()))
}

fn unknown_in(table: &Table) -> Option<&String>
    ensures { option_map (λ s. string_bytes s.now) result
        ≡ find (λ key. not (is_known (version_in (table_view table.now)) key)) (keys_in (table_view table.now)) }
{
    unknown_text(version_in(table), table)
}

/// The least key that is none of the version's.
pub fn unknown_key(alloc: Global, table: &Table) -> Result<Option<ProblemFault>, AllocError>
    ensures { IfOk result (λ fault. fault ≡ unknown_key (table_view table.now)) }
{
    match unknown_in(table) {
        Some(text) => Ok(Some(ProblemFault::UnknownKey(KeyText::make(alloc, text.as_str())?))),
        None => Ok(None),
    }
}

fn absent_key(table: &Table) -> Option<&'static Key>
    ensures { option_map (λ k. k.now) result ≡ find (λ key. not (is_there (table_view table.now) key)) keys }
{
    KEYS.iter().find(|key| !is_there(table, **key))
}

/// The first key that is absent, and required.
pub fn missing_key(table: &Table) -> Option<ProblemFault>
    ensures { result ≡ missing_key (table_view table.now) }
{
    match absent_key(table) {
        Some(key) => Some(ProblemFault::Missing(*key)),
        None => None,
    }
}
