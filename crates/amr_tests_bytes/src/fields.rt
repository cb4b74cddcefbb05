//! Each field of a payload at its bounds.

use crate::payloads::{fault_in, set, state_bytes, three_levels};
use amr_codec::MassWidth;
use amr_decoder::CodecFault;
use std::alloc::Global;
use std::test::Fail;

/// The place of a number, what is put there in four bytes (at 28 in one), and where the payload is then bad. Each field
/// is tried at its bounds and one past them.
const TABLE: &str = "0 => 0 => good
0 => 1 => 28
0 => 2 => 0
4 => 159 => 4
4 => 161 => 4
8 => 1 => 4
12 => 1 => 4
16 => 1 => 4
20 => 1 => 4
24 => 1 => 4
28 => 0 => 28
28 => 1 => 177
28 => 2 => 325
28 => 3 => good
28 => 4 => 28
29 => 0 => 29
29 => 2 => 29
33 => 1 => 33
37 => 1 => 33
41 => 2 => 33
41 => 4 => 33
45 => 2 => 33
45 => 4 => 33
49 => 0 => 4
49 => 1073743872 => 4
49 => 1073743873 => 49
53 => 1 => 49
89 => 18 => 177
89 => 20 => 177
169 => 1073743873 => 169
177 => 0 => 177
177 => 16 => 325
177 => 17 => 177
181 => 0 => 325
181 => 1 => 181
181 => 4 => 177
181 => 6 => 181
185 => 1 => 181
185 => 6 => 181
189 => 1 => 181
189 => 4 => 181
189 => 7 => 325
189 => 9 => 181
193 => 1 => 181
193 => 4 => 181
193 => 7 => 325
193 => 9 => 181
197 => 6 => 177
197 => 268435968 => 177
197 => 268435969 => 197
237 => 5 => 177
317 => 268435969 => 317
325 => 0 => 325
325 => 64 => 473
325 => 65 => 325
329 => 4 => 473
329 => 5 => 329
329 => 8 => 409
329 => 10 => 329
333 => 5 => 329
333 => 8 => 409
333 => 10 => 329
337 => 5 => 329
337 => 8 => 329
337 => 11 => 473
337 => 15 => 473
337 => 17 => 329
341 => 8 => 329
341 => 15 => 473
341 => 17 => 329
345 => 2 => 325
345 => 67108992 => 325
345 => 67108993 => 345
349 => 1 => 345
465 => 0 => 325
465 => 67108993 => 465";

/// The fault as the table has it.
pub(crate) fn told(alloc: Global, fault: Option<CodecFault>) -> Result<String, Fail> {
    match fault {
        None => Ok(format!(in alloc; "good")?),
        Some(CodecFault::Bad { place }) => Ok(format!(in alloc; "{place}")?),
        Some(CodecFault::NoMemory) => Ok(format!(in alloc; "no memory")?),
    }
}

#[test]
fn each_field_at_its_bounds(rt: HostRuntime) -> Result<(), Fail> {
    let alloc = rt.alloc();
    let p = three_levels(alloc)?;
    for row in TABLE.lines() {
        let (place, rest) = row.split_once(" => ").expect(&rt, "three parts");
        let (value, want) = rest.split_once(" => ").expect(&rt, "three parts");
        let place = place.parse::<usize>().expect(&rt, "a place");
        let value = value.parse::<u32>().expect(&rt, "a number");
        let count = if place == 28 { 1 } else { 4 };
        let mut bytes = state_bytes(alloc, MassWidth::Eight)?;
        for (k, byte) in value.to_le_bytes().iter().take(count).enumerate() {
            set(&mut bytes, place.saturating_add(k), *byte);
        }
        let fault = fault_in(alloc, &p, MassWidth::Eight, &bytes);
        let told = told(alloc, fault)?;
        assert_eq!(rt; told.as_str(), want, "{row}");
    }
    Ok(())
}
