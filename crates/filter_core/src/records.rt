//! The list of the records that are held.

ghost use Rattle.std.specs.Prelude.{◌≡◌, ◌≤◌, ◌<◌, length, slice_index, IfOk, IfSome};
ghost use Rattle.std.specs.List.{list_all};
ghost use Rattle.filter_core.specs.Records.{is_standing, standing, match_of, ids_of, to_front};

use apf_base::{List, OutOfMemory};
use ra_records::{Held, Record};
use std::alloc::Global;

/// Whether no record is expired.
pub(crate) fn all_stand(records: &[Held], now: u32) -> bool
    ensures { result ≡ list_all (is_standing now) records.now }
{
    records.iter().all(|held| held.advert.remaining(now) > 0)
}

/// Copies of the records that aren't expired.
pub(crate) fn standing(alloc: Global, records: &[Held], now: u32) -> Result<List<Held>, OutOfMemory>
    ensures same { IfOk result (λ list. list ≡ standing now records.now) }
    ensures few { IfOk result (λ list. length list ≤ length records.now) }
{
    let mut list = List::new(alloc);
    for held in records {
        if held.advert.remaining(now) > 0 {
            list.push(Held {
                id: held.id,
                advert: held.advert.copy(alloc)?,
            })?;
        }
    }
    Ok(list)
}

/// The place of the first record that a frame matches.
pub(crate) fn match_of(frame: &[u8], records: &[Held]) -> Option<usize>
    ensures place { result ≡ match_of frame.now records.now }
    ensures within { IfSome result (λ place. place < length records.now) }
{
    records.iter().position(|held| held.advert.matches(frame))
}

/// The records with the one at a place in front, as it is seen now, and its id.
pub(crate) fn move_to_front(
    alloc: Global,
    mut records: List<Held>,
    place: usize,
    seen: Record,
) -> Result<(u64, List<Held>), OutOfMemory>
    requires { place < length records }
    ensures id { IfOk result (λ moved. moved.0 ≡ slice_index (ids_of records) place) }
    ensures list { IfOk result (λ moved. moved.1 ≡ to_front place seen records) }
    ensures few { IfOk result (λ moved. length moved.1 ≤ length records) }
{
    let Some(old) = records.remove(place) else {
        unreachable!()
    };
    let id = old.id;
    let mut list = List::of(alloc, [Held { id, advert: seen }])?;
    list.append(records)?;
    Ok((id, list))
}
