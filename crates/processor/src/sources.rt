// Where a loaded byte comes from within the run of the load.
ghost use Rattle.std.specs.Prelude.{◌≡◌, ℕ, ◌+◌, ◌<◌, false, None};
ghost use Rattle.processor.specs.Sources.{from_departure, from_waiting, last_of};

use crate::accesses::Access;
use crate::departures::Departure;
use crate::entries::Entry;

// A store that waited in the loading thread's buffer, or one that was cached at a moment of the run.
#[derive(Clone, Copy, Debug, PartialEq, Eq, Hash)]
pub enum Source {
    Waiting { byte: u8 },
    Cached { moment: u16, byte: u8 },
}

// What a waiting entry gives for the byte at an address.
fn from_waiting(entry: &Entry, at: u16) -> Option<Source>
    ensures { result ≡ from_waiting at entry.now }
{
    let Entry::Store(access) = entry else {
        return None;
    };
    access.byte_at(at).map(|byte| Source::Waiting { byte })
}

// What an entry that left gives for it: a store was cached then.
fn from_departure(departure: &Departure, at: u16) -> Option<Source>
    ensures { result ≡ from_departure at departure.now }
{
    let Entry::Store(access) = &departure.entry else {
        return None;
    };
    let moment = departure.moment;
    access
        .byte_at(at)
        .map(|byte| Source::Cached { moment, byte })
}

// Whether a store left that covers a byte of an access.
fn is_store_over(departure: &Departure, access: &Access) -> bool
    ensures { result ≡ false → (i : ℕ) → i < access.now.width → from_departure (access.now.address + i) departure.now ≡ None }
{
    let Entry::Store(store) = &departure.entry else {
        return false;
    };
    store.overlaps(access)
}

// The youngest of a thread's waiting stores that covers the byte at an address.
pub(crate) fn last_waiting(entries: &[Entry], at: u16) -> Option<Source>
    ensures { result ≡ last_of (from_waiting at) entries.now }
{
    entries
        .iter()
        .rev()
        .find_map(|entry| from_waiting(entry, at))
}

// The last store of those that left that covers it. The loop stands apart from those around it, as in `up_to_last`.
#[inline(never)]
fn last_store(left: &[Departure], at: u16) -> Option<Source>
    ensures { result ≡ last_of (from_departure at) left.now }
{
    left.iter()
        .rev()
        .find_map(|departure| from_departure(departure, at))
}

// The same; most often it is the very last of them, which is looked at first.
pub(crate) fn last_cached(left: &[Departure], at: u16) -> Option<Source>
    ensures { result ≡ last_of (from_departure at) left.now }
{
    let [before @ .., departure] = left else {
        return None;
    };
    from_departure(departure, at).or_else(|| last_store(before, at))
}

// What left up to the last store that covers a byte of an access, so that what came behind it is passed once, and not for each
// byte. The loop stands apart from those around it, and reads the access first: a load may spend most of its time here.
#[inline(never)]
pub(crate) fn up_to_last<'a>(left: &'a [Departure], access: &Access) -> &'a [Departure]
    ensures { (i : ℕ) → i < access.now.width → last_of (from_departure (access.now.address + i)) result.now ≡ last_of (from_departure (access.now.address + i)) left.now }
{
    let access = *access;
    let mut rest = left;
    while let [before @ .., departure] = rest
        && !is_store_over(departure, &access)
    {
        rest = before;
    }
    rest
}
