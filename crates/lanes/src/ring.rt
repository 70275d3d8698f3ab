// The rings: reading entries, putting a bulk behind those waiting, and taking the oldest.
ghost use Rattle.std.specs.Prelude.{◌≡◌, ◌*◌, ◌<◌, min, length};
ghost use Rattle.units.specs.Units.{tenants};
ghost use Rattle.units.specs.Places.{at};
ghost use Rattle.entry.specs.Numbers.{entry_numbers};
ghost use Rattle.lanes.specs.Ring.{entry_at, head_of, slot, waiting_at, put, put_all, joined, taken};
ghost use Rattle.lanes.specs.Asked.{CanStore, CanPut, CanJoin, CanTake};

use crate::{DEPTH, Entries, Lanes};
use entry::{ENTRY_NUMBERS, Entry};
use units::{Cents, Contracts, TENANTS};

// The number at a place, and 0 past the end.
fn number_at(ns: &[u32], i: usize) -> u32
    ensures { result ≡ at ns.now i }
{
    ns.get(i).copied().unwrap_or(0)
}

// Where the numbers of entry j start in a row of numbers, or its end where that comes first.
fn first_of(ns: &[u32], j: usize) -> usize
    ensures { result ≡ min (j * entry_numbers) (length ns.now) }
{
    ns.len().min(j.saturating_mul(ENTRY_NUMBERS))
}

// Entry j of a row of numbers; all 0 past the end.
pub fn given(ns: &[u32], j: usize) -> Entry
    ensures { result ≡ entry_at ns.now j }
{
    let first = first_of(ns, j);
    Entry {
        kind: number_at(ns, first),
        side: number_at(ns, first + 1),
        life: number_at(ns, first + 2),
        price: Cents(number_at(ns, first + 3)),
        size: Contracts(number_at(ns, first + 4)),
        number: number_at(ns, first + 5),
    }
}

// Entry k of all lanes' entries.
pub fn entry_at(entries: &Entries, k: usize) -> Entry
    ensures { result ≡ entry_at entries.now k }
{
    given(entries, k)
}

// Where the entry stands that is i behind a lane's oldest.
fn slot(l: Lanes, t: usize, i: usize) -> usize
    requires { t < tenants }
    ensures { result ≡ slot t (head_of l t) i }
{
    t * DEPTH + (l.lanes[t].head as usize % DEPTH + i % DEPTH) % DEPTH
}

// The oldest entry waiting in a lane.
pub fn head(l: Lanes, entries: &Entries, t: usize) -> Entry
    requires { t < tenants }
    ensures { result ≡ waiting_at l entries.now t 0 }
{
    entry_at(entries, slot(l, t, 0))
}

// The numbers of entry j are stored at place k.
fn put(entries: &mut Entries, k: usize, ns: &[u32], j: usize)
    requires { CanStore entries.old k ns.now j }
    ensures { entries.new ≡ put entries.old k ns.now j }
{
    let to = k * ENTRY_NUMBERS;
    let from = j * ENTRY_NUMBERS;
    entries[to..to + ENTRY_NUMBERS].copy_from_slice(&ns[from..from + ENTRY_NUMBERS]);
}

// A bulk is put behind the entries waiting in a lane, in its order.
pub fn put_all(l: Lanes, entries: &mut Entries, t: usize, ns: &[u32], count: usize)
    requires { CanPut l entries.old t ns.now count }
    ensures { entries.new ≡ put_all l entries.old t ns.now count }
{
    let len = l.lanes[t].len as usize;
    for j in 0..count {
        put(entries, slot(l, t, len + j), ns, j);
    }
}

// So many more wait in a lane.
pub fn joined(mut l: Lanes, t: usize, n: u32) -> Lanes
    requires { CanJoin l t n }
    ensures { result ≡ joined l t n }
{
    l.lanes[t].len += n;
    l
}

// The oldest entry leaves its lane, and the rotation moves to the tenant after it.
pub fn taken(mut l: Lanes, t: usize) -> Lanes
    requires { CanTake l t }
    ensures { result ≡ taken l t }
{
    let lane = &mut l.lanes[t];
    lane.head = ((lane.head as usize + 1) % DEPTH) as u32;
    lane.len -= 1;
    l.place = (t + 1) % TENANTS;
    l
}
