// What a delta is refused for beyond its own form: a hash that is there already or comes twice, and want of room.
#![tactic(auto)]

ghost use Rattle.std.specs.Prelude.{◌≡◌, true, ◌||◌, map, ℕ, Bool, ◌+◌, ◌/◌, ◌≤◌, min, ltb, length, drop};
ghost use Rattle.base.specs.Logic.{any, elem, repeated};
ghost use Rattle.rows.specs.Keys.{keys, first_four};
ghost use Rattle.rows.specs.Wide.{key_of};
ghost use Rattle.cell_nursery.specs.Calls.{length_width};
ghost use Rattle.cell_nursery.specs.Held.{EntriesHeld};
ghost use Rattle.delta_items.specs.Walk.{inserts_in, inserts_len, inserts_fit, inserts_from};
ghost use Rattle.delta_items.specs.WalkLaws.{Left};
ghost use Rattle.delta_checks.specs.ChecksLaws.{Tells};

use cell_nursery::Nursery;
use rows::Wide;

// Whether the hash is in the nursery: a search.
fn is_stored(r: Nursery, es: &[u64], hash: Wide) -> bool
    requires { EntriesHeld r es.now }
    ensures { result ≡ elem (key_of hash) (keys first_four 8 r.entries es.now) }
{
    nursery_lookup::find_hash(r, es, hash).is_some()
}

// Whether an insert from number `from` on, which begins at `start`, has a hash of which `told` says yes.
fn any_from<F: Fn(Wide) -> bool>(
    wide: bool,
    inserts: u64,
    items: &[u8],
    from: u64,
    start: usize,
    told: F,
) -> bool
    requires left { Left (length_width wide) inserts from start (inserts_len (length_width wide) inserts items.now) items.now }
    requires is_always_callable { F.IsAlwaysCallable told }
    ensures { (g : ℕ → Bool) → Tells (F.post told) g → result ≡ any (λ e. g e.hash) (inserts_from (length_width wide) inserts from start items.now) }
{
    let mut at = start;
    for _ in from..inserts {
        if told(hash_words::wide_of(items, at)) {
            return true;
        }
        at = delta_items::insert_end(items, at, wide);
    }
    false
}

// Whether the hash of an insert is in the nursery.
pub fn any_stored(r: Nursery, es: &[u64], wide: bool, inserts: u64, items: &[u8]) -> bool
    requires entries_held { EntriesHeld r es.now }
    requires value { inserts_fit (length_width wide) inserts items.now ≡ true }
    ensures { result ≡ any (λ e. elem e.hash (keys first_four 8 r.entries es.now)) (inserts_in (length_width wide) inserts items.now) }
{
    any_from(wide, inserts, items, 0, 0, |hash| is_stored(r, es, hash))
}

// Whether two inserts have one hash: each is held against those behind it.
pub fn any_repeated(wide: bool, inserts: u64, items: &[u8]) -> bool
    requires { inserts_fit (length_width wide) inserts items.now ≡ true }
    ensures { result ≡ repeated (map (λ e. e.hash) (inserts_in (length_width wide) inserts items.now)) }
{
    let mut at = 0;
    for i in 0..inserts {
        let next = delta_items::insert_end(items, at, wide);
        let hash = hash_words::wide_of(items, at);
        if any_from(wide, inserts, items, i + 1, next, |other| hash == other) {
            return true;
        }
        at = next;
    }
    false
}

// Whether so many more entries, or so many more cell bytes, exceed tables of these lengths.
pub fn is_full(r: Nursery, es: usize, ws: usize, cs: usize, rows: u64, bytes: usize) -> bool
    requires { (r.entries ≤ min (es / 8) (ws / 5)) × (r.cell_bytes ≤ cs) }
    ensures { result ≡ (ltb (min (es / 8) (ws / 5)) (r.entries + rows) || ltb cs (r.cell_bytes + bytes)) }
{
    if ((es / 8 - r.entries) as u64) < rows {
        return true;
    }
    if ((ws / 5 - r.entries) as u64) < rows {
        return true;
    }
    cs - r.cell_bytes < bytes
}
