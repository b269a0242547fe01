// libselvaigo.a: each call that include/selvaigo.h declares, in its order, exported to C. The calls themselves are the functions of the same names in
// the crates named .._abi, and promise the same. A slice passes as a pointer and a length, an array as a pointer. What a function requires, its caller
// in C has to see to.
#![tactic(auto)]

ghost use Rattle.std.specs.Prelude.{◌≡◌, true, [], ◌∷◌};
ghost use Rattle.counters.specs.Layout as layout;
ghost use Rattle.counters.specs.Maintenance.{should_shrink, adjust_shrink_threshold};
ghost use Rattle.cell_nursery.specs.Layout.{holds, holds_entries, holds_cells};
ghost use Rattle.blake3.specs.Spec as blake3;
ghost use Rattle.state_words.specs.Words.{counters_of, said, settings_of, bit, nursery_of};
ghost use Rattle.word_calls.specs.CountersSaid.{new_said, alloc_said, get_said, batch_said, shrink_said, length_said, serialize_said, deserialize_said, load_said};
ghost use Rattle.word_calls.specs.NurserySaid.{empty_said, commit_said, drain_said, idx_said, data_said, listing_said};
ghost use Rattle.word_calls.specs.RecordSaid.{keyed_hash_said, encode_said, decode_said, scan_said, convert_said, journal_said};

// ---- counters

#[unsafe(no_mangle)]
pub extern "C" fn selvaigo_new(
    next_idx: u64,
    shrink_base: u64,
    shrink_max: u64,
    good_save: u64,
    state: &mut [u64; 16],
    counts: &mut [u64],
) -> u8
    ensures { said result [] (state.new ∷ counts.new ∷ []) ≡ new_said shrink_base shrink_max good_save next_idx state.old counts.old }
{
    counters_abi::selvaigo_new(next_idx, shrink_base, shrink_max, good_save, state, counts)
}

#[unsafe(no_mangle)]
pub extern "C" fn selvaigo_alloc_idx(state: &mut [u64; 16], idx: &mut [u64; 1]) -> u8
    ensures { said result (idx.new ∷ []) (state.new ∷ []) ≡ alloc_said state.old }
{
    counters_abi::selvaigo_alloc_idx(state, idx)
}

#[unsafe(no_mangle)]
pub extern "C" fn selvaigo_get(
    state: &[u64; 16],
    counts: &[u64],
    idx: u64,
    count: &mut [u64; 1],
) -> u8
    ensures { said result (count.new ∷ []) [] ≡ get_said state.now counts.now idx }
{
    counters_abi::selvaigo_get(state, counts, idx, count)
}

#[unsafe(no_mangle)]
pub extern "C" fn selvaigo_get_held(
    state: &[u64; 16],
    counts: &[u64],
    idx: u64,
    count: &mut [u64; 1],
) -> u8
    requires { layout.holds (counters_of state.now) counts.now ≡ true }
    ensures { said result (count.new ∷ []) [] ≡ get_said state.now counts.now idx }
{
    counters_abi::selvaigo_get_held(state, counts, idx, count)
}

#[unsafe(no_mangle)]
pub extern "C" fn selvaigo_apply_batch(
    state: &mut [u64; 16],
    counts: &mut [u64],
    batch: &[u64],
) -> u8
    ensures { said result [] (state.new ∷ counts.new ∷ []) ≡ batch_said state.old counts.old batch.now }
{
    batch_abi::selvaigo_apply_batch(state, counts, batch)
}

#[unsafe(no_mangle)]
pub extern "C" fn selvaigo_apply_batch_held(
    state: &mut [u64; 16],
    counts: &mut [u64],
    batch: &[u64],
) -> u8
    requires { layout.holds (counters_of state.old) counts.old ≡ true }
    ensures { said result [] (state.new ∷ counts.new ∷ []) ≡ batch_said state.old counts.old batch.now }
{
    batch_abi::selvaigo_apply_batch_held(state, counts, batch)
}

#[unsafe(no_mangle)]
pub extern "C" fn selvaigo_shrink_if_needed(
    state: &mut [u64; 16],
    counts: &[u64],
    bytes_saved: u64,
    shrunk: &mut [u64; 9],
) -> u8
    ensures { said result (shrunk.new ∷ []) (state.new ∷ []) ≡ shrink_said state.old counts.now bytes_saved }
{
    shrink_abi::selvaigo_shrink_if_needed(state, counts, bytes_saved, shrunk)
}

#[unsafe(no_mangle)]
pub extern "C" fn selvaigo_shrink_if_needed_held(
    state: &mut [u64; 16],
    counts: &[u64],
    bytes_saved: u64,
    shrunk: &mut [u64; 9],
) -> u8
    requires { layout.holds (counters_of state.old) counts.now ≡ true }
    ensures { said result (shrunk.new ∷ []) (state.new ∷ []) ≡ shrink_said state.old counts.now bytes_saved }
{
    shrink_abi::selvaigo_shrink_if_needed_held(state, counts, bytes_saved, shrunk)
}

#[unsafe(no_mangle)]
pub extern "C" fn selvaigo_should_shrink(
    alive: u64,
    removed_since_shrink: u64,
    min_removed: u64,
) -> u8
    ensures { result ≡ bit (should_shrink alive removed_since_shrink min_removed) }
{
    shrink_abi::selvaigo_should_shrink(alive, removed_since_shrink, min_removed)
}

#[unsafe(no_mangle)]
pub extern "C" fn selvaigo_adjust_shrink_threshold(
    min_alive_removed_before_shrink: u64,
    bytes_saved: u64,
    shrink_base: u64,
    shrink_max: u64,
    good_save: u64,
) -> u64
    ensures { result ≡ adjust_shrink_threshold (settings_of shrink_base shrink_max good_save) bytes_saved min_alive_removed_before_shrink }
{
    shrink_abi::selvaigo_adjust_shrink_threshold(
        min_alive_removed_before_shrink,
        bytes_saved,
        shrink_base,
        shrink_max,
        good_save,
    )
}

// ---- snapshots of the counters

#[unsafe(no_mangle)]
pub extern "C" fn selvaigo_serialized_len(
    state: &[u64; 16],
    counts: &[u64],
    len: &mut [u64; 1],
) -> u8
    ensures { said result (len.new ∷ []) [] ≡ length_said state.now counts.now }
{
    snapshot_abi::selvaigo_serialized_len(state, counts, len)
}

#[unsafe(no_mangle)]
pub extern "C" fn selvaigo_serialized_len_held(
    state: &[u64; 16],
    counts: &[u64],
    len: &mut [u64; 1],
) -> u8
    requires { layout.holds (counters_of state.now) counts.now ≡ true }
    ensures { said result (len.new ∷ []) [] ≡ length_said state.now counts.now }
{
    snapshot_abi::selvaigo_serialized_len_held(state, counts, len)
}

#[unsafe(no_mangle)]
pub extern "C" fn selvaigo_serialize(
    state: &[u64; 16],
    counts: &[u64],
    out: &mut [u8],
    len: &mut [u64; 1],
) -> u8
    ensures { said result (len.new ∷ []) (out.new ∷ []) ≡ serialize_said state.now counts.now out.old }
{
    snapshot_abi::selvaigo_serialize(state, counts, out, len)
}

#[unsafe(no_mangle)]
pub extern "C" fn selvaigo_serialize_held(
    state: &[u64; 16],
    counts: &[u64],
    out: &mut [u8],
    len: &mut [u64; 1],
) -> u8
    requires { layout.holds (counters_of state.now) counts.now ≡ true }
    ensures { said result (len.new ∷ []) (out.new ∷ []) ≡ serialize_said state.now counts.now out.old }
{
    snapshot_abi::selvaigo_serialize_held(state, counts, out, len)
}

#[unsafe(no_mangle)]
pub extern "C" fn selvaigo_deserialize_trusted(
    snapshot: &[u8],
    shrink_base: u64,
    shrink_max: u64,
    good_save: u64,
    state: &mut [u64; 16],
    counts: &mut [u64],
) -> u8
    ensures { said result [] (state.new ∷ counts.new ∷ []) ≡ deserialize_said shrink_base shrink_max good_save snapshot.now state.old counts.old }
{
    reading_abi::selvaigo_deserialize_trusted(
        snapshot,
        shrink_base,
        shrink_max,
        good_save,
        state,
        counts,
    )
}

#[unsafe(no_mangle)]
pub extern "C" fn selvaigo_load_snapshot(
    snapshot: &[u8],
    shrink_base: u64,
    shrink_max: u64,
    good_save: u64,
    state: &mut [u64; 16],
    counts: &mut [u64],
    old_total: &mut [u64; 1],
) -> u8
    ensures { said result (old_total.new ∷ []) (state.new ∷ counts.new ∷ []) ≡ load_said shrink_base shrink_max good_save snapshot.now state.old counts.old }
{
    reading_abi::selvaigo_load_snapshot(
        snapshot,
        shrink_base,
        shrink_max,
        good_save,
        state,
        counts,
        old_total,
    )
}

// ---- the nursery

#[unsafe(no_mangle)]
pub extern "C" fn selvaigo_nursery_new(
    delay: u64,
    nursery: &mut [u64; 4],
    entries: &mut [u64],
    waiting: &mut [u64],
    cells: &mut [u8],
) -> u8
    ensures { said result [] (nursery.new ∷ entries.new ∷ waiting.new ∷ cells.new ∷ []) ≡ empty_said delay nursery.old entries.old waiting.old cells.old }
{
    nursery_abi::selvaigo_nursery_new(delay, nursery, entries, waiting, cells)
}

#[unsafe(no_mangle)]
pub extern "C" fn selvaigo_apply_commit(
    nursery: &mut [u64; 4],
    entries: &mut [u64],
    waiting: &mut [u64],
    cells: &mut [u8],
    wide: u8,
    inserts: u64,
    removes: u64,
    items: &[u8],
) -> u8
    ensures { said result [] (nursery.new ∷ entries.new ∷ waiting.new ∷ cells.new ∷ []) ≡ commit_said nursery.old entries.old waiting.old cells.old wide inserts removes items.now }
{
    nursery_abi::selvaigo_apply_commit(
        nursery, entries, waiting, cells, wide, inserts, removes, items,
    )
}

#[unsafe(no_mangle)]
pub extern "C" fn selvaigo_apply_commit_held(
    nursery: &mut [u64; 4],
    entries: &mut [u64],
    waiting: &mut [u64],
    cells: &mut [u8],
    wide: u8,
    inserts: u64,
    removes: u64,
    items: &[u8],
) -> u8
    requires { holds (nursery_of nursery.old) entries.old waiting.old cells.old ≡ true }
    ensures { said result [] (nursery.new ∷ entries.new ∷ waiting.new ∷ cells.new ∷ []) ≡ commit_said nursery.old entries.old waiting.old cells.old wide inserts removes items.now }
{
    nursery_abi::selvaigo_apply_commit_held(
        nursery, entries, waiting, cells, wide, inserts, removes, items,
    )
}

#[unsafe(no_mangle)]
pub extern "C" fn selvaigo_drain_promotable(
    nursery: &mut [u64; 4],
    entries: &[u64],
    waiting: &mut [u64],
    cells: &[u8],
    round: u32,
    out: &mut [u8],
    len: &mut [u64; 1],
) -> u8
    ensures { said result (len.new ∷ []) (nursery.new ∷ waiting.new ∷ out.new ∷ []) ≡ drain_said nursery.old entries.now waiting.old cells.now round out.old }
{
    drain_abi::selvaigo_drain_promotable(nursery, entries, waiting, cells, round, out, len)
}

#[unsafe(no_mangle)]
pub extern "C" fn selvaigo_drain_promotable_held(
    nursery: &mut [u64; 4],
    entries: &[u64],
    waiting: &mut [u64],
    cells: &[u8],
    round: u32,
    out: &mut [u8],
    len: &mut [u64; 1],
) -> u8
    requires { holds (nursery_of nursery.old) entries.now waiting.old cells.now ≡ true }
    ensures { said result (len.new ∷ []) (nursery.new ∷ waiting.new ∷ out.new ∷ []) ≡ drain_said nursery.old entries.now waiting.old cells.now round out.old }
{
    drain_abi::selvaigo_drain_promotable_held(nursery, entries, waiting, cells, round, out, len)
}

#[unsafe(no_mangle)]
pub extern "C" fn selvaigo_get_idx(
    nursery: &[u64; 4],
    entries: &[u64],
    hash: &[u8; 32],
    found: &mut [u64; 2],
) -> u8
    ensures { said result (found.new ∷ []) [] ≡ idx_said nursery.now entries.now hash.now }
{
    entries_abi::selvaigo_get_idx(nursery, entries, hash, found)
}

#[unsafe(no_mangle)]
pub extern "C" fn selvaigo_get_idx_held(
    nursery: &[u64; 4],
    entries: &[u64],
    hash: &[u8; 32],
    found: &mut [u64; 2],
) -> u8
    requires { holds_entries (nursery_of nursery.now) entries.now ≡ true }
    ensures { said result (found.new ∷ []) [] ≡ idx_said nursery.now entries.now hash.now }
{
    entries_abi::selvaigo_get_idx_held(nursery, entries, hash, found)
}

#[unsafe(no_mangle)]
pub extern "C" fn selvaigo_get_data(
    nursery: &[u64; 4],
    entries: &[u64],
    cells: &[u8],
    hash: &[u8; 32],
    found: &mut [u64; 3],
) -> u8
    ensures { said result (found.new ∷ []) [] ≡ data_said nursery.now entries.now cells.now hash.now }
{
    entries_abi::selvaigo_get_data(nursery, entries, cells, hash, found)
}

#[unsafe(no_mangle)]
pub extern "C" fn selvaigo_get_data_held(
    nursery: &[u64; 4],
    entries: &[u64],
    cells: &[u8],
    hash: &[u8; 32],
    found: &mut [u64; 3],
) -> u8
    requires { (holds_entries (nursery_of nursery.now) entries.now ≡ true) × (holds_cells (nursery_of nursery.now) cells.now ≡ true) }
    ensures { said result (found.new ∷ []) [] ≡ data_said nursery.now entries.now cells.now hash.now }
{
    entries_abi::selvaigo_get_data_held(nursery, entries, cells, hash, found)
}

#[unsafe(no_mangle)]
pub extern "C" fn selvaigo_snapshot_entries(
    nursery: &[u64; 4],
    entries: &[u64],
    cells: &[u8],
    out: &mut [u8],
    len: &mut [u64; 1],
) -> u8
    ensures { said result (len.new ∷ []) (out.new ∷ []) ≡ listing_said nursery.now entries.now cells.now out.old }
{
    listing_abi::selvaigo_snapshot_entries(nursery, entries, cells, out, len)
}

#[unsafe(no_mangle)]
pub extern "C" fn selvaigo_snapshot_entries_held(
    nursery: &[u64; 4],
    entries: &[u64],
    cells: &[u8],
    out: &mut [u8],
    len: &mut [u64; 1],
) -> u8
    requires { (holds_entries (nursery_of nursery.now) entries.now ≡ true) × (holds_cells (nursery_of nursery.now) cells.now ≡ true) }
    ensures { said result (len.new ∷ []) (out.new ∷ []) ≡ listing_said nursery.now entries.now cells.now out.old }
{
    listing_abi::selvaigo_snapshot_entries_held(nursery, entries, cells, out, len)
}

// ---- hash, records, journals

#[unsafe(no_mangle)]
pub extern "C" fn selvaigo_hash(bytes: &[u8], hash: &mut [u8; 32])
    ensures { hash.new ≡ blake3.hash bytes.now }
{
    record_abi::selvaigo_hash(bytes, hash)
}

#[unsafe(no_mangle)]
pub extern "C" fn selvaigo_keyed_hash(key: &[u8], bytes: &[u8], hash: &mut [u8; 32]) -> u8
    ensures { said result (hash.new ∷ []) [] ≡ keyed_hash_said key.now bytes.now }
{
    record_abi::selvaigo_keyed_hash(key, bytes, hash)
}

#[unsafe(no_mangle)]
pub extern "C" fn selvaigo_encode_record(
    keyed: u8,
    key: &[u8],
    id: u64,
    wide: u8,
    inserts: u64,
    removes: u64,
    items: &[u8],
    out: &mut [u8],
    figures: &mut [u64; 6],
) -> u8
    ensures { said result (figures.new ∷ []) (out.new ∷ []) ≡ encode_said keyed key.now id wide inserts removes items.now out.old }
{
    record_abi::selvaigo_encode_record(keyed, key, id, wide, inserts, removes, items, out, figures)
}

#[unsafe(no_mangle)]
pub extern "C" fn selvaigo_decode_record(
    keyed: u8,
    key: &[u8],
    bytes: &[u8],
    figures: &mut [u64; 8],
    hash: &mut [u8; 32],
) -> u8
    ensures { said result (figures.new ∷ hash.new ∷ []) [] ≡ decode_said keyed key.now bytes.now }
{
    record_abi::selvaigo_decode_record(keyed, key, bytes, figures, hash)
}

#[unsafe(no_mangle)]
pub extern "C" fn selvaigo_scan_journal(
    keyed: u8,
    key: &[u8],
    journal: &[u8],
    scan: &mut [u64; 3],
) -> u8
    ensures { said result (scan.new ∷ []) [] ≡ scan_said keyed key.now journal.now }
{
    record_abi::selvaigo_scan_journal(keyed, key, journal, scan)
}

#[unsafe(no_mangle)]
pub extern "C" fn selvaigo_read_journal(
    keyed: u8,
    key: &[u8],
    journal: &[u8],
    delay: u64,
    nursery: &mut [u64; 4],
    entries: &mut [u64],
    waiting: &mut [u64],
    cells: &mut [u8],
    read: &mut [u64; 3],
) -> u8
    ensures { said result (read.new ∷ []) (nursery.new ∷ entries.new ∷ waiting.new ∷ cells.new ∷ []) ≡ journal_said keyed key.now delay journal.now nursery.old entries.old waiting.old cells.old }
{
    reading_abi::selvaigo_read_journal(
        keyed, key, journal, delay, nursery, entries, waiting, cells, read,
    )
}

#[unsafe(no_mangle)]
pub extern "C" fn selvaigo_convert_journal(
    journal: &[u8],
    out: &mut [u8],
    dropped: &mut [u8],
    lengths: &mut [u64; 2],
) -> u8
    ensures { said result (lengths.new ∷ []) (out.new ∷ dropped.new ∷ []) ≡ convert_said journal.now out.old dropped.old }
{
    record_abi::selvaigo_convert_journal(journal, out, dropped, lengths)
}
