// The cells, end to end: one put among them, and one taken out.
ghost use Rattle.std.specs.Prelude.{◌≡◌, ◌++◌, ◌+◌, ◌-◌, ◌≤◌, length, take, drop};
ghost use Rattle.base.specs.Logic.{zeros};

// The len bytes of `items` from index `at` go in at index `place`: the bytes from there to `end` move up.
pub fn insert_cell(t: &mut [u8], place: usize, end: usize, items: &[u8], at: usize, len: usize)
    requires { (place ≤ end) × (end + len ≤ length t.old) × (at + len ≤ length items.now) }
    ensures { t.new ≡ take place t.old ++ (take len (drop at items.now) ++ (take (end - place) (drop place t.old) ++ drop (end + len) t.old)) }
{
    slices::move_within(t, place, place + len, end - place);
    slices::copy_at(t, place, &items[at..at + len]);
}

// The len bytes at index `place` go: the bytes behind them to `end` move down, and zeros take the places that this frees.
pub fn remove_cell(t: &mut [u8], place: usize, end: usize, len: usize)
    requires { (place + len ≤ end) × (end ≤ length t.old) }
    ensures { t.new ≡ take place t.old ++ (take (end - (place + len)) (drop (place + len) t.old) ++ (zeros len ++ drop end t.old)) }
{
    slices::move_within(t, place + len, place, end - (place + len));
    slices::fill(t, end - len, len, 0);
}
