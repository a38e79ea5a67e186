// Slices written from the front, each place by what a closure makes of it. A call is specialised to its closure.
ghost use Rattle.std.specs.Prelude.{◌≡◌, ℕ, ◌≤◌, ◌<◌, length, slice_index_or};

// Place k becomes f(k), in the whole slice.
pub fn by_place<T: Copy, F: Fn(usize) -> T>(out: &mut [T], f: F)
    requires callable { (k : ℕ) → k < length out.old → F.pre f k }
    ensures long { length out.new ≡ length out.old }
    ensures each { (k : ℕ) (d : T) → k < length out.old → F.post f k (slice_index_or out.new k d) }
{
    for (k, x) in out.iter_mut().enumerate() {
        *x = f(k);
    }
}

// Place k becomes f(from[k]), as far as `from` goes; behind it all stays. The loop is its own: by `by_place` and a closure over f the clause
// `front` did not prove.
pub fn mapped<S: Copy, T: Copy, F: Fn(S) -> T>(from: &[S], out: &mut [T], f: F)
    requires room { length from.now ≤ length out.old }
    requires callable { (k : ℕ) (c : S) → k < length from.now → F.pre f (slice_index_or from.now k c) }
    ensures long { length out.new ≡ length out.old }
    ensures front { (k : ℕ) (c : S) (d : T) → k < length from.now → F.post f (slice_index_or from.now k c) (slice_index_or out.new k d) }
    ensures back { (k : ℕ) (d : T) → length from.now ≤ k → slice_index_or out.new k d ≡ slice_index_or out.old k d }
{
    for (k, c) in from.iter().enumerate() {
        out[k] = f(*c);
    }
}
