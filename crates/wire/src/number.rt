// Numbers in up to eight bytes, and parts of byte slices.
ghost use Rattle.std.specs.Prelude.{◌≡◌, ℕ, ◌+◌, ◌^◌, ◌<◌, ◌≤◌, length, take, drop};
ghost use Rattle.wire.specs.Bytes.{Bytes};
ghost use Rattle.wire.specs.Numbers.{le_value, le_bytes, be_value, be_bytes};

// Does nothing: its caller's proof learns that each element is below 256.
pub fn seen(s: &[u8])
    ensures { Bytes s.now }
{
    let _ = s;
}

// w bytes of s from p on.
pub fn part(s: &[u8], p: usize, w: usize) -> &[u8]
    requires { p + w ≤ length s.now }
    ensures value { result.now ≡ take w (drop p s.now) }
    ensures len { length result.now ≡ w }
{
    &s[p..p + w]
}

// What lies from p on.
pub fn tail(s: &[u8], p: usize) -> &[u8]
    requires { p ≤ length s.now }
    ensures value { result.now ≡ drop p s.now }
    ensures len { length result.now + p ≡ length s.now }
{
    &s[p..]
}

// The first n bytes, or all where there are fewer.
pub fn upto(s: &[u8], n: usize) -> &[u8]
    ensures { result.now ≡ take n s.now }
{
    s.get(..n).unwrap_or(s)
}

// What lies behind the first n bytes: nothing where there are fewer.
pub fn beyond(s: &[u8], n: usize) -> &[u8]
    ensures { result.now ≡ drop n s.now }
{
    &s[n.min(s.len())..]
}

// The number that up to eight bytes are, the little end first.
pub fn le_read(s: &[u8]) -> u64
    requires { length s.now ≤ 8 }
    ensures value { result ≡ le_value s.now }
    ensures bound { result < 256 ^ length s.now }
    ensures written { le_bytes (length s.now) result ≡ s.now }
{
    let mut n: u64 = 0;
    for b in s.iter().rev() {
        n = n * 256 + *b as u64;
    }
    n
}

// Writes the low bytes of n, the little end first, as many as there is room for.
pub fn le_put(out: &mut [u8], n: u64)
    ensures value { out.new ≡ le_bytes (length out.old) n }
    ensures read { n < 256 ^ length out.old → le_value out.new ≡ n }
{
    let mut left = n;
    for b in out.iter_mut() {
        *b = (left % 256) as u8;
        left /= 256;
    }
}

// The number that up to eight bytes are, the big end first.
// One function over any iterator is no plainer: its contract would have to say in which order the bytes come.
pub fn be_read(s: &[u8]) -> u64
    requires { length s.now ≤ 8 }
    ensures value { result ≡ be_value s.now }
    ensures bound { result < 256 ^ length s.now }
    ensures written { be_bytes (length s.now) result ≡ s.now }
{
    let mut n: u64 = 0;
    for b in s {
        n = n * 256 + *b as u64;
    }
    n
}

// Writes the low bytes of n, the big end first, as many as there is room for.
pub fn be_put(out: &mut [u8], n: u64)
    ensures value { out.new ≡ be_bytes (length out.old) n }
    ensures read { n < 256 ^ length out.old → be_value out.new ≡ n }
{
    le_put(out, n);
    out.reverse();
}
